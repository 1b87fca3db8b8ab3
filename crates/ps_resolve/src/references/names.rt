ghost use Rattle.std.specs.Prelude.{◌≡◌};
ghost use Rattle.ps_resolve.specs.References.{known_definition, known_unit};

use crate::definitions::{Def, DefKind, Definitions};
use ps_reading::UnitSlots;
use ps_words::{Edit, Name, Order};
use std::alloc::{Allocator, Global};
use std::marker::Model;

/// The base offset from which on a host that would define each name has its variables.
pub(crate) const LONE_BASE: u16 = 1;

/// The slot in which such a host has each unit.
const LONE_SLOT: u8 = 0;

/// The names that references may give.
#[derive(Drop)]
pub(crate) enum NamesOf<'k, A: Allocator + Copy = Global> {
    /// Those of a link: definitions of the host's segment, and units.
    Link {
        definitions: &'k Definitions<A>,
        units: &'k UnitSlots,
    },
    /// Those of a host that would define each name: a public variable of the base offset
    /// `LONE_BASE`, and a unit in `LONE_SLOT`.
    Each,
}

/// What the names of references stand for.
#[derive(Drop)]
pub(crate) struct Names<'k, A: Allocator + Copy = Global> {
    pub(crate) of: NamesOf<'k, A>,
}

impl<'k, A: Allocator + Copy> Model for Names<'k, A> {
    ghost use Rattle.ps_resolve.specs.References.{Known, each_name, known_by};
    ghost use Rattle.ps_resolve.specs.declared.references.names.NamesOf.TheVariants.{Link, Each};

    ghost Value = { Known };

    ghost view = { λ n. elim n.of [ Link definitions units ↦ known_by definitions.now units.now | Each ↦ each_name ] };
}

impl<'k, A: Allocator + Copy> Names<'k, A> {
    pub(crate) fn slot_of_unit(&self, name: Name) -> Option<u8>
        ensures { result ≡ known_unit self.now name }
    {
        match &self.of {
            NamesOf::Link { units, .. } => units.slot_of(name),
            NamesOf::Each => Some(LONE_SLOT),
        }
    }

    pub(crate) fn definition_of(&self, name: &Name) -> Option<Def>
        ensures { result ≡ known_definition self.now name.now }
    {
        match &self.of {
            NamesOf::Link { definitions, .. } => definitions.look(name),
            NamesOf::Each => Some(Def {
                kind: DefKind::Public,
                value: LONE_BASE,
            }),
        }
    }
}

/// What every segment of a link is linked by.
#[derive(Drop)]
pub(crate) struct Linking<'k, A: Allocator + Copy> {
    /// The byte order of the files.
    pub(crate) order: Order,
    /// What the references' names stand for.
    pub(crate) names: &'k Names<'k, A>,
    /// What stores the host's data size.
    pub(crate) size: Edit,
}
