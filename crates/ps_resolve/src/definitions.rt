ghost use Rattle.std.specs.Prelude.{◌≡◌, ◌<◌, ◌==◌, ◌++◌, ◌∷◌, [], length, slice_get, Some, None, is_some, false, IfOk, IfErr, OnOk, ⊤};
ghost use Rattle.indexmap.specs.IndexMap.{hasher_of};
ghost use Rattle.ps_linkinfo.specs.RecordCounts.{definitions_in, digest_of, is_definition};
ghost use Rattle.ps_linkinfo.specs.Records.{reading};
ghost use Rattle.ps_resolve.specs.Symbols.{definitions, definition_of, def_in, first_duplicate};
ghost use Rattle.ps_resolve.specs.Stops.{IsStop, doubled_fault, duplicate_fault};
ghost use Rattle.ps_resolve.specs.Builders.{HaveNoNamesakes, StopsDefinitions};
ghost use Rattle.ps_resolve.specs.declared.linkage.Stop.TheVariants.{Memory};

use crate::linkage::{Linkage, Stop};
use crate::name_hasher::{NameHasher, NameKey};
use indexmap::IndexMap;
use ps_linkinfo::{Body, LinkInformation, LinkRecord};
use ps_reading::{RecordAt, SegmentAt};
use ps_words::{Name, Reason};
use std::alloc::{Allocator, Global};
use std::marker::Model;

/// What a definition of the host's segment is of.
///
/// Source: the published II.0 Linker source, the link records PUBLDEF and CONSTDEF.
#[derive(Clone, Copy, Debug, PartialEq, Eq)]
pub enum DefKind {
    /// A global variable of the host (PUBLDEF).
    Public,
    /// A global constant of the host (CONSTDEF).
    Constant,
}

/// A definition of the host's segment.
/// Source: the published II.0 Linker source.
#[derive(Clone, Copy, Debug, PartialEq, Eq)]
pub struct Def {
    /// What the definition is of.
    pub kind: DefKind,
    /// The variable's base offset in words, or the constant's value: 0 to `MAX_WORD`.
    pub value: u16,
}

/// The definitions of the host's segment by their names, in the order of their records.
///
/// Names are looked up by hashes that are keyed by the names of the segment's own records, so names
/// that collide in one segment do not in another.
/// Source: the published II.0 Linker source.
#[derive(Drop)]
pub struct Definitions<A: Allocator + Copy = Global> {
    by_name: IndexMap<NameKey, Def, NameHasher, A>,
}

impl<A: Allocator + Copy> Model for Definitions<A> {
    ghost use Rattle.std.specs.Prelude.{List, ℕ};
    ghost use Rattle.ps_resolve.specs.declared.definitions.Def.{Def};

    ghost Value = { List (List ℕ × Def) };

    ghost view = { λ d. d.by_name.entries };
}

/// What a record defines: a value where its kind defines a name.
fn def_of(entry: &LinkRecord) -> Option<Def>
    ensures { result ≡ def_in entry.now.body }
{
    match &entry.body {
        Body::PublDef(value) => Some(Def {
            kind: DefKind::Public,
            value: *value,
        }),
        Body::ConstDef(value) => Some(Def {
            kind: DefKind::Constant,
            value: *value,
        }),
        _ => None,
    }
}

/// An empty table for the definitions of a segment's records, by hashes that are keyed by these
/// records. It is made at its exact size.
fn empty_table<A: Allocator + Copy>(
    alloc: A,
    records: &LinkInformation,
) -> Result<IndexMap<NameKey, Def, NameHasher, A>, Stop>
    ensures empty { IfOk result (λ m. m.entries ≡ []) }
    ensures keyed { IfOk result (λ m. hasher_of m ≡ digest_of records.now) }
    ensures stop { IfErr result (λ stop. (stop ≡ Memory) × (0 < definitions_in records.now)) }
{
    let hasher = NameHasher::of(records);
    let table = IndexMap::with_capacity_and_hasher(alloc, records.definitions(), hasher)?;
    Ok(table)
}

/// Puts a definition into the table, or refuses the record that is there, as the table has its
/// name.
fn define<A: Allocator + Copy>(
    by_name: &mut IndexMap<NameKey, Def, NameHasher, A>,
    place: RecordAt,
    name: Name,
    def: Def,
) -> Result<(), Stop>
    ensures keyed { hasher_of by_name.new ≡ hasher_of by_name.old }
    ensures entries { OnOk result (by_name.new.entries
        ≡ by_name.old.entries ++ (name, def) ∷ []) }
    ensures once { OnOk result (is_some (definition_of name by_name.old.entries) ≡ false) }
    ensures stop { IfErr result (IsStop ⊤ (doubled_fault place
        (is_some (definition_of name by_name.old.entries)))) }
{
    let is_doubled = by_name.insert(NameKey(name), def)?.is_some();
    if is_doubled {
        return Err(Stop::in_record(place, Reason::DoubledDefinition));
    }
    Ok(())
}

/// Puts the definitions of a segment's records into an empty table.
fn define_all<A: Allocator + Copy>(
    by_name: &mut IndexMap<NameKey, Def, NameHasher, A>,
    place: SegmentAt,
    records: &LinkInformation,
) -> Result<(), Stop>
    requires { by_name.old.entries ≡ [] }
    ensures keyed { hasher_of by_name.new ≡ hasher_of by_name.old }
    ensures entries { OnOk result (by_name.new.entries ≡ definitions records.now) }
    ensures once { OnOk result (first_duplicate records.now ≡ None) }
    ensures stop { IfErr result (IsStop (0 < length (definitions records.now))
        (duplicate_fault place.file place.slot records.now)) }
{
    if records.definitions() == 0 {
        return Ok(());
    }
    for (rec, record) in records.records() {
        if let Some(def) = def_of(&record) {
            define(by_name, place.record(rec), record.name, def)?;
        }
    }
    Ok(())
}

/// The definitions of a segment's records by hashes that are keyed by these records.
#[tactic(auto, using(crate::proofs::Duplicates::definitions_counted))]
fn table_of<A: Allocator + Copy>(
    alloc: A,
    place: SegmentAt,
    records: &LinkInformation,
) -> Result<IndexMap<NameKey, Def, NameHasher, A>, Stop>
    ensures entries { IfOk result (λ m. m.entries ≡ definitions records.now) }
    ensures once { IfOk result (λ _. first_duplicate records.now ≡ None) }
    ensures keyed { IfOk result (λ m. hasher_of m ≡ digest_of records.now) }
    ensures stop { IfErr result (IsStop (0 < length (definitions records.now))
        (duplicate_fault place.file place.slot records.now)) }
{
    let mut by_name = empty_table(alloc, records)?;
    define_all(&mut by_name, place, records)?;
    Ok(by_name)
}

impl<A: Allocator + Copy> Definitions<A> {
    /// Reads the definitions of the host's segment, its PUBLDEF and CONSTDEF records.
    ///
    /// The link information has to read without a fault: up to the first fault its records are
    /// taken.
    /// Refuses `DoubledDefinition` at the first record that defines a name again, with the file and
    /// the slot of `host`. Returns `Memory` only where memory was refused, and there is a
    /// definition.
    ///
    /// Source: the published II.0 Linker source; that a name is defined once is this project's
    /// profile.
    pub fn build(alloc: A, host: &Linkage) -> Result<Self, Stop>
        ensures found { IfOk result (λ d. d
            ≡ definitions (reading host.now.order host.now.bytes.now).0) }
        ensures names { IfOk result (λ _. HaveNoNamesakes is_definition
            (reading host.now.order host.now.bytes.now).0) }
        ensures refused { IfErr result (StopsDefinitions host.now.file host.now.slot
            (reading host.now.order host.now.bytes.now).0) }
        ensures once { IfOk result (λ _. first_duplicate
            (reading host.now.order host.now.bytes.now).0 ≡ None) }
        ensures stop { IfErr result (IsStop
            (0 < length (definitions (reading host.now.order host.now.bytes.now).0))
            (duplicate_fault host.now.file host.now.slot
            (reading host.now.order host.now.bytes.now).0)) }
    {
        let records = LinkInformation::up_to_fault(host.order, host.bytes);
        Definitions::of_records(alloc, host.place(), &records)
    }

    /// The definitions of the records of a segment, for `build`.
    pub(crate) fn of_records(
        alloc: A,
        place: SegmentAt,
        records: &LinkInformation,
    ) -> Result<Self, Stop>
        ensures found { IfOk result (λ d. d ≡ definitions records.now) }
        ensures once { IfOk result (λ _. first_duplicate records.now ≡ None) }
        ensures stop { IfErr result (IsStop (0 < length (definitions records.now))
            (duplicate_fault place.file place.slot records.now)) }
    {
        let by_name = table_of(alloc, place, records)?;
        Ok(Definitions { by_name })
    }

    /// The definition of the name, eight bytes; `None` where the host's segment does not define it.
    /// Source: the published II.0 Linker source.
    pub fn look(&self, name: &Name) -> Option<Def>
        ensures { result ≡ definition_of name.now self.now }
    {
        self.by_name.get(&NameKey(*name)).copied()
    }

    /// How many definitions there are.
    pub fn len(&self) -> usize
        ensures { result ≡ length self.now }
    {
        self.by_name.len()
    }

    /// There is no definition.
    pub fn is_empty(&self) -> bool
        ensures { result ≡ (length self.now == 0) }
    {
        self.len() == 0
    }

    /// The name and the definition of index `i`, from 0, in the order of the records; `i` is below
    /// `len`.
    pub fn at(&self, i: usize) -> (Name, Def)
        requires { i < length self.now }
        ensures { slice_get self.now i ≡ Some result }
    {
        match self.by_name.get_index(i) {
            None => unreachable!(),
            Some((name, def)) => (name.0, *def),
        }
    }
}
