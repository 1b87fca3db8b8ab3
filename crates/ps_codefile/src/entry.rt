ghost use Rattle.std.specs.Prelude.{◌≡◌, ◌==◌};
ghost use Rattle.std.specs.List.{list_all};
ghost use Rattle.ps_codefile.specs.Dictionary.{is_nameless as nameless_spec, role_of, is_filled as filled_spec, has_bad_length as bad_length_spec};
ghost use Rattle.ps_codefile.specs.Roles.{needs_linking as needs_linking_spec, is_host as is_host_spec, is_unit as is_unit_spec};

use crate::code_layout::MAX_CODE_LEN;
use crate::kinds::{FIRST_INTRINSIC, HOSTSEG, LAST_INTRINSIC, LINKED, SEGPROC, SEPRTSEG, UNITSEG};
use ps_words::{Name, Reason};

/// The shortest code of a segment that is linked.
const MIN_LEN_TO_LINK: u16 = 4;

/// What the segment dictionary says of a slot.
///
/// Source: UCSD Pascal II.0 manual, code file format.
#[derive(Clone, Copy, Debug, PartialEq, Eq)]
pub struct Entry {
    /// The block that the code begins in; 0 where the file has no code of the segment.
    pub address: u16,
    /// The code's length in bytes.
    pub length: u16,
    /// The segment's name, padded with blanks.
    pub name: Name,
    /// The segment's kind: 0 LINKED, 1 HOSTSEG, 2 SEGPROC, 3 UNITSEG, 4 SEPRTSEG.
    pub kind: u16,
    /// The block that the interface text begins in.
    pub text: u16,
}

/// What a slot of the host is for.
///
/// Source: this project's profile, over the kinds of the UCSD Pascal II.0 manual.
#[derive(Clone, Copy, Debug, PartialEq, Eq)]
pub enum Role {
    /// The slot has no segment.
    Empty,
    /// The slot names a unit whose code a library has.
    Wanted,
    /// The segment is linked already, and is copied as it is.
    Plain,
    /// The host's own segment.
    Host,
    /// A unit whose code is in the host file.
    Unit,
}

impl Role {
    /// The references of a segment of this role are to be resolved: it is the host's own or a
    /// unit's.
    pub fn needs_linking(self) -> bool
        ensures { result ≡ needs_linking_spec self }
    {
        matches!(self, Role::Host | Role::Unit | Role::Wanted)
    }

    /// The segment is the host's own.
    /// Source: UCSD Pascal II.0 manual, code file format.
    pub fn is_host(self) -> bool
        ensures { result ≡ is_host_spec self }
    {
        matches!(self, Role::Host)
    }

    /// The segment is a unit's, in the host file or wanted.
    /// Source: UCSD Pascal II.0 manual, code file format.
    pub fn is_unit(self) -> bool
        ensures { result ≡ is_unit_spec self }
    {
        matches!(self, Role::Unit | Role::Wanted)
    }
}

fn all_are(name: &Name, byte: u8) -> bool
    ensures { result ≡ list_all (λ b. b == byte) name.now }
{
    name.iter().all(|b| *b == byte)
}

/// The name is eight blanks or eight zero bytes.
pub fn is_nameless(name: &Name) -> bool
    ensures { result ≡ nameless_spec name.now }
{
    all_are(name, b' ') || all_are(name, 0)
}

impl Entry {
    /// What a slot of the host with this entry is for.
    pub(crate) fn role(&self) -> Result<Role, Reason>
        ensures { result ≡ role_of self.now }
    {
        if self.kind == UNITSEG && (self.address == 0 || self.length == 0) {
            return Ok(if is_nameless(&self.name) {
                Role::Empty
            } else {
                Role::Wanted
            });
        }
        if self.length == 0 {
            return Ok(Role::Empty);
        }
        match self.kind {
            LINKED => Ok(Role::Plain),
            HOSTSEG => Ok(Role::Host),
            SEGPROC => Err(Reason::SegmentProcedure),
            UNITSEG => Ok(Role::Unit),
            SEPRTSEG => Err(Reason::NativeSegment),
            FIRST_INTRINSIC..=LAST_INTRINSIC => Err(Reason::Intrinsic),
            _ => Err(Reason::UnknownKind),
        }
    }

    /// The slot is neither wanted nor empty, whatever its kind.
    pub(crate) fn is_filled(&self) -> bool
        ensures { result ≡ filled_spec self.now }
    {
        self.length != 0 && !(self.kind == UNITSEG && self.address == 0)
    }

    /// The length is over the limit, or cannot be that of a host's segment or a unit.
    pub(crate) fn has_bad_length(&self) -> bool
        ensures { result ≡ bad_length_spec self.now }
    {
        let needs_linking = self.kind == HOSTSEG || self.kind == UNITSEG;
        self.length > MAX_CODE_LEN
            || needs_linking && (self.length % 2 == 1 || self.length < MIN_LEN_TO_LINK)
    }
}
