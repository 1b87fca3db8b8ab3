//! What was read of one slot of a host.
ghost use Rattle.std.specs.Prelude.{◌≡◌};
ghost use Rattle.std.specs.Option.{option_map};
ghost use Rattle.ps_reading.specs.SlotReadings.{why_refused as why_refused_spec};

use crate::locations::EntryAt;
use crate::reading::request::Request;
use crate::reading::segment::Segment;
use ps_codefile::{Entry, Role};
use ps_words::{Fault, Reason};

/// Why a slot, or a unit that is requested, has no segment.
#[derive(Clone, Copy, Debug, PartialEq, Eq)]
pub enum Absent {
    /// It is refused, for this fault.
    Refused(Fault),
    /// No library has the unit.
    Missing,
    /// No empty slot of the host is left for the unit.
    Unplaced,
    /// The unit is requested after the first fault, so no library was searched for it.
    NotLookedFor,
}

/// What was read of a slot of a host, also where it is refused.
///
/// Source: the segment dictionary, UCSD Pascal II.0 manual, code file format; which units are added,
/// this project's profile.
#[derive(Drop)]
pub struct SlotReading<'r, 'a> {
    /// What the host's dictionary says of the slot.
    pub entry: Entry,
    /// What the slot is for, or why its kind is refused.
    pub role: Result<Role, Reason>,
    /// The request for a unit that the slot has: its own, where it wants one, or that of a name that
    /// a record requests, which takes the slot if it is empty.
    pub request: Option<Request>,
    /// Where its segment comes from, also where that is refused; `None` where it has none, or where
    /// no library has the unit.
    pub source: Option<EntryAt>,
    /// Its segment, or why it has none; `None` where it has none to have: it is empty and takes no
    /// unit, or its kind is refused. Never `Unplaced`, which is said of a unit without a slot.
    pub segment: Option<Result<&'r Segment<'a>, Absent>>,
}

/// Why a segment is refused that comes from this entry: for its fault; or, where there is no entry,
/// since no library has it.
pub(crate) fn why_refused(source: Option<EntryAt>, fault: Fault) -> Absent
    ensures { result ≡ why_refused_spec (option_map (λ p. (p.file, p.index)) source) fault }
{
    match source {
        None => Absent::Missing,
        Some(_) => Absent::Refused(fault),
    }
}
