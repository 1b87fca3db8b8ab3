ghost use Rattle.std.specs.Prelude.{◌≡◌, ℕ, ◌<◌, List, Some, IfOk, IfSome, is_none, All};
ghost use Rattle.std.specs.Result.{result_err};
ghost use Rattle.ps_reading.specs.Sources.{file_at, opened, unit_source};
ghost use Rattle.ps_reading.specs.Faults.{request_fault};
ghost use Rattle.ps_reading.specs.Requests.{as_requested as as_requested_spec, is_missing, missing_at, request_by_slot, requested_segment};
ghost use Rattle.ps_reading.specs.KnownSegments.{IsRead};

use crate::locations::{EntryAt, RecordAt, SegmentAt};
use crate::reading::entries::read_segment;
use crate::reading::segment::Segment;
use crate::reading::slots::{HOST_FILE, HostSlots};
use crate::reading::units::{chosen_library, entries_reason};
use ps_codefile::dictionary_layout::SLOTS;
use ps_codefile::{Dict, Role, is_nameless};
use ps_words::{Fault, Name, Reason};

/// Who requests a unit.
#[derive(Clone, Copy)]
pub enum Requester {
    /// The slot of the host that wants it, which is the slot that it takes.
    Slot,
    /// The UNITREF record that first gave its name.
    Record(RecordAt),
}

/// A request for a unit.
#[derive(Clone, Copy)]
pub struct Request {
    /// The name of the unit.
    pub name: Name,
    /// The slot of the host that the unit takes, 0 to 15.
    pub slot: u8,
    /// Who requests it.
    pub requester: Requester,
}

impl Request {
    /// The request of a slot of the host, for the unit of its name.
    pub(crate) fn of_slot(host: &HostSlots, slot: u8) -> Request
        requires { slot < SLOTS }
        ensures { result ≡ request_by_slot host.now.order host.now.file slot }
    {
        let name = host.entry(slot).name;
        Request {
            name,
            slot,
            requester: Requester::Slot,
        }
    }

    /// No library has the unit.
    fn missing(&self) -> Fault
        ensures { result ≡ missing_at self.now.slot self.now.requester }
    {
        match self.requester {
            Requester::Slot => Fault::in_slot(HOST_FILE, self.slot, Reason::MissingUnit),
            Requester::Record(place) => place.fault(Reason::MissingUnit),
        }
    }
}

/// Where the unit of this name is: the first filled entry of the name, of the first library that has
/// one, with the dictionary of that library.
pub(crate) fn unit_named<'a>(
    host: &HostSlots<'a>,
    name: Name,
    libs: &'a [&'a [u8]],
) -> Option<(Dict<'a>, EntryAt)>
    ensures missing { is_none result
        ≡ is_missing host.now.order (opened host.now.order libs.now) name }
    ensures source { IfSome result (λ u. unit_source host.now.order name
        (opened host.now.order libs.now) ≡ Some (u.1.file, u.1.index)) }
    ensures dict { (file : List ℕ) → IfSome result (λ u. u.0 ≡ record {
      order = host.now.order;
      file = file_at file (opened host.now.order libs.now) u.1.file;
    }) }
    ensures in_range { IfSome result (λ u. u.1.index < SLOTS) }
{
    if is_nameless(&name) {
        return None;
    }
    chosen_library(host.order(), name, libs)
}

/// The segment, as it is requested: one that a record requests is added.
#[inline(always)]
fn as_requested<'a>(segment: Segment<'a>, requester: Requester) -> Segment<'a>
    ensures { result ≡ as_requested_spec requester segment.entry }
{
    match requester {
        Requester::Slot => segment,
        Requester::Record(_) => segment.into_added(),
    }
}

/// The segment of the unit that is requested, or the first fault of the request. `earlier` are
/// segments that were read before.
pub(crate) fn read_unit<'a>(
    host: &HostSlots<'a>,
    libs: &'a [&'a [u8]],
    request: &Request,
    earlier: &[Segment<'a>],
) -> Result<Segment<'a>, Fault>
    requires slots { request.now.slot < SLOTS }
    requires read { All (IsRead host.now.order host.now.file (opened host.now.order libs.now))
        earlier.now }
    ensures fault { result_err result
        ≡ request_fault host.now.order host.now.file (opened host.now.order libs.now) request.now }
    ensures segment { IfOk result (λ s. requested_segment host.now.order host.now.file
        (opened host.now.order libs.now) request.now ≡ Some s) }
    ensures read { IfOk result (IsRead host.now.order host.now.file
        (opened host.now.order libs.now)) }
{
    match unit_named(host, request.name, libs) {
        None => Err(request.missing()),
        Some((dict, at)) => match entries_reason(&dict, request.name, at.index) {
            Some(reason) => Err(Fault::in_slot(at.file, request.slot, reason)),
            None => {
                let place = SegmentAt {
                    file: at.file,
                    slot: request.slot,
                };
                let name = request.name;
                let segment = read_segment(place, name, Role::Wanted, &dict, at.index, earlier)?;
                Ok(as_requested(segment, request.requester))
            }
        },
    }
}
