ghost use Rattle.std.specs.Prelude.{◌≡◌, ◌<◌, ◌++◌, [], IfOk, IfSome, All, option_and_then};
ghost use Rattle.std.specs.Option.{option_to_list};
ghost use Rattle.arrayvec.specs.ArrayVec.{array_vec_len};
ghost use Rattle.std.specs.Result.{result_err, result_ok};
ghost use Rattle.ps_reading.specs.Sources.{own_segment, opened};
ghost use Rattle.ps_reading.specs.Faults.{source_fault};
ghost use Rattle.ps_reading.specs.Searches.{first_of};
ghost use Rattle.ps_reading.specs.Readings.{own_faults, read_segment, read_segments};
ghost use Rattle.ps_reading.specs.KnownSegments.{IsRead};

use crate::locations::SegmentAt;
use crate::reading::entries::read_segment;
use crate::reading::request::{Request, read_unit};
use crate::reading::segment::Segment;
use crate::reading::slot_faults::SlotFaults;
use crate::reading::slots::{HOST_FILE, HostSlots, is_empty};
use arrayvec::ArrayVec;
use ps_codefile::Role;
use ps_codefile::dictionary_layout::{SLOT_COUNT, SLOTS};
use ps_words::Fault;

/// The segment of a slot, or None where the slot is empty or has a kind that was refused. `earlier`
/// are segments that were read before. It stands in the body of its caller, so that the segment is
/// handed up once less.
#[inline(always)]
pub(crate) fn read_slot<'a>(
    host: &HostSlots<'a>,
    libs: &'a [&'a [u8]],
    slot: u8,
    earlier: &[Segment<'a>],
) -> Result<Option<Segment<'a>>, Fault>
    requires slots { slot < SLOTS }
    requires read { All (IsRead host.now.order host.now.file (opened host.now.order libs.now))
        earlier.now }
    ensures fault { result_err result ≡ source_fault host.now.order host.now.file
        (opened host.now.order libs.now) slot }
    ensures segment { IfOk result (λ s. s
        ≡ own_segment host.now.order host.now.file (opened host.now.order libs.now) slot) }
    ensures read { IfOk result (λ s. IfSome s
        (IsRead host.now.order host.now.file (opened host.now.order libs.now))) }
{
    match host.role(slot) {
        Err(_) => Ok(None),
        Ok(role) => match role {
            Role::Empty => Ok(None),
            Role::Plain | Role::Host | Role::Unit => {
                let place = SegmentAt {
                    file: HOST_FILE,
                    slot,
                };
                let name = host.entry(slot).name;
                let own = read_segment(place, name, role, host.dict(), slot, earlier)?;
                Ok(Some(own))
            }
            Role::Wanted => {
                let request = Request::of_slot(host, slot);
                let wanted = read_unit(host, libs, &request, earlier)?;
                Ok(Some(wanted))
            }
        },
    }
}

/// Adds the segment of a slot, where it has one, or answers its fault.
#[inline(always)]
fn add_segment<'a>(
    segments: &mut ArrayVec<Segment<'a>, SLOT_COUNT>,
    read: Result<Option<Segment<'a>>, Fault>,
) -> Option<Fault>
    requires { array_vec_len segments.old < SLOT_COUNT }
    ensures segments { segments.new.items ≡ segments.old.items
        ++ option_to_list (option_and_then (λ s. s) (result_ok read.entry)) }
    ensures fault { result ≡ result_err read.entry }
{
    match read {
        Err(fault) => Some(fault),
        Ok(None) => None,
        Ok(Some(segment)) => {
            segments.push(segment);
            None
        }
    }
}

/// Reads a slot: adds its segment, where it has one, or answers its fault.
#[inline(always)]
fn read_next<'a>(
    host: &HostSlots<'a>,
    libs: &'a [&'a [u8]],
    slot: u8,
    segments: &mut ArrayVec<Segment<'a>, SLOT_COUNT>,
) -> Option<Fault>
    requires slots { slot < SLOTS }
    requires room { array_vec_len segments.old < SLOT_COUNT }
    requires read { All (IsRead host.now.order host.now.file (opened host.now.order libs.now))
        segments.old.items }
    ensures fault { result ≡ source_fault host.now.order host.now.file
        (opened host.now.order libs.now) slot }
    ensures segments { segments.new.items ≡ segments.old.items ++ option_to_list
        (read_segment host.now.order host.now.file (opened host.now.order libs.now) slot) }
    ensures read { All (IsRead host.now.order host.now.file (opened host.now.order libs.now))
        segments.new.items }
{
    if is_empty(host, slot) {
        return None;
    }
    let read = read_slot(host, libs, slot, segments.as_slice());
    add_segment(segments, read)
}

/// Reads the host's own slots: fills the table with their segments, by slot ascending, and hands on
/// the fault of the source of each.
#[inline(always)]
pub(crate) fn read_slots<'a, F: SlotFaults>(
    host: &HostSlots<'a>,
    libs: &'a [&'a [u8]],
    segments: &mut ArrayVec<Segment<'a>, SLOT_COUNT>,
    faults: &mut F,
)
    requires empty { segments.old.items ≡ [] }
    requires none { F.has_taken faults.old [] }
    ensures faults { F.has_taken faults.new (own_faults host.now.order host.now.file
        (opened host.now.order libs.now)) }
    ensures segments { segments.new.items
        ≡ read_segments host.now.order host.now.file (opened host.now.order libs.now) }
    ensures read { All (IsRead host.now.order host.now.file (opened host.now.order libs.now))
        segments.new.items }
{
    for slot in 0..SLOTS {
        let fault = read_next(host, libs, slot, segments);
        faults.take_next(slot, fault);
    }
}

/// The first of these faults, which are those of the slots in their order.
pub(crate) fn first_fault(faults: &[Option<Fault>]) -> Option<Fault>
    ensures { result ≡ first_of (λ fault. fault) faults.now }
{
    for fault in faults {
        if fault.is_some() {
            return *fault;
        }
    }
    None
}
