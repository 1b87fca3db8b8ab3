ghost use Rattle.std.specs.Prelude.{◌≡◌, ◌<◌, ◌≤◌, ◌+◌, ◌++◌, ◌∷◌, [], List, All, if◌then◌else◌, length, take, slice_get, bytes_eq};
ghost use Rattle.std.specs.List.{insert, list_any};
ghost use Rattle.std.specs.Result.{result_err};
ghost use Rattle.arrayvec.specs.ArrayVec.{array_vec_len};
ghost use Rattle.ps_codefile.specs.Roles.{is_empty as is_empty_role};
ghost use Rattle.ps_reading.specs.Sources.{opened, Segment as SegmentOfLink};
ghost use Rattle.ps_reading.specs.Added.{unit_references, all_unit_references, is_already_known as is_already_known_spec, requested_from, request_of, empty_slots as empty_slots_spec, unplaced_fault, rounds_from};
ghost use Rattle.ps_reading.specs.Faults.{is_role};
ghost use Rattle.ps_reading.specs.Readings.{read_segments};
ghost use Rattle.ps_reading.specs.KnownSegments.{put_by_slot, segments_in_slots, IsRead, AreAlike};

use crate::locations::{RecordAt, SegmentAt};
use crate::reading::request::{Request, Requester, read_unit, unit_named};
use crate::reading::segment::Segment;
use crate::reading::slots::{HostSlots, is_empty};
use crate::reading::unit_slots::UnitSlots;
use arrayvec::ArrayVec;
use ps_codefile::dictionary_layout::{FIRST_ADDED, SLOT_COUNT, SLOTS};
use ps_linkinfo::{LinkInformation, LinkRecord};
use ps_words::{Fault, Name, Reason};

/// How many units may be added: one in each slot from the first on.
pub const MAX_ADDED: usize = (SLOTS - FIRST_ADDED) as usize;

/// How many names are kept: those that may have a slot, and the first that has none.
pub const MAX_REQUESTED: usize = MAX_ADDED + 1;

/// A UNITREF record: the name that it requests, and where it is.
#[derive(Clone, Copy)]
pub struct UnitReference {
    /// The name of a unit.
    pub name: Name,
    /// Where the record is.
    pub at: RecordAt,
}

impl Default for UnitReference {
    fn default() -> Self {
        UnitReference {
            name: [0; 8],
            at: SegmentAt { file: 0, slot: 0 }.record(0),
        }
    }
}

impl UnitReference {
    /// The request for the unit, which takes this slot.
    pub(crate) fn in_slot(&self, slot: u8) -> Request
        ensures { result ≡ request_of self.now slot }
    {
        Request {
            name: self.name,
            slot,
            requester: Requester::Record(self.at),
        }
    }
}

/// What was requested in the rounds that add units to the own segments of a host.
#[derive(Drop)]
pub struct AddedUnits {
    /// The empty slots that a unit may be added in, 7 to 15, ascending.
    pub empty: ArrayVec<u8, MAX_ADDED>,
    /// The names that are requested, each with the record that first gave it, at most
    /// `MAX_REQUESTED`.
    pub queue: ArrayVec<UnitReference, MAX_REQUESTED>,
    /// The empty slot after those that were given, if one is left.
    pub next: Option<u8>,
    /// The fault of the first unit that could not be added, which ends the rounds.
    pub fault: Option<Fault>,
}

/// Appends the slot if it is empty.
fn add_empty(host: &HostSlots, slots: &mut ArrayVec<u8, MAX_ADDED>, slot: u8)
    requires in_range { slot < SLOTS }
    requires room { array_vec_len slots.old < MAX_ADDED }
    ensures { slots.new.items ≡ slots.old.items
        ++ (if is_role is_empty_role host.now.order host.now.file slot then slot ∷ [] else []) }
{
    if is_empty(host, slot) {
        slots.push(slot);
    }
}

/// The empty slots that a unit may be added in, ascending.
pub(crate) fn empty_slots(host: &HostSlots) -> ArrayVec<u8, MAX_ADDED>
    ensures slots { result.items ≡ empty_slots_spec host.now.order host.now.file }
    ensures in_range { All (λ slot. slot < SLOTS) result.items }
    ensures few { length result.items ≤ MAX_ADDED }
{
    let mut slots: ArrayVec<u8, MAX_ADDED> = ArrayVec::new();
    for slot in FIRST_ADDED..SLOTS {
        add_empty(host, &mut slots, slot);
    }
    slots
}

/// The queue has the name.
fn is_in_queue(queue: &ArrayVec<UnitReference, MAX_REQUESTED>, name: Name) -> bool
    ensures { result ≡ list_any (λ requested. bytes_eq requested.name name) queue.now.items }
{
    queue.iter().any(|requested| requested.name == name)
}

/// A unit of the host has the name, or the queue has it.
fn is_already_known(
    units: &UnitSlots,
    queue: &ArrayVec<UnitReference, MAX_REQUESTED>,
    name: Name,
) -> bool
    ensures { result ≡ is_already_known_spec units.now queue.now.items name }
{
    match units.slot_of(name) {
        Some(_) => true,
        None => is_in_queue(queue, name),
    }
}

/// Appends the reference to the queue, unless its name is already known or the queue is full.
#[tactic(auto, using(crate::proofs::RequestQueue::kept_known, crate::proofs::RequestQueue::kept_full))]
fn enqueue(
    units: &UnitSlots,
    queue: &mut ArrayVec<UnitReference, MAX_REQUESTED>,
    reference: UnitReference,
)
    requires { length queue.old.items ≤ MAX_REQUESTED }
    ensures { queue.new.items ≡ take MAX_REQUESTED (requested_from units.now queue.old.items
        (reference ∷ [])) }
{
    if is_already_known(units, queue, reference.name) {
        return;
    }
    if !queue.is_full() {
        queue.push(reference);
    }
}

/// Appends the record that is there to the queue, if it requests a unit whose name is not known
/// yet.
fn enqueue_record(
    units: &UnitSlots,
    queue: &mut ArrayVec<UnitReference, MAX_REQUESTED>,
    place: RecordAt,
    entry: &LinkRecord,
)
    requires { length queue.old.items ≤ MAX_REQUESTED }
    ensures { queue.new.items ≡ take MAX_REQUESTED (requested_from units.now queue.old.items
        (unit_references place.segment.file place.segment.slot place.rec (entry.now ∷ []))) }
{
    if entry.body.kind().requests_unit() {
        let (name, at) = (entry.name, place);
        enqueue(units, queue, UnitReference { name, at });
    }
}

/// Appends the unit names that these records of the segment that is there request to the queue.
fn enqueue_records(
    units: &UnitSlots,
    queue: &mut ArrayVec<UnitReference, MAX_REQUESTED>,
    place: SegmentAt,
    records: &LinkInformation,
)
    requires { length queue.old.items ≤ MAX_REQUESTED }
    ensures { queue.new.items ≡ take MAX_REQUESTED (requested_from units.now queue.old.items
        (unit_references place.file place.slot 0 records.now)) }
{
    if records.units() == 0 {
        return;
    }
    for (rec, record) in records.records() {
        enqueue_record(units, queue, place.record(rec), &record);
    }
}

/// Appends the unit names that the records of a segment request to the queue.
#[tactic(auto, using(std::proofs::lemmas::List::take_all))]
fn enqueue_segment(
    units: &UnitSlots,
    queue: &mut ArrayVec<UnitReference, MAX_REQUESTED>,
    segment: &Segment,
)
    requires { length queue.old.items ≤ MAX_REQUESTED }
    ensures { queue.new.items ≡ take MAX_REQUESTED (requested_from units.now queue.old.items
        (unit_references segment.now.file segment.now.slot 0 segment.now.records)) }
{
    if let Some(records) = segment.records() {
        enqueue_records(units, queue, segment.place(), records);
    }
}

/// The queue of the unit names that the host's own segments request. Records that an earlier segment
/// has too are not read again: their names are known already.
pub(crate) fn requested_by<'a>(
    units: &UnitSlots,
    own: &[Segment<'a>],
) -> ArrayVec<UnitReference, MAX_REQUESTED>
    requires { AreAlike own.now }
    ensures { result.items
        ≡ take MAX_REQUESTED (requested_from units.now [] (all_unit_references own.now)) }
{
    let mut queue: ArrayVec<UnitReference, MAX_REQUESTED> = ArrayVec::new();
    for (index, segment) in own.iter().enumerate() {
        if segment.shares_with(&own[..index]) {
            continue;
        }
        enqueue_segment(units, &mut queue, segment);
    }
    queue
}

/// The fault of a requested name for which no slot is left.
fn no_slot<'a>(host: &HostSlots<'a>, libs: &'a [&'a [u8]], requested: &UnitReference) -> Fault
    ensures { result ≡ unplaced_fault host.now.order (opened host.now.order libs.now)
        requested.now }
{
    let reason = match unit_named(host, requested.name, libs) {
        None => Reason::MissingUnit,
        Some(_) => Reason::NoSlot,
    };
    requested.at.fault(reason)
}

/// The k-th request of the queue, from 0; `None` if the queue is shorter.
pub(crate) fn requested_at(
    queue: &ArrayVec<UnitReference, MAX_REQUESTED>,
    k: usize,
) -> Option<UnitReference>
    ensures { result ≡ slice_get queue.now.items k }
{
    queue.get(k).copied()
}

/// The k-th of the empty slots, from 0; `None` if there are fewer.
pub(crate) fn slot_at(empty: &ArrayVec<u8, MAX_ADDED>, k: usize) -> Option<u8>
    ensures { result ≡ slice_get empty.now.items k }
{
    empty.get(k).copied()
}

/// How many of these segments, which are by slot ascending, are before a segment of this slot.
#[tactic(auto, using(crate::proofs::BySlot::placed_at, crate::proofs::BySlot::placed_last, crate::proofs::SharedRecords::all_taken))]
fn count_before(segments: &[Segment], slot: u8) -> usize
    ensures fits { result ≤ length segments.now }
    ensures place { (s : SegmentOfLink) → s.slot ≡ slot
        → insert segments.now result s ≡ put_by_slot s segments.now }
{
    for (count, segment) in segments.iter().enumerate() {
        if slot < segment.slot {
            return count;
        }
    }
    segments.len()
}

/// Puts the segment into the table, which is by slot ascending.
fn put<'a>(segments: &mut ArrayVec<Segment<'a>, SLOT_COUNT>, segment: Segment<'a>)
    requires { array_vec_len segments.old < SLOT_COUNT }
    ensures segments { segments.new.items ≡ put_by_slot segment.entry segments.old.items }
    ensures len { length segments.new.items ≡ length segments.old.items + 1 }
{
    let count = count_before(segments.as_slice(), segment.slot);
    segments.insert(count, segment);
}

/// Adds segments in these slots, which are the empty ones, to the own segments in the table, each in
/// its place by slot, or answers their first fault, with those before it in the table.
///
/// Each name of the queue gets the next of the slots, and in it the unit of that name of the first
/// library that has one. The names that an added unit requests are appended to the queue.
pub(crate) fn add_units<'a>(
    host: &HostSlots<'a>,
    libs: &'a [&'a [u8]],
    units: &UnitSlots,
    slots: &[u8],
    queue: &mut ArrayVec<UnitReference, MAX_REQUESTED>,
    segments: &mut ArrayVec<Segment<'a>, SLOT_COUNT>,
) -> Result<(), Fault>
    requires own { segments.old.items
        ≡ read_segments host.now.order host.now.file (opened host.now.order libs.now) }
    requires read { All (IsRead host.now.order host.now.file (opened host.now.order libs.now))
        segments.old.items }
    requires empty { slots.now ≡ empty_slots_spec host.now.order host.now.file }
    requires few { length slots.now ≤ MAX_ADDED }
    requires short { length queue.old.items ≤ MAX_REQUESTED }
    requires in_range { All (λ slot. slot < SLOTS) slots.now }
    ensures fault { (whole : List UnitReference) → queue.old.items ≡ take MAX_REQUESTED whole
        → result_err result ≡ (rounds_from host.now.order host.now.file
        (opened host.now.order libs.now) units.now slots.now 0 whole).fault }
    ensures added { (whole : List UnitReference) → queue.old.items ≡ take MAX_REQUESTED whole
        → segments.new.items ≡ segments_in_slots host.now.order host.now.file
        segments.old.items (rounds_from host.now.order host.now.file
        (opened host.now.order libs.now) units.now slots.now 0 whole).added }
    ensures count { (whole : List UnitReference) → queue.old.items ≡ take MAX_REQUESTED whole
        → length segments.new.items ≡ length segments.old.items
        + length (rounds_from host.now.order host.now.file
        (opened host.now.order libs.now) units.now slots.now 0 whole).added }
    ensures more { length segments.old.items ≤ length segments.new.items }
    ensures requested { (whole : List UnitReference) → queue.old.items ≡ take MAX_REQUESTED whole
        → queue.new.items ≡ take MAX_REQUESTED (requested_from units.now whole
        (all_unit_references (rounds_from host.now.order host.now.file
        (opened host.now.order libs.now) units.now slots.now 0 whole).added)) }
    ensures read { All (IsRead host.now.order host.now.file (opened host.now.order libs.now))
        segments.new.items }
{
    for (round, slot) in slots.iter().enumerate() {
        match requested_at(queue, round) {
            None => return Ok(()),
            Some(requested) => {
                let request = requested.in_slot(*slot);
                let segment = read_unit(host, libs, &request, segments.as_slice())?;
                enqueue_segment(units, queue, &segment);
                put(segments, segment);
            }
        }
    }
    match requested_at(queue, slots.len()) {
        None => Ok(()),
        Some(requested) => Err(no_slot(host, libs, &requested)),
    }
}
