ghost use Rattle.std.specs.Prelude.{◌≡◌, ◌<◌, ◌≤◌, [], length, slice_get, None, Some, Ok, Err, IfOk, IfErr, IfSome, All, find};
ghost use Rattle.std.specs.Option.{option_map, option_or};
ghost use Rattle.ps_codefile.specs.Dictionary.{entry_at, role_of, opened_beside};
ghost use Rattle.ps_reading.specs.Sources.{order_of, contents, opened, opened_files};
ghost use Rattle.ps_reading.specs.Added.{empty_slots as empty_slots_spec, segments as all_segments, slot_name as slot_name_spec, slot_names as slot_names_spec};
ghost use Rattle.ps_reading.specs.Faults.{source_fault, slots_fault as slots_fault_spec, no_host_fault as no_host_fault_spec, libraries_fault as libraries_fault_spec};
ghost use Rattle.ps_reading.specs.Readings.{reading_fault, all_read, fault_of_added, host_reading_fault, opened_host, own_reading_fault, read_requests, read_rounds, read_segments, segments_read, named_entry, slot_after, slot_fault, slot_reading, with_libraries};
ghost use Rattle.ps_reading.specs.SlotReadings.{entry_in, is_left as is_left_spec, outcome_in, request_in, source_in};
ghost use Rattle.ps_reading.specs.OfLink.{AreOfLink};
ghost use Rattle.ps_reading.specs.KnownSegments.{IsRead, IsSound, is_in_slot};

pub(crate) mod added;
pub(crate) mod entries;
pub(crate) mod libraries;
pub(crate) mod names;
pub(crate) mod request;
pub(crate) mod segment;
pub(crate) mod slot_faults;
pub(crate) mod slots;
pub(crate) mod sources;
pub(crate) mod unit_slots;
pub(crate) mod units;

use crate::locations::EntryAt;
use crate::reading::added::{
    AddedUnits, UnitReference, add_units, empty_slots, requested_at, requested_by, slot_at,
};
use crate::reading::libraries::libraries_fault;
use crate::reading::names::ReadNames;
use crate::reading::request::{Request, unit_named};
use crate::reading::segment::Segment;
use crate::reading::slots::{HOST_FILE, HostSlots, no_host_fault, slots_fault};
use crate::reading::sources::{first_fault, read_slots};
use crate::reading::unit_slots::UnitSlots;
use crate::slot_reading::{Absent, SlotReading, why_refused};
use arrayvec::ArrayVec;
use ps_codefile::dictionary_layout::{SLOT_COUNT, SLOTS};
use ps_codefile::{Dict, Entry, Role};
use ps_words::{Fault, Name, Order, Reason};
use std::marker::Model;

/// The segment that is in a slot.
pub(crate) fn segment_in<'s, 'a>(segments: &'s [Segment<'a>], slot: u8) -> Option<&'s Segment<'a>>
    ensures { option_map (λ s. s.now) result ≡ find (is_in_slot slot) segments.now }
{
    for segment in segments {
        if segment.slot == slot {
            return Some(segment);
        }
    }
    None
}

/// The name of a slot in the linked file.
fn slot_name(host: &HostSlots, segments: &[Segment], slot: u8) -> Name
    requires { slot < SLOTS }
    ensures { result ≡ slot_name_spec host.now.file segments.now slot }
{
    match segment_in(segments, slot) {
        Some(segment) => segment.name,
        None => host.entry(slot).name,
    }
}

/// The names of all slots, 0 to 15, in the linked file of this host: of each slot that one of these
/// segments is in that segment's name, and of the others the host's own.
#[inline(always)]
pub fn slot_names(host: &HostSlots, segments: &[Segment]) -> [Name; SLOT_COUNT]
    ensures { result ≡ slot_names_spec host.now.file segments.now }
{
    let mut names = [[0; 8]; SLOT_COUNT];
    for slot in 0..SLOTS {
        names[slot as usize] = slot_name(host, segments, slot);
    }
    names
}

/// The first fault of the slots of the host, of its want of a host segment, or of the libraries.
#[inline(always)]
fn files_fault(host: &HostSlots, libs: &[&[u8]]) -> Option<Fault>
    ensures { result ≡ option_or (slots_fault_spec host.now.order host.now.file)
        (option_or (no_host_fault_spec host.now.order host.now.file)
        (libraries_fault_spec host.now.order (contents libs.now))) }
{
    if let Some(fault) = slots_fault(host) {
        return Some(fault);
    }
    if let Some(fault) = no_host_fault(host) {
        return Some(fault);
    }
    libraries_fault(host.order(), libs)
}

/// Reads the own slots of a host and its libraries: fills the table, which has to be empty, with the
/// own segments that have no fault, by slot ascending, and returns the first fault: of the slots, of
/// the want of a host segment, of the libraries, or of the sources of the slots.
pub(crate) fn read_own<'a>(
    host: &HostSlots<'a>,
    libs: &'a [&'a [u8]],
    segments: &mut ArrayVec<Segment<'a>, SLOT_COUNT>,
) -> Option<Fault>
    requires { segments.old.items ≡ [] }
    ensures first { result ≡ own_reading_fault host.now.order host.now.file (contents libs.now) }
    ensures segments { segments.new.items
        ≡ read_segments host.now.order host.now.file (opened host.now.order libs.now) }
    ensures read { All (IsRead host.now.order host.now.file (opened host.now.order libs.now))
        segments.new.items }
{
    let mut first = None;
    read_slots(host, libs, segments, &mut first);
    files_fault(host, libs).or(first)
}

/// Adds the units that records request to the own segments of a host, which `read_own` has read into
/// the table, each in its place by slot, and returns what was requested, with the fault of the first
/// unit that cannot be added. A function by itself, so that the queue takes room of the stack only
/// until it returns.
#[inline(never)]
pub(crate) fn read_added<'a>(
    host: &HostSlots<'a>,
    libs: &'a [&'a [u8]],
    segments: &mut ArrayVec<Segment<'a>, SLOT_COUNT>,
) -> AddedUnits
    requires own { segments.old.items
        ≡ read_segments host.now.order host.now.file (opened host.now.order libs.now) }
    requires read { All (IsRead host.now.order host.now.file (opened host.now.order libs.now))
        segments.old.items }
    ensures all { segments.new.items
        ≡ all_read host.now.order host.now.file (opened host.now.order libs.now) }
    ensures read { All (IsRead host.now.order host.now.file (opened host.now.order libs.now))
        segments.new.items }
    ensures empty { result.empty.items ≡ empty_slots_spec host.now.order host.now.file }
    ensures requested { result.queue.items
        ≡ read_requests host.now.order host.now.file (opened host.now.order libs.now) }
    ensures following { result.next
        ≡ slot_after (read_rounds host.now.order host.now.file (opened host.now.order libs.now))
        (empty_slots_spec host.now.order host.now.file) }
    ensures ends { result.fault
        ≡ (read_rounds host.now.order host.now.file (opened host.now.order libs.now)).fault }
{
    let own = segments.len();
    let empty = empty_slots(host);
    let units = UnitSlots::of(segments.as_slice());
    let mut queue = requested_by(&units, segments.as_slice());
    let rounds = add_units(host, libs, &units, empty.as_slice(), &mut queue, segments);
    let next = slot_at(&empty, segments.len() - own);
    AddedUnits {
        empty,
        queue,
        next,
        fault: rounds.err(),
    }
}

/// Reads the slots of a host and its libraries as far as to the first fault, which it returns, as a
/// link wants them: fills the table, which has to be empty, with segments by slot ascending. Where
/// there is no fault, they are all segments of the link.
#[inline(always)]
pub fn read_to_fault<'a>(
    host: &HostSlots<'a>,
    libs: &'a [&'a [u8]],
    segments: &mut ArrayVec<Segment<'a>, SLOT_COUNT>,
) -> Option<Fault>
    requires { segments.old.items ≡ [] }
    ensures first { result ≡ host_reading_fault host.now.order host.now.file (contents libs.now) }
    ensures all { result ≡ None → segments.new.items
        ≡ all_read host.now.order host.now.file (opened host.now.order libs.now) }
    ensures read { All (IsRead host.now.order host.now.file (opened host.now.order libs.now))
        segments.new.items }
{
    match read_own(host, libs, segments) {
        Some(fault) => Some(fault),
        None => read_added(host, libs, segments).fault,
    }
}

/// What was read of a host that can be opened, and of its libraries: of each slot its segment or
/// its fault, also after the first fault.
///
/// A reading borrows the files and copies none of them.
/// Source: the segment dictionary, UCSD Pascal II.0 manual, code file format; which units are added,
/// and which fault is first, this project's profile.
#[derive(Drop)]
pub struct HostReading<'a> {
    slots: HostSlots<'a>,
    libs: &'a [&'a [u8]],
    /// The segments that have no fault, by slot ascending.
    segments: ArrayVec<Segment<'a>, SLOT_COUNT>,
    /// The fault of the source of each slot, for which it has no segment.
    refused: [Option<Fault>; SLOT_COUNT],
    /// What was requested.
    added: AddedUnits,
    /// The first fault.
    fault: Option<Fault>,
}

impl<'a> Model for HostReading<'a> {
    ghost use Rattle.ps_reading.specs.Sources.{contents};
    ghost use Rattle.ps_reading.specs.Readings.{HostFiles, IsReading, with_libraries};

    ghost Value = { HostFiles };

    ghost view = { λ r. with_libraries r.slots (contents r.libs.now) };

    ghost invariant = { λ r. IsReading r.slots (contents r.libs.now) r.segments.items r.refused r.added r.fault };
}

impl<'a> HostReading<'a> {
    /// Reads the slots of a host that was opened, and its libraries.
    fn of(dict: Dict<'a>, libs: &'a [&'a [u8]]) -> HostReading<'a>
        requires { 512 ≤ length dict.file }
        ensures { result ≡ with_libraries dict.entry (contents libs.now) }
    {
        let slots = HostSlots::of(dict);
        let mut segments = ArrayVec::new();
        let mut refused = [None; SLOT_COUNT];
        read_slots(&slots, libs, &mut segments, &mut refused);
        let own = files_fault(&slots, libs).or(first_fault(&refused));
        let added = read_added(&slots, libs, &mut segments);
        let fault = own.or(added.fault);
        HostReading {
            slots,
            libs,
            segments,
            refused,
            added,
            fault,
        }
    }

    /// The first fault of the host and its libraries, in their order: of the host's slots, of its
    /// want of a host segment, of the libraries, of the sources of its slots, and of the units that
    /// are added.
    pub fn fault(&self) -> Option<Fault>
        ensures { result ≡ host_reading_fault self.now.order self.now.file self.now.libs }
    {
        self.fault
    }

    /// The byte order of the host.
    /// Source: UCSD Pascal II.0 manual, code file format.
    pub fn order(&self) -> Order
        ensures { result ≡ self.now.order }
    {
        self.slots.order()
    }

    /// What the host's dictionary says of a slot, 0 to 15.
    /// Source: UCSD Pascal II.0 manual, code file format.
    pub fn entry(&self, slot: u8) -> Entry
        requires { slot < SLOTS }
        ensures { result ≡ entry_at self.now.order self.now.file slot }
    {
        self.slots.entry(slot)
    }

    /// What a slot of the host, 0 to 15, is for, or why its kind is refused.
    pub fn role(&self, slot: u8) -> Result<Role, Reason>
        requires { slot < SLOTS }
        ensures { result ≡ role_of (entry_at self.now.order self.now.file slot) }
    {
        self.slots.role(slot)
    }

    /// What names are looked up in.
    pub(crate) fn names(&self) -> ReadNames<'_, 'a>
        ensures { result ≡ self.now }
    {
        ReadNames {
            slots: &self.slots,
            libs: self.libs,
            segments: self.segments.as_slice(),
            added: &self.added,
        }
    }

    /// The request for a unit that a slot, 0 to 15, has, if it has one: its own, where it wants a unit,
    /// or that of a name that is requested, which takes the slot if it is empty.
    pub fn request(&self, slot: u8) -> Option<Request>
        requires { slot < SLOTS }
        ensures { result ≡ request_in self.now slot }
    {
        self.names().request(slot)
    }

    /// The fault of the source of a slot.
    fn own_fault(&self, slot: u8) -> Option<Fault>
        requires { slot < SLOTS }
        ensures { result ≡ source_fault self.now.order self.now.file
            (opened_files self.now.order self.now.libs) slot }
    {
        self.refused[slot as usize]
    }

    /// The fault of the unit that would be added in a slot.
    fn added_fault(&self, slot: u8) -> Option<Fault>
        ensures { result ≡ fault_of_added (read_rounds self.now.order self.now.file
            (opened_files self.now.order self.now.libs))
            (empty_slots_spec self.now.order self.now.file) slot }
    {
        match self.added.next {
            Some(next) if next == slot => self.added.fault,
            _ => None,
        }
    }

    /// Why a slot has no segment.
    fn fault_of_slot(&self, slot: u8) -> Option<Fault>
        requires { slot < SLOTS }
        ensures { result ≡ slot_fault self.now.order self.now.file
            (opened_files self.now.order self.now.libs) slot }
    {
        self.own_fault(slot).or(self.added_fault(slot))
    }

    /// What was read of a slot, 0 to 15: its segment, or the first fault of its source or of the
    /// unit that would be added there; `None` where it has none of its own and no unit is added.
    #[tactic(auto, using(crate::proofs::EachSegment::find_has))]
    pub fn segment(&self, slot: u8) -> Option<Result<&Segment<'a>, Fault>>
        requires { slot < SLOTS }
        ensures read { IfSome result (λ r. IfOk r (λ s. slot_reading self.now.order self.now.file
            (opened_files self.now.order self.now.libs) slot ≡ Some (Ok s.now))) }
        ensures refused { IfSome result (λ r. IfErr r (λ f. slot_reading self.now.order
            self.now.file (opened_files self.now.order self.now.libs) slot ≡ Some (Err f))) }
        ensures none { result ≡ None → slot_reading self.now.order self.now.file
            (opened_files self.now.order self.now.libs) slot ≡ None }
        ensures sound { IfSome result (λ r. IfOk r (λ s. IsSound self.now.order s.now)) }
    {
        if let Some(fault) = self.fault_of_slot(slot) {
            return Some(Err(fault));
        }
        match segment_in(self.segments.as_slice(), slot) {
            None => None,
            Some(segment) => Some(Ok(segment)),
        }
    }

    /// The entry that has the unit of a name.
    fn entry_of_unit(&self, name: Name) -> Option<EntryAt>
        ensures { option_map (λ p. (p.file, p.index)) result
            ≡ named_entry self.now.order (opened_files self.now.order self.now.libs) name }
    {
        match unit_named(&self.slots, name, self.libs) {
            None => None,
            Some((_, place)) => Some(place),
        }
    }

    /// The entry that the segment of a slot comes from, also where it is refused: `None` where it
    /// has none, or where no library has the unit that it wants or that is requested.
    fn entry_of(&self, slot: u8) -> Option<EntryAt>
        requires { slot < SLOTS }
        ensures { option_map (λ p. (p.file, p.index)) result ≡ entry_in self.now slot }
    {
        if let Some(request) = self.request(slot) {
            return self.entry_of_unit(request.name);
        }
        match self.role(slot) {
            Ok(Role::Plain | Role::Host | Role::Unit) => Some(EntryAt {
                file: HOST_FILE,
                index: slot,
            }),
            Ok(Role::Empty | Role::Wanted) | Err(_) => None,
        }
    }

    /// A unit is requested for a slot, and there is a fault. If nothing was read of the slot, the unit
    /// was not looked for.
    fn is_left(&self, slot: u8) -> bool
        requires { slot < SLOTS }
        ensures { result ≡ is_left_spec self.now slot }
    {
        let refused = self.fault.is_some();
        refused && self.request(slot).is_some()
    }

    /// A slot, whose segment comes from there and is this, or is not there for this.
    #[inline(always)]
    fn with<'r>(
        &self,
        slot: u8,
        source: Option<EntryAt>,
        segment: Option<Result<&'r Segment<'a>, Absent>>,
    ) -> SlotReading<'r, 'a>
        requires { slot < SLOTS }
        ensures entry { result.entry ≡ entry_at self.now.order self.now.file slot }
        ensures role { result.role ≡ role_of (entry_at self.now.order self.now.file slot) }
        ensures request { result.request ≡ request_in self.now slot }
        ensures source { result.source ≡ source }
        ensures segment { result.segment ≡ segment.entry }
    {
        SlotReading {
            entry: self.entry(slot),
            role: self.role(slot),
            request: self.request(slot),
            source,
            segment,
        }
    }

    /// What was read of a slot, 0 to 15, also after the first fault: what the host's dictionary says
    /// of it, its role, its request, where its segment comes from, and the segment, or why it has
    /// none. It stands in the body of its caller, so that only what is looked at is looked for.
    #[inline(always)]
    pub fn slot(&self, slot: u8) -> SlotReading<'_, 'a>
        requires { slot < SLOTS }
        ensures entry { result.entry ≡ entry_at self.now.order self.now.file slot }
        ensures role { result.role ≡ role_of (entry_at self.now.order self.now.file slot) }
        ensures request { result.request ≡ request_in self.now slot }
        ensures source { option_map (λ p. (p.file, p.index)) result.source
            ≡ source_in self.now slot }
        ensures read { IfSome result.segment (λ r. IfOk r (λ s.
            outcome_in self.now slot ≡ Some (Ok s.now))) }
        ensures absent { IfSome result.segment (λ r. IfErr r (λ why.
            outcome_in self.now slot ≡ Some (Err why))) }
        ensures none { result.segment ≡ None → outcome_in self.now slot ≡ None }
    {
        match self.segment(slot) {
            Some(Ok(segment)) => self.with(slot, Some(segment.entry()), Some(Ok(segment))),
            Some(Err(fault)) => {
                let source = self.entry_of(slot);
                self.with(slot, source, Some(Err(why_refused(source, fault))))
            }
            None if self.is_left(slot) => self.with(slot, None, Some(Err(Absent::NotLookedFor))),
            None => self.with(slot, None, None),
        }
    }

    /// The library of this index, from 0, read beside the host, or why it cannot be opened; `None`
    /// where there are not so many.
    pub fn library(&self, index: usize) -> Option<Result<Dict<'a>, Reason>>
        ensures { result
            ≡ option_map (opened_beside self.now.order) (slice_get self.now.libs index) }
    {
        match self.libs.get(index) {
            None => None,
            Some(lib) => Some(Dict::read_beside(lib, self.slots.order())),
        }
    }

    /// The names that are requested and that no unit of the host has, each with the UNITREF record
    /// that first gave it, in that order; of more than ten the first ten.
    pub fn requested(&self) -> &[UnitReference]
        ensures { result.now
            ≡ read_requests self.now.order self.now.file (opened_files self.now.order self.now.libs) }
    {
        self.added.queue.as_slice()
    }

    /// The first of the requested names for which no empty slot is left, if there is one, with the
    /// record that first gave it.
    pub fn unplaced(&self) -> Option<UnitReference>
        ensures { result ≡ slice_get (read_requests self.now.order self.now.file
            (opened_files self.now.order self.now.libs))
            (length (empty_slots_spec self.now.order self.now.file)) }
    {
        requested_at(&self.added.queue, self.added.empty.len())
    }

    /// The segments that have no fault, by slot ascending.
    pub fn segments(&self) -> &[Segment<'a>]
        ensures all { result.now
            ≡ all_read self.now.order self.now.file (opened_files self.now.order self.now.libs) }
        ensures read { All (IsRead self.now.order self.now.file
            (opened_files self.now.order self.now.libs)) result.now }
        ensures few { length result.now ≤ SLOT_COUNT }
    {
        self.segments.as_slice()
    }

    /// The names of all slots, 0 to 15, in the linked file: of each slot that has one of the segments
    /// that segment's name, and of the others the host's own.
    pub fn slot_names(&self) -> [Name; SLOT_COUNT]
        ensures { result ≡ slot_names_spec self.now.file (all_read self.now.order self.now.file
            (opened_files self.now.order self.now.libs)) }
    {
        slot_names(&self.slots, self.segments.as_slice())
    }
}

/// What was read of the files of a link.
#[derive(Drop)]
pub struct Reading<'a> {
    file: &'a [u8],
    libs: &'a [&'a [u8]],
    host: Result<HostReading<'a>, Reason>,
}

impl<'a> Model for Reading<'a> {
    ghost use Rattle.std.specs.Prelude.{◌≡◌};
    ghost use Rattle.ps_reading.specs.Sources.{contents};
    ghost use Rattle.ps_reading.specs.Readings.{ReadFiles, opened_host};

    ghost Value = { ReadFiles };

    ghost view = { λ r. record { host = r.file.now; libs = contents r.libs.now } };

    ghost invariant = { λ r. r.host ≡ opened_host r.file.now (contents r.libs.now) };
}

/// Reads a host file and the libraries that have the units it wants, in their order. It takes no
/// memory, and refuses nothing: what is wrong with the files is in what it returns.
pub fn read<'a>(host: &'a [u8], libs: &'a [&'a [u8]]) -> Reading<'a>
    ensures { result ≡ record { host = host.now; libs = contents libs.now } }
{
    match Dict::read(host) {
        Err(reason) => Reading {
            file: host,
            libs,
            host: Err(reason),
        },
        Ok(dict) => Reading {
            file: host,
            libs,
            host: Ok(HostReading::of(dict, libs)),
        },
    }
}

impl<'a> Reading<'a> {
    /// The host file, which was read.
    pub fn file(&self) -> &'a [u8]
        ensures { result.now ≡ self.now.host }
    {
        self.file
    }

    /// The libraries, which were read, in their order.
    pub fn libs(&self) -> &'a [&'a [u8]]
        ensures { contents result.now ≡ self.now.libs }
    {
        self.libs
    }

    /// The host as it was read, or why it cannot be opened: `ShortFile`, `NoOrder`, or `NoHost`
    /// where all its kinds are 0.
    pub fn host(&self) -> Result<&HostReading<'a>, Reason>
        ensures opened { IfOk result (λ host. opened_host self.now.host self.now.libs
            ≡ Ok host.now) }
        ensures refused { IfErr result (λ reason. opened_host self.now.host self.now.libs
            ≡ Err reason) }
    {
        match &self.host {
            Err(reason) => Err(*reason),
            Ok(host) => Ok(host),
        }
    }

    /// The first fault of reading the files: of the host, its slots, the want of a host segment,
    /// the libraries, the sources of the slots, and the units that are added.
    #[tactic(auto, using(crate::proofs::ReadingSlots::fault_of_host))]
    pub fn fault(&self) -> Option<Fault>
        ensures { result ≡ reading_fault self.now.host self.now.libs }
    {
        match &self.host {
            Err(reason) => Some(Fault::in_file(HOST_FILE, *reason)),
            Ok(host) => host.fault(),
        }
    }

    /// The segments that have no fault, by slot ascending: those of the link, where reading has no
    /// fault, and none where the host cannot be opened.
    pub fn segments(&self) -> &[Segment<'a>]
        ensures read { result.now ≡ segments_read self.now.host self.now.libs }
        ensures all { reading_fault self.now.host self.now.libs ≡ None → result.now
            ≡ all_segments (order_of self.now.host) self.now.host self.now.libs }
        ensures known { reading_fault self.now.host self.now.libs ≡ None
            → AreOfLink self.now.host self.now.libs result.now }
    {
        match &self.host {
            Err(_) => &[],
            Ok(host) => host.segments(),
        }
    }
}
