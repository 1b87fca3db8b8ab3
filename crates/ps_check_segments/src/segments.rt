//! The segments of a link as the files have them, also where they are refused.
ghost use Rattle.std.specs.Prelude.{◌≡◌, ◌<◌, ◌^◌, ◌++◌, ◌∷◌, [], Err, IfOk, Ok, OnOk, Some, filter_map, if◌then◌else◌, map};
ghost use Rattle.std.specs.List.{cons_option, find};
ghost use Rattle.std.specs.Option.{option_map};
ghost use Rattle.ps_codefile.specs.Dictionary.{opened_beside, slots};
ghost use Rattle.ps_linkinfo.specs.Records.{used_by};
ghost use Rattle.ps_resolve.specs.Readings.{opened_host};
ghost use Rattle.ps_resolve.specs.Sources.{contents, file_at};
ghost use Rattle.ps_resolve.specs.SlotReadings.{reading_in};
ghost use Rattle.ps_check_segments.specs.Paths.{host_order};
ghost use Rattle.ps_check_segments.specs.SegmentParts.{absence_words, added_by, is_added as is_added_spec, is_unit as is_unit_spec, part_added as part_added_spec, part_as, part_words, requester_of as requester_of_spec};
ghost use Rattle.ps_check_segments.specs.Seen.{is_host_part, part_needs_linking, seen};
ghost use Rattle.ps_check_segments.specs.SeenSegments.{is_fault, is_for_unit as is_for_unit_spec, is_of_host as is_of_host_spec, is_refused_unit as is_refused_unit_spec, name_by, origin_at, origin_in, origin_of, part_by, part_for, part_of_role, records_at as records_at_spec, role_in, seen_as, seen_by, seen_in, seen_of, seen_read, seen_segment, seen_unit, seen_with, unplaced};

use crate::named_files::NamedFiles;
use ps_codefile::dictionary_layout::SLOTS;
use ps_codefile::{Dict, Role};
use ps_filetype::ShownName;
use ps_linkinfo::LinkInformation;
use ps_resolve::{
    Absent, EntryAt, HostReading, Reading, RecordAt, Request, Requester, Segment, SlotReading,
    UnitReference,
};
use ps_words::{Name, Order, Reason};
use std::alloc::{AllocError, Allocator};
use std::fmt::{self, Formatter};

/// What a segment of a link is. Its text is a phrase, as `the host program`.
#[derive(Clone, Copy)]
pub enum SegmentPart {
    /// Linked already.
    Plain,
    /// The host program.
    Host,
    /// A unit in the host file.
    Unit,
    /// A unit that the host wants from a library.
    Wanted,
    /// A unit that a record requests: that of this index of the segment of this name.
    Added { requester: Name, rec: usize },
}

impl SegmentPart {
    /// The references of the segment are resolved.
    fn needs_linking(self) -> bool
        ensures { result ≡ part_needs_linking self }
    {
        matches!(
            self,
            SegmentPart::Host | SegmentPart::Unit | SegmentPart::Wanted | SegmentPart::Added { .. }
        )
    }

    /// The segment is the host program.
    fn is_host(self) -> bool
        ensures { result ≡ is_host_part self }
    {
        matches!(self, SegmentPart::Host)
    }

    pub fn is_unit(self) -> bool
        ensures { result ≡ is_unit_spec self }
    {
        matches!(
            self,
            SegmentPart::Unit | SegmentPart::Wanted | SegmentPart::Added { .. }
        )
    }

    /// The segment is a unit that a record requests.
    pub fn is_added(self) -> bool
        ensures { result ≡ is_added_spec self }
    {
        matches!(self, SegmentPart::Added { .. })
    }
}

impl fmt::Display for SegmentPart {
    ghost output = { λ part. Some (part_words part) };

    fn fmt<W: fmt::Write>(&self, f: &mut Formatter<W>) -> fmt::Result {
        match *self {
            SegmentPart::Plain => f.write_str("linked already, copied as it is"),
            SegmentPart::Host => f.write_str("the host program"),
            SegmentPart::Unit => f.write_str("a unit in the host file"),
            SegmentPart::Wanted => f.write_str("a unit that the host wants"),
            SegmentPart::Added { requester, rec } => {
                let requester = ShownName(requester);
                write!(f, "a unit that record {rec} of {requester} requests")
            }
        }
    }
}

/// Where a segment of a link comes from.
#[derive(Clone, Copy)]
pub struct Source<'a> {
    /// The file that has the segment, and its entry there.
    pub at: EntryAt,
    /// How many bytes of code the entry has.
    pub length: usize,
    /// The order of the file's words.
    pub order: Order,
    /// The code, or why it cannot be read.
    pub code: Result<&'a [u8], Reason>,
}

/// Why a segment of a link comes from nowhere, in words that follow its name, as `, which no library
/// has`.
pub fn words_of(absent: Absent) -> &'static str
    ensures { result.now ≡ absence_words absent }
{
    match absent {
        Absent::Refused(_) => ", refused",
        Absent::Missing => ", which no library has",
        Absent::Unplaced => ", for which no slot is left",
        Absent::NotLookedFor => ", not looked for after the fault",
    }
}

/// A segment of a link, as it was read.
#[derive(Drop)]
pub struct ReadSegment<'a> {
    /// The slot in the host; none where no empty slot is left for the segment.
    pub slot: Option<u8>,
    pub name: Name,
    pub part: SegmentPart,
    /// Where the segment comes from, also where it is refused, or why from nowhere.
    pub source: Result<Source<'a>, Absent>,
    /// The records of the segment, up to the first that cannot be read; none where they are not to
    /// be read.
    pub records: LinkInformation<'a>,
}

/// How many bytes the records that can be read take.
///
/// Source: the published II.0 Linker source.
#[tactic(auto, using(crate::proofs::Lengths::numbered_use))]
pub fn length_of(records: &LinkInformation<'_>) -> usize
    ensures { used_by records.now < 2 ^ 64 → result ≡ used_by records.now }
{
    let mut length = 0usize;
    for (_, record) in records.records() {
        length = length.saturating_add(record.size());
    }
    length
}

/// A unit that this record requests, where the record is in one of these segments; else one that the
/// host wants.
fn added_part(segments: &[Segment<'_>], at: RecordAt) -> SegmentPart
    ensures { result ≡ added_by segments.now at }
{
    for segment in segments {
        if segment.slot() == at.segment.slot {
            return SegmentPart::Added {
                requester: segment.name(),
                rec: at.rec,
            };
        }
    }
    SegmentPart::Wanted
}

/// The first record that requests a unit of this name.
fn requester_of(requests: &[UnitReference], name: Name) -> Option<UnitReference>
    ensures { result ≡ requester_of_spec requests.now name }
{
    for request in requests {
        if request.name == name {
            return Some(*request);
        }
    }
    None
}

/// What a unit is that is added for this record.
fn part_added(segments: &[Segment<'_>], requester: Option<UnitReference>) -> SegmentPart
    ensures { result ≡ part_added_spec segments.now requester }
{
    match requester {
        None => SegmentPart::Wanted,
        Some(requester) => added_part(segments, requester.at),
    }
}

/// What one of the segments is.
fn part_of(
    segments: &[Segment<'_>],
    requests: &[UnitReference],
    segment: &Segment<'_>,
) -> SegmentPart
    ensures { result ≡ part_as segments.now requests.now segment.now segment.now.role }
{
    match segment.role() {
        Role::Plain => SegmentPart::Plain,
        Role::Host => SegmentPart::Host,
        Role::Unit => SegmentPart::Unit,
        Role::Wanted if segment.added() => {
            part_added(segments, requester_of(requests, segment.name()))
        }
        Role::Empty | Role::Wanted => SegmentPart::Wanted,
    }
}

/// The records of a segment that was read without a fault.
fn records_of<'a>(segment: &Segment<'a>) -> LinkInformation<'a>
    ensures { result ≡ segment.now.records }
{
    match segment.records() {
        None => LinkInformation::none(),
        Some(records) => records.copy(),
    }
}

/// A segment that was read without a fault, and is this.
fn read_as<'a>(host: &HostReading<'a>, segment: &Segment<'a>, part: SegmentPart) -> ReadSegment<'a>
    ensures { seen result ≡ seen_as host.now segment.now part }
{
    let at = EntryAt {
        file: segment.file(),
        index: segment.index(),
    };
    let code = segment.code();
    ReadSegment {
        slot: Some(segment.slot()),
        name: segment.name(),
        part,
        source: Ok(Source {
            at,
            length: code.len(),
            order: host.order(),
            code: Ok(code),
        }),
        records: records_of(segment),
    }
}

/// A segment that was read without a fault.
#[tactic(auto, unfolding(crate::specs::SeenSegments::seen_segment))]
fn read_segment<'a>(host: &HostReading<'a>, segment: &Segment<'a>) -> ReadSegment<'a>
    ensures { seen result ≡ seen_segment host.now segment.now }
{
    let part = part_of(host.segments(), host.requested(), segment);
    read_as(host, segment, part)
}

/// A segment that was read without a fault; none where it was added for a unit of the host that is
/// refused.
#[tactic(auto, unfolding(crate::specs::SeenSegments::seen_read))]
fn segment_read<'a>(host: &HostReading<'a>, segment: &Segment<'a>) -> Option<ReadSegment<'a>>
    ensures { option_map seen result ≡ seen_read host.now segment.now }
{
    let name = segment.name();
    if segment.added() && is_of_host(host, &name) {
        return None;
    }
    Some(read_segment(host, segment))
}

/// A segment that comes from no entry.
#[tactic(auto, using(crate::proofs::Origins::seen_none))]
fn without_entry<'a>(
    slot: Option<u8>,
    name: Name,
    part: SegmentPart,
    why: Absent,
) -> ReadSegment<'a>
    ensures { seen result ≡ seen_with slot name part (Err why) }
{
    ReadSegment {
        slot,
        name,
        part,
        source: Err(why),
        records: LinkInformation::none(),
    }
}

/// The records of an entry that can be read, for a segment that is this.
#[tactic(auto, using(crate::proofs::Origins::ok_is))]
fn records_at<'a>(dict: &Dict<'a>, index: u8, part: SegmentPart) -> LinkInformation<'a>
    requires { index < SLOTS }
    ensures { result ≡ (if part_needs_linking part then records_at_spec index dict.now else []) }
{
    if part.needs_linking() && dict.code(index).is_ok() {
        LinkInformation::up_to_fault(dict.order(), dict.after(index))
    } else {
        LinkInformation::none()
    }
}

/// A segment that comes from an entry of a file.
#[tactic(auto, unfolding(crate::specs::SeenSegments::seen_with))]
fn of_entry<'a>(
    slot: u8,
    name: Name,
    part: SegmentPart,
    dict: &Dict<'a>,
    at: EntryAt,
) -> ReadSegment<'a>
    requires { at.index < SLOTS }
    ensures { seen result ≡ seen_with (Some slot) name part
        (origin_in at.file at.index (Ok dict.now)) }
{
    ReadSegment {
        slot: Some(slot),
        name,
        part,
        source: Ok(Source {
            at,
            length: usize::from(dict.entry(at.index).length),
            order: dict.order(),
            code: dict.code(at.index),
        }),
        records: records_at(dict, at.index, part),
    }
}

/// A segment that comes from an entry of a file, which can be read or not.
fn read_at<'a>(
    inputs: &NamedFiles<'a>,
    slot: u8,
    name: Name,
    part: SegmentPart,
    at: EntryAt,
) -> ReadSegment<'a>
    requires { at.index < SLOTS }
    ensures { seen result ≡ seen_with (Some slot) name part (origin_in at.file at.index
        (opened_beside (host_order inputs.now.host.now)
        (file_at inputs.now.host.now (contents inputs.now.libs.now) at.file))) }
{
    match Dict::read_beside(inputs.bytes(at.file), inputs.order()) {
        Ok(dict) => of_entry(slot, name, part, &dict, at),
        Err(_) => without_entry(Some(slot), name, part, Absent::Missing),
    }
}

/// A segment that comes from an entry of a file, if there is such an entry.
#[tactic(auto, unfolding(crate::specs::SeenSegments::origin_of))]
fn read_from<'a>(
    inputs: &NamedFiles<'a>,
    slot: u8,
    name: Name,
    part: SegmentPart,
    at: EntryAt,
) -> ReadSegment<'a>
    ensures { seen result ≡ seen_with (Some slot) name part (origin_of inputs.now.host.now
        (contents inputs.now.libs.now) (at.file, at.index)) }
{
    if at.index < SLOTS {
        read_at(inputs, slot, name, part, at)
    } else {
        without_entry(Some(slot), name, part, Absent::Missing)
    }
}

/// A slot of the host has or wants a unit.
fn is_for_unit(host: &HostReading<'_>, slot: u8) -> bool
    requires { slot < SLOTS }
    ensures { result ≡ is_for_unit_spec (role_in host.now slot) }
{
    matches!(host.role(slot), Ok(Role::Unit | Role::Wanted))
}

/// The segment of a slot is refused.
fn is_refused(host: &HostReading<'_>, slot: u8) -> bool
    requires { slot < SLOTS }
    ensures { result ≡ is_fault (reading_in host.now slot) }
{
    match host.segment(slot) {
        None => false,
        Some(Ok(_)) => false,
        Some(Err(_)) => true,
    }
}

/// The segment of a slot is a unit of this name, which is refused.
fn is_refused_unit(host: &HostReading<'_>, name: &Name, slot: u8) -> bool
    requires { slot < SLOTS }
    ensures { result ≡ is_refused_unit_spec host.now name.now slot }
{
    is_refused(host, slot) && (is_for_unit(host, slot) && host.entry(slot).name == *name)
}

/// A slot of the host has or wants a unit of the name, which is refused. The reading takes a record's
/// request for it as one for another unit.
#[tactic(auto, unfolding(crate::specs::SeenSegments::is_of_host))]
fn is_of_host(host: &HostReading<'_>, name: &Name) -> bool
    ensures { result ≡ is_of_host_spec host.now name.now }
{
    (0..SLOTS).any(|slot| is_refused_unit(host, name, slot))
}

/// What the unit is that is requested; none where it is one of the host's that is refused.
fn requested_part(host: &HostReading<'_>, request: Request) -> Option<SegmentPart>
    ensures { result ≡ part_by host.now request.name request.requester }
{
    match request.requester {
        Requester::Slot => Some(SegmentPart::Wanted),
        Requester::Record(place) => {
            if is_of_host(host, &request.name) {
                None
            } else {
                Some(added_part(host.segments(), place))
            }
        }
    }
}

/// What the segment of a slot of this role is, that is not requested; none where there is none.
fn own_part(role: Result<Role, Reason>) -> Option<SegmentPart>
    ensures { result ≡ part_of_role role }
{
    match role {
        Ok(Role::Plain) => Some(SegmentPart::Plain),
        Ok(Role::Host) => Some(SegmentPart::Host),
        Ok(Role::Unit) => Some(SegmentPart::Unit),
        Ok(Role::Empty | Role::Wanted) | Err(_) => None,
    }
}

/// What the segment of a slot is that was not read; none where there is none.
fn part_in(host: &HostReading<'_>, read: &SlotReading<'_, '_>) -> Option<SegmentPart>
    ensures { result ≡ part_for host.now read.now.role read.now.request }
{
    match read.request {
        Some(request) => requested_part(host, request),
        None => own_part(read.role),
    }
}

/// The name that a slot of the dictionary has or wants.
fn name_of(read: &SlotReading<'_, '_>) -> Name
    ensures { result ≡ name_by read.now.entry.name read.now.request }
{
    match read.request {
        Some(request) => request.name,
        None => read.entry.name,
    }
}

/// The segment of a slot that was not read, which is this: where it comes from, or why from nowhere.
fn absent_as<'a>(
    inputs: &NamedFiles<'a>,
    slot: u8,
    read: &SlotReading<'_, '_>,
    part: SegmentPart,
    why: Absent,
) -> ReadSegment<'a>
    ensures { seen result ≡ seen_with (Some slot) (name_by read.now.entry.name read.now.request)
        part (origin_at inputs.now.host.now (contents inputs.now.libs.now)
        (option_map (λ p. (p.file, p.index)) read.now.source) why) }
{
    let name = name_of(read);
    match read.source {
        None => without_entry(Some(slot), name, part, why),
        Some(at) => read_from(inputs, slot, name, part, at),
    }
}

/// The segment of a slot that was not read, for this reason; none where a unit was requested there
/// that is one of the host's.
fn absent_segment<'a>(
    inputs: &NamedFiles<'a>,
    host: &HostReading<'a>,
    slot: u8,
    read: &SlotReading<'_, '_>,
    why: Absent,
) -> Option<ReadSegment<'a>>
    ensures { option_map seen result ≡ option_map (λ part. seen_with (Some slot)
        (name_by read.now.entry.name read.now.request) part (origin_at inputs.now.host.now
        (contents inputs.now.libs.now) (option_map (λ p. (p.file, p.index)) read.now.source) why))
        (part_for host.now read.now.role read.now.request) }
{
    match part_in(host, read) {
        None => None,
        Some(part) => Some(absent_as(inputs, slot, read, part, why)),
    }
}

/// The segment of a slot; none where there is none.
#[tactic(auto, unfolding(crate::specs::SeenSegments::seen_in, crate::specs::SeenSegments::seen_absent))]
fn segment_in<'a>(
    inputs: &NamedFiles<'a>,
    host: &HostReading<'a>,
    slot: u8,
) -> Option<ReadSegment<'a>>
    requires { slot < SLOTS }
    ensures { option_map seen result ≡ seen_in inputs.now.host.now
        (contents inputs.now.libs.now) host.now slot }
{
    let read = host.slot(slot);
    match read.segment {
        Some(Ok(segment)) => segment_read(host, segment),
        Some(Err(why)) => absent_segment(inputs, host, slot, &read, why),
        None => None,
    }
}

/// A unit that is requested and for which no slot is left.
fn segment_of<'a>(host: &HostReading<'a>, unit: &UnitReference) -> Option<ReadSegment<'a>>
    ensures { option_map seen result ≡ seen_unit host.now unit.now }
{
    if is_of_host(host, &unit.name) {
        return None;
    }
    let part = added_part(host.segments(), unit.at);
    Some(without_entry(None, unit.name, part, Absent::Unplaced))
}

/// The first unit that is requested and for which no slot is left.
#[tactic(auto, unfolding(crate::specs::SeenSegments::unplaced))]
fn unit_without_slot<'a>(host: &HostReading<'a>) -> Option<ReadSegment<'a>>
    ensures { option_map seen result ≡ unplaced host.now }
{
    match host.unplaced() {
        None => None,
        Some(unit) => segment_of(host, &unit),
    }
}

/// The first segment of the list that has this slot of the host.
pub fn in_slot<'l, 'a>(list: &'l [ReadSegment<'a>], slot: u8) -> Option<&'l ReadSegment<'a>> {
    for segment in list {
        if segment.slot == Some(slot) {
            return Some(segment);
        }
    }
    None
}

/// The segment of the host program.
pub fn host_of<'l, 'a>(list: &'l [ReadSegment<'a>]) -> Option<&'l ReadSegment<'a>>
    ensures { option_map (λ s. seen s.now) result
        ≡ find (λ s. is_host_part s.part) (map seen list.now) }
{
    for segment in list {
        if segment.part.is_host() {
            return Some(segment);
        }
    }
    None
}

/// The segments of a link as they were read, by slot, and the first unit for which no slot is left.
/// None where the host cannot be read.
///
/// Returns an error where memory was refused.
pub fn segments_of<'a, A: Allocator + Copy>(
    alloc: A,
    inputs: &NamedFiles<'a>,
    reading: &Reading<'a>,
) -> Result<Vec<ReadSegment<'a>, A>, AllocError>
    ensures { IfOk result (λ list. map seen list.items ≡ seen_by inputs.now.host.now
        (contents inputs.now.libs.now) (opened_host reading.now.host reading.now.libs)) }
{
    match reading.host() {
        Ok(host) => segments_in(alloc, inputs, host),
        Err(_) => Ok(Vec::new(alloc)),
    }
}

/// The segments of a link whose host was read.
#[tactic(auto, unfolding(crate::specs::SeenSegments::seen_of))]
fn segments_in<'a, A: Allocator + Copy>(
    alloc: A,
    inputs: &NamedFiles<'a>,
    host: &HostReading<'a>,
) -> Result<Vec<ReadSegment<'a>, A>, AllocError>
    ensures { IfOk result (λ list. map seen list.items ≡ seen_of inputs.now.host.now
        (contents inputs.now.libs.now) host.now) }
{
    let mut list = segments_in_slots(alloc, inputs, host)?;
    let unit = unit_without_slot(host);
    add_segment(&mut list, unit)?;
    Ok(list)
}

fn add_segment<'a, A: Allocator>(
    list: &mut Vec<ReadSegment<'a>, A>,
    segment: Option<ReadSegment<'a>>,
) -> Result<(), AllocError>
    ensures { OnOk result (map seen list.new.items
        ≡ map seen list.old.items ++ cons_option (option_map seen segment.entry) []) }
{
    match segment {
        None => Ok(()),
        Some(segment) => push_segment(list, segment),
    }
}

/// Adds a segment.
fn push_segment<'a, A: Allocator>(
    list: &mut Vec<ReadSegment<'a>, A>,
    segment: ReadSegment<'a>,
) -> Result<(), AllocError>
    ensures { OnOk result (list.new.items ≡ list.old.items ++ segment.entry ∷ []) }
{
    Ok(list.push(segment)?)
}

fn segments_in_slots<'a, A: Allocator + Copy>(
    alloc: A,
    inputs: &NamedFiles<'a>,
    host: &HostReading<'a>,
) -> Result<Vec<ReadSegment<'a>, A>, AllocError>
    ensures { IfOk result (λ list. map seen list.items ≡ filter_map (seen_in inputs.now.host.now
        (contents inputs.now.libs.now) host.now) slots) }
{
    let mut list = Vec::new(alloc);
    for slot in 0..SLOTS {
        let segment = segment_in(inputs, host, slot);
        add_segment(&mut list, segment)?;
    }
    Ok(list)
}
