//! The files, and the segments with where each comes from.
ghost use Rattle.std.specs.Prelude.{◌≡◌, ◌∷◌, ◌++◌, ◌<◌, [], IfOk, OnOk, Some, if◌then◌else◌, map, string_bytes};
ghost use Rattle.std.specs.List.{list_any};
ghost use Rattle.ps_resolve.specs.Sources.{contents};
ghost use Rattle.ps_codefile.specs.Dictionary.{opened_alone};
ghost use Rattle.ps_check_segments.specs.Paths.{paths_in};
ghost use Rattle.ps_check_segments.specs.Seen.{has_slot, seen};
ghost use Rattle.ps_explained.specs.FileLines.{AreFileLines};
ghost use Rattle.ps_explained.specs.OverviewText.{is_without as is_without_spec, overview_text, rest_text, segment_texts, slot_list, slots_without, text_after, without_line};
ghost use Rattle.ps_explained.specs.SegmentLines.{from_words, has_unread as has_unread_spec, head_words, line_in_slot, read_line, read_lines, slot_words, why_words};
ghost use Rattle.ps_explained.specs.SlotLines.{AddsSlotLines, slot_lines};

use crate::file_lines::file_lines;
use crate::passed_over::{add_later_of, add_unused};
use ps_check_segments::{NamedFiles, ReadSegment, SegmentPart, words_of};
use ps_codefile::Dict;
use ps_codefile::dictionary_layout::SLOTS;
use ps_filetype::{ShownName, ShownPath, ShownSlot};
use ps_resolve::Absent;
use ps_words::Name;
use std::alloc::{AllocError, Allocator};
use std::fmt::{self, Formatter, Write as _};

/// A slot in two digits, or that there is none.
#[derive(Clone, Copy)]
struct SlotOf(Option<u8>);

impl fmt::Display for SlotOf {
    ghost output = { λ slot. Some (slot_words slot.0) };

    fn fmt<W: fmt::Write>(&self, f: &mut Formatter<W>) -> fmt::Result {
        match self.0 {
            Some(slot) => {
                let slot = ShownSlot(slot);
                write!(f, "slot {slot}")
            }
            None => f.write_str("no slot"),
        }
    }
}

/// What a segment is: its slot, its name and its part.
#[derive(Clone, Copy)]
struct Head {
    slot: Option<u8>,
    name: Name,
    part: SegmentPart,
}

impl fmt::Display for Head {
    ghost output = { λ head. Some (head_words head.slot head.name head.part) };

    fn fmt<W: fmt::Write>(&self, f: &mut Formatter<W>) -> fmt::Result {
        let slot = SlotOf(self.slot);
        let name = ShownName(self.name);
        let part = self.part;
        write!(f, "{slot} {name}: {part}")
    }
}

/// Where the code of a segment comes from: the entry of a file, and how many bytes it has.
#[derive(Clone, Copy)]
struct Origin<'p> {
    path: &'p str,
    index: u8,
    size: usize,
}

impl fmt::Display for Origin<'_> {
    ghost output = { λ origin. Some (from_words origin.path.now origin.index origin.size) };

    fn fmt<W: fmt::Write>(&self, f: &mut Formatter<W>) -> fmt::Result {
        let path = ShownPath(self.path);
        let index = ShownSlot(self.index);
        let size = self.size;
        write!(f, ", from {path} entry {index}, {size} bytes")
    }
}

/// What a report says of files and of segments, in lines.
#[derive(Drop)]
pub struct Overview<A: Allocator> {
    /// A line of each file.
    pub files: String<A>,
    /// The segments with where each comes from, and what is not used.
    pub segments: String<A>,
}

/// The files, and the segments with where each comes from, in lines for a person: a line of each
/// file, with its length and its byte order; of each segment one that begins with `slot ` and its
/// slot, or with `no slot`, and, where later libraries have a unit of its name too, one that names
/// the first of them; the slots without a segment; and the first library from which nothing is taken.
///
/// `list` has the segments of a link of the files of `inputs`, as `ps_check_segments::segments_of` gives
/// them, or those of them that are to be told. The lines that begin with `slot ` are those of the segments
/// of the list. Returns an error where memory was refused.
#[tactic(auto, unfolding(crate::specs::OverviewText::overview_text))]
pub fn overview_of<A: Allocator + Copy>(
    alloc: A,
    inputs: &NamedFiles<'_>,
    list: &[ReadSegment<'_>],
) -> Result<Overview<A>, AllocError>
    ensures files { IfOk result (λ made. AreFileLines
        (inputs.now.host_path.now ∷ contents inputs.now.paths.now) 0
        (inputs.now.host.now ∷ contents inputs.now.libs.now) (string_bytes made.files)) }
    ensures silent { IfOk result (λ made. AddsSlotLines [] [] (string_bytes made.files)) }
    ensures read { IfOk result (λ made. slot_lines (string_bytes made.segments) ≡ read_lines
        (inputs.now.host_path.now ∷ contents inputs.now.paths.now)
        (has_unread_spec inputs.now.host.now (contents inputs.now.libs.now)) (map seen list.now)) }
    ensures segments { IfOk result (λ made. string_bytes made.segments ≡ overview_text
        (inputs.now.host_path.now ∷ contents inputs.now.paths.now) inputs.now.host.now
        (contents inputs.now.libs.now) (map seen list.now)) }
{
    let files = file_lines(alloc, inputs)?;
    let mut segments = String::new(alloc);
    add_each(&mut segments, inputs, list, has_unread(inputs))?;
    add_rest_of(&mut segments, inputs, list)?;
    Ok(Overview { files, segments })
}

/// Adds the line of each segment as it was read, also where it is refused, and that of the later
/// libraries that have its name too.
fn add_each<A: Allocator>(
    text: &mut String<A>,
    inputs: &NamedFiles<'_>,
    list: &[ReadSegment<'_>],
    unread: bool,
) -> Result<(), AllocError>
    ensures lines { OnOk result (AddsSlotLines (string_bytes text.old)
        (read_lines (inputs.now.host_path.now ∷ contents inputs.now.paths.now) unread
        (map seen list.now)) (string_bytes text.new)) }
    ensures text { OnOk result (string_bytes text.new ≡ string_bytes text.old
        ++ segment_texts (paths_in inputs.now) inputs.now.host.now (contents inputs.now.libs.now)
        unread (map seen list.now)) }
{
    for segment in list {
        add_segment(text, inputs, segment, unread)?;
        add_later_of(text, inputs, segment)?;
    }
    Ok(())
}

/// Adds the line of a segment as it was read.
fn add_segment<A: Allocator>(
    text: &mut String<A>,
    inputs: &NamedFiles<'_>,
    segment: &ReadSegment<'_>,
    unread: bool,
) -> Result<(), AllocError>
    ensures lines { OnOk result (AddsSlotLines (string_bytes text.old) (line_in_slot segment.now.slot
        (read_line (inputs.now.host_path.now ∷ contents inputs.now.paths.now) unread
        (seen segment.now))) (string_bytes text.new)) }
    ensures text { OnOk result (string_bytes text.new ≡ string_bytes text.old
        ++ (read_line (paths_in inputs.now) unread (seen segment.now) ++ 10 ∷ [])) }
{
    let head = Head {
        slot: segment.slot,
        name: segment.name,
        part: segment.part,
    };
    match segment.source {
        Ok(source) => {
            let path = inputs.path(source.at.file);
            add_line(text, head, path, source.at.index, source.length)
        }
        Err(absent) => add_absent(text, head, unread, absent),
    }
}

/// Adds the line of a segment that comes from an entry of a file.
fn add_line<A: Allocator>(
    text: &mut String<A>,
    head: Head,
    path: &str,
    index: u8,
    size: usize,
) -> Result<(), AllocError>
    ensures lines { OnOk result (AddsSlotLines (string_bytes text.old) (line_in_slot head.slot
        (head_words head.slot head.name head.part ++ from_words path.now index size))
        (string_bytes text.new)) }
    ensures text { OnOk result (string_bytes text.new ≡ string_bytes text.old
        ++ ((head_words head.slot head.name head.part ++ from_words path.now index size)
        ++ 10 ∷ [])) }
{
    push_line(text, head, Origin { path, index, size })
}

/// Adds what a segment is and where it comes from, in a line.
fn push_line<A: Allocator>(
    text: &mut String<A>,
    head: Head,
    origin: Origin<'_>,
) -> Result<(), AllocError>
    ensures { OnOk result (string_bytes text.new ≡ string_bytes text.old
        ++ (head_words head.slot head.name head.part
        ++ (from_words origin.entry.path.now origin.entry.index origin.entry.size
        ++ 10 ∷ []))) }
{
    writeln!(text, "{head}{origin}")
}

/// Adds the line of a segment that comes from no file.
fn add_absent<A: Allocator>(
    text: &mut String<A>,
    head: Head,
    unread: bool,
    absent: Absent,
) -> Result<(), AllocError>
    ensures lines { OnOk result (AddsSlotLines (string_bytes text.old) (line_in_slot head.slot
        (head_words head.slot head.name head.part ++ why_words unread absent))
        (string_bytes text.new)) }
    ensures text { OnOk result (string_bytes text.new ≡ string_bytes text.old
        ++ ((head_words head.slot head.name head.part ++ why_words unread absent) ++ 10 ∷ [])) }
{
    push_absent(text, head, unread, absent)
}

/// Adds what a segment is and why it comes from no file, in a line.
fn push_absent<A: Allocator>(
    text: &mut String<A>,
    head: Head,
    unread: bool,
    absent: Absent,
) -> Result<(), AllocError>
    ensures { OnOk result (string_bytes text.new ≡ string_bytes text.old
        ++ (head_words head.slot head.name head.part
        ++ (why_words unread absent ++ 10 ∷ []))) }
{
    let why = why_of(unread, absent);
    writeln!(text, "{head}{why}")
}

/// Why a segment comes from nowhere, in words that follow its name: where some library is `unread`, it
/// may have the unit.
fn why_of(unread: bool, absent: Absent) -> &'static str
    ensures { result.now ≡ why_words unread absent }
{
    match absent {
        Absent::Missing if unread => ", which no library that can be read has",
        _ => words_of(absent),
    }
}

/// Some library cannot be read beside the host.
fn has_unread(inputs: &NamedFiles<'_>) -> bool
    ensures { result ≡ has_unread_spec inputs.now.host.now (contents inputs.now.libs.now) }
{
    let order = inputs.order();
    for lib in inputs.libs {
        if Dict::read_beside(lib, order).is_err() {
            return true;
        }
    }
    false
}

/// Adds what follows the lines of the segments, where the host can be opened.
fn add_rest_of<A: Allocator>(
    text: &mut String<A>,
    inputs: &NamedFiles<'_>,
    list: &[ReadSegment<'_>],
) -> Result<(), AllocError>
    ensures lines { OnOk result (AddsSlotLines (string_bytes text.old) [] (string_bytes text.new)) }
    ensures text { OnOk result (string_bytes text.new ≡ string_bytes text.old
        ++ text_after (paths_in inputs.now) (contents inputs.now.libs.now) (map seen list.now)
        (opened_alone inputs.now.host.now)) }
{
    match Dict::read(inputs.host) {
        Ok(host) => add_rest(text, inputs, &host, list),
        Err(_) => Ok(()),
    }
}

/// Adds the lines after those of the segments, where there is one: the slots that have none, and the
/// libraries from which nothing is taken.
fn add_rest<A: Allocator>(
    text: &mut String<A>,
    inputs: &NamedFiles<'_>,
    host: &Dict<'_>,
    list: &[ReadSegment<'_>],
) -> Result<(), AllocError>
    ensures lines { OnOk result (AddsSlotLines (string_bytes text.old) [] (string_bytes text.new)) }
    ensures text { OnOk result (string_bytes text.new ≡ string_bytes text.old
        ++ rest_text (paths_in inputs.now) (contents inputs.now.libs.now) (map seen list.now)
        host.now) }
{
    if list.is_empty() {
        return Ok(());
    }
    add_empty(text, host, list)?;
    add_unused(text, inputs, list)
}

/// Adds the slots that have no segment.
fn add_empty<A: Allocator>(
    text: &mut String<A>,
    host: &Dict<'_>,
    list: &[ReadSegment<'_>],
) -> Result<(), AllocError>
    ensures lines { OnOk result (AddsSlotLines (string_bytes text.old) [] (string_bytes text.new)) }
    ensures text { OnOk result (string_bytes text.new ≡ string_bytes text.old
        ++ without_line (slots_without host.now (map seen list.now))) }
{
    push_empty(text, host, list)
}

/// Adds the slots that have no segment, in a line.
fn push_empty<A: Allocator>(
    text: &mut String<A>,
    host: &Dict<'_>,
    list: &[ReadSegment<'_>],
) -> Result<(), AllocError>
    ensures { OnOk result (string_bytes text.new ≡ string_bytes text.old
        ++ without_line (slots_without host.now (map seen list.now))) }
{
    text.push_str("slots without a segment:")?;
    add_slots(text, host, list)?;
    text.push_str("\n")?;
    Ok(())
}

/// Adds the number of each slot that has no segment.
fn add_slots<A: Allocator>(
    text: &mut String<A>,
    host: &Dict<'_>,
    list: &[ReadSegment<'_>],
) -> Result<(), AllocError>
    ensures { OnOk result (string_bytes text.new ≡ string_bytes text.old
        ++ slot_list (slots_without host.now (map seen list.now))) }
{
    for slot in 0..SLOTS {
        add_slot(text, slot, is_without(host, list, slot))?;
    }
    Ok(())
}

/// Adds the number of a slot, where it has no segment.
fn add_slot<A: Allocator>(
    text: &mut String<A>,
    slot: u8,
    is_without: bool,
) -> Result<(), AllocError>
    ensures { OnOk result (string_bytes text.new ≡ string_bytes text.old
        ++ slot_list (if is_without then slot ∷ [] else [])) }
{
    if is_without {
        push_slot(text, ShownSlot(slot))
    } else {
        Ok(())
    }
}

/// Adds the number of a slot after a blank.
fn push_slot<A: Allocator>(text: &mut String<A>, slot: ShownSlot) -> Result<(), AllocError>
    ensures { OnOk result (string_bytes text.new ≡ string_bytes text.old
        ++ slot_list (slot.0 ∷ [])) }
{
    write!(text, " {slot}")
}

/// A slot of the host has no segment: one whose kind is refused has one, though it is not read.
fn is_without(host: &Dict<'_>, list: &[ReadSegment<'_>], slot: u8) -> bool
    requires { slot < SLOTS }
    ensures { result ≡ is_without_spec host.now (map seen list.now) slot }
{
    host.role(slot).is_ok() && !has_segment(list, slot)
}

/// Some segment of the list has the slot.
fn has_segment(list: &[ReadSegment<'_>], slot: u8) -> bool
    ensures { result ≡ list_any (has_slot slot) (map seen list.now) }
{
    for segment in list {
        if is_in_slot(segment, slot) {
            return true;
        }
    }
    false
}

/// The segment has the slot.
fn is_in_slot(segment: &ReadSegment<'_>, slot: u8) -> bool
    ensures { result ≡ has_slot slot (seen segment.now) }
{
    match segment.slot {
        Some(own) => own == slot,
        None => false,
    }
}
