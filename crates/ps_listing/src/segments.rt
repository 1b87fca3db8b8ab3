//! The segments of a file, as values and as text.
ghost use Rattle.std.specs.Prelude.{◌≡◌, ◌<◌, IfOk, Ok};
ghost use Rattle.std.specs.List.{filter_map, list_any};
ghost use Rattle.ps_codefile.specs.Dictionary.{entry_at, role_of, slots};
ghost use Rattle.ps_writing.specs.Adding.{Adds};
ghost use Rattle.ps_writing.specs.JsonText.{line_end};
ghost use Rattle.ps_writing.specs.Rows.{by_form};
ghost use Rattle.ps_listing.specs.Listed.{found_segment as found_segment_spec, is_refused_segment, segment_as, segment_at as segment_at_spec, segment_with as segment_with_spec, segments_found as segments_found_spec};
ghost use Rattle.ps_listing.specs.ListText.{question_marked_path, segment_in, segments_in as segments_in_spec};

use crate::by_itself::read_by_itself;
use crate::escapes::add_path;
use crate::parts::{add_found, add_kind, add_length};
use ps_codefile::dictionary_layout::SLOTS;
use ps_codefile::{Dict, Entry, Role};
use ps_linkinfo::LinkInformation;
use ps_words::{Fault, Name, Reason};
use ps_writing::RowPart::InSlot;
use ps_writing::{Form, TextWriter, add_each_row, add_part, end_row, separator};
use std::alloc::{AllocError, Allocator};

/// A segment, as its file has it.
#[derive(Drop)]
pub(crate) struct ListedSegment<'a> {
    slot: u8,
    name: Name,
    kind: u16,
    /// What the segment is; `None` where its kind is refused.
    role: Option<Role>,
    /// The length of its code; `None` where the file has none.
    length: Option<usize>,
    /// The records of the segment, or its first fault by itself.
    found: Result<LinkInformation<'a>, Fault>,
}

/// The segment of this entry.
fn segment_with<'a>(
    slot: u8,
    entry: Entry,
    role: Option<Role>,
    length: Option<usize>,
    found: Result<LinkInformation<'a>, Fault>,
) -> ListedSegment<'a>
    ensures { result ≡ segment_with_spec slot entry role length found.entry }
{
    let name = entry.name;
    ListedSegment {
        slot,
        name,
        kind: entry.kind,
        role,
        length,
        found,
    }
}

/// The segment in a slot of this role, whose code the file has.
fn found_segment<'a>(dict: &Dict<'a>, slot: u8, role: Role) -> ListedSegment<'a>
    requires in_range { slot < SLOTS }
    requires role { role_of (entry_at dict.now.order dict.now.file slot) ≡ Ok role }
    ensures { result ≡ found_segment_spec dict.now.order dict.now.file slot role }
{
    let entry = dict.entry(slot);
    let found = read_by_itself(dict, slot, role);
    segment_with(slot, entry, Some(role), Some(entry.length as usize), found)
}

/// The segment in a slot of this role.
fn segment_of<'a>(
    dict: &Dict<'a>,
    slot: u8,
    role: Result<Role, Reason>,
) -> Option<ListedSegment<'a>>
    requires in_range { slot < SLOTS }
    requires role { role_of (entry_at dict.now.order dict.now.file slot) ≡ role }
    ensures { result ≡ segment_as dict.now.order dict.now.file slot role }
{
    let entry = dict.entry(slot);
    match role {
        Ok(Role::Empty) => None,
        Ok(Role::Wanted) => {
            let none = Ok(LinkInformation::none());
            Some(segment_with(slot, entry, Some(Role::Wanted), None, none))
        }
        Ok(Role::Plain) => Some(found_segment(dict, slot, Role::Plain)),
        Ok(Role::Host) => Some(found_segment(dict, slot, Role::Host)),
        Ok(Role::Unit) => Some(found_segment(dict, slot, Role::Unit)),
        Err(reason) => {
            let fault = Err(Fault::in_slot(0, slot, reason));
            let length = Some(entry.length as usize);
            Some(segment_with(slot, entry, None, length, fault))
        }
    }
}

/// The segment in a slot, where it has one.
#[tactic(auto, unfolding(crate::specs::Listed::segment_at))]
fn segment_at<'a>(dict: &Dict<'a>, slot: u8) -> Option<ListedSegment<'a>>
    requires { slot < SLOTS }
    ensures { result ≡ segment_at_spec dict.now.order dict.now.file slot }
{
    segment_of(dict, slot, dict.role(slot))
}

/// Adds what is before a segment.
fn begin_segment<S: TextWriter>(text: &mut S, form: Form, path: &str, first: bool)
    ensures { Adds S.added text.old (by_form form (question_marked_path path.now) (line_end first))
        text.new }
{
    match form {
        Form::Lines => add_path(text, path),
        Form::Json => text.add(separator(first)),
    }
}

/// Adds a segment, the first of its file or not.
fn add_segment<S: TextWriter>(
    text: &mut S,
    form: Form,
    path: &str,
    first: bool,
    segment: &ListedSegment,
)
    ensures { Adds S.added text.old (segment_in form path.now first segment.now) text.new }
{
    begin_segment(text, form, path, first);
    add_part(text, form, InSlot(b": slot ", segment.slot, segment.name));
    add_kind(text, form, segment.kind, segment.role);
    add_length(text, form, b", ", segment.length);
    add_found(text, form, segment.name, &segment.found);
    end_row(text, form);
}

/// The segments of a file, by slot.
fn segments_in<'a, A: Allocator>(
    alloc: A,
    dict: &Dict<'a>,
) -> Result<Vec<ListedSegment<'a>, A>, AllocError>
    ensures { IfOk result (λ list. list.items
        ≡ filter_map (segment_at_spec dict.now.order dict.now.file) slots) }
{
    let mut list = Vec::new(alloc);
    for slot in 0..SLOTS {
        if let Some(segment) = segment_at(dict, slot) {
            list.push(segment)?;
        }
    }
    Ok(list)
}

/// The segments of a file that was opened, by slot; none of another, and none where the phrase says
/// that the file is something else.
pub(crate) fn segments_found<'a, A: Allocator>(
    alloc: A,
    phrase: &str,
    opened: &Result<Dict<'a>, Reason>,
) -> Result<Vec<ListedSegment<'a>, A>, AllocError>
    ensures { IfOk result (λ list. list.items ≡ segments_found_spec phrase.now opened.now) }
{
    match opened {
        Ok(dict) => {
            if phrase.is_empty() {
                segments_in(alloc, dict)
            } else {
                Ok(Vec::new(alloc))
            }
        }
        Err(_) => Ok(Vec::new(alloc)),
    }
}

/// Adds the segments of a file.
pub(crate) fn add_segments<S: TextWriter>(
    text: &mut S,
    form: Form,
    path: &str,
    segments: &[ListedSegment],
)
    ensures { Adds S.added text.old (segments_in_spec form path.now segments.now) text.new }
{
    add_each_row(text, segments, |text, index, segment| {
        add_segment(text, form, path, index == 0, segment);
    });
}

/// Some segment is refused.
pub(crate) fn has_refused(segments: &[ListedSegment]) -> bool
    ensures { result ≡ list_any is_refused_segment segments.now }
{
    segments.iter().any(|segment| segment.found.is_err())
}
