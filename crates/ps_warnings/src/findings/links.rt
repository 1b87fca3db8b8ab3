//! What is found in the link as a whole.
ghost use Rattle.std.specs.Prelude.{◌≡◌, ◌<◌, ◌≤◌, OnOk, length, map, take, unwrap_or};
ghost use Rattle.ps_codefile.specs.Dictionary.{entry_at};
ghost use Rattle.ps_warnings.specs.Searches.AllFindings.{findings_of_unit, findings_of_units, findings_of_link};
ghost use Rattle.ps_warnings.specs.Found.{Adds, about_link};
ghost use Rattle.ps_check_segments.specs.Paths.{paths_in};
ghost use Rattle.ps_warnings.specs.Searches.LinkFindings.{is_near_unit as is_near_unit_spec, other_spelling as other_spelling_spec, taken_by as taken_by_spec, taken_slot as taken_slot_spec};
ghost use Rattle.ps_check_segments.specs.Seen.{seen};

use super::entries::names_segment;
use super::{Context, Findings, in_segment};
use crate::finding::{Finding, LinkFinding};
use ps_check_segments::{ReadSegment, SegmentPart};
use ps_codefile::Dict;
use ps_codefile::dictionary_layout::SLOTS;
use ps_filetype::is_respelled;
use ps_words::Name;
use std::alloc::{AllocError, Allocator};

/// Looks at the units of the link. Where the host cannot be read there are none.
#[tactic(auto, unfolding(crate::specs::Searches::AllFindings::findings_of_link))]
pub(super) fn look_at<'a, A: Allocator>(
    findings: &mut Findings<'a, A>,
    context: &Context<'_, 'a>,
) -> Result<(), AllocError>
    ensures { OnOk result (Adds (about_link findings.old)
        (findings_of_link (paths_in context.now.inputs.now)
        context.now.inputs.now.host.now (map seen context.now.list.now))
        (about_link findings.new)) }
{
    match Dict::read(context.inputs.host) {
        Ok(host) => look_at_units(findings, context, &host),
        Err(_) => Ok(()),
    }
}

/// Looks at each of the segments.
fn look_at_units<'a, A: Allocator>(
    findings: &mut Findings<'a, A>,
    context: &Context<'_, 'a>,
    host: &Dict<'a>,
) -> Result<(), AllocError>
    ensures { OnOk result (Adds (about_link findings.old)
        (findings_of_units (paths_in context.now.inputs.now)
        host.now.order host.now.file (map seen context.now.list.now))
        (about_link findings.new)) }
{
    for (index, segment) in context.list.iter().enumerate() {
        look_at_unit(findings, context, host, index, segment)?;
    }
    Ok(())
}

/// Looks at a segment, before which there are so many.
fn look_at_unit<'a, A: Allocator>(
    findings: &mut Findings<'a, A>,
    context: &Context<'_, 'a>,
    host: &Dict<'a>,
    index: usize,
    segment: &ReadSegment<'a>,
) -> Result<(), AllocError>
    requires { index ≤ length context.now.list.now }
    ensures { OnOk result (Adds (about_link findings.old)
        (findings_of_unit (paths_in context.now.inputs.now)
        host.now.order host.now.file (map seen context.now.list.now) (index, seen segment.now))
        (about_link findings.new)) }
{
    let file = file_of(segment);
    let path = context.inputs.path(file);
    let place = in_segment(path, segment.name);
    let taken = taken_by(host, segment.slot, segment.part);
    findings.add(place, taken)?;
    let earlier = before(context.list, index);
    let other = other_spelling(earlier, segment);
    findings.add(place, other)
}

/// The segments before the one of this index.
fn before<'s, 'a>(list: &'s [ReadSegment<'a>], index: usize) -> &'s [ReadSegment<'a>]
    requires { index ≤ length list.now }
    ensures { result.now ≡ take index list.now }
{
    &list[..index]
}

/// The file of a segment: the host's, where it comes from none.
fn file_of(segment: &ReadSegment<'_>) -> usize
    ensures { result ≡ unwrap_or (seen segment.now).file 0 }
{
    match segment.source {
        Ok(source) => source.at.file,
        Err(_) => 0,
    }
}

/// The slot of an added unit, whose entry in the host names a segment.
fn taken_slot(host: &Dict<'_>, slot: u8, part: SegmentPart) -> Option<Finding>
    requires { slot < SLOTS }
    ensures { result ≡ taken_slot_spec slot part (entry_at host.now.order host.now.file slot) }
{
    let entry = host.entry(slot);
    if part.is_added() && names_segment(&entry) {
        let name = entry.name;
        Some(Finding::Link(LinkFinding::TakenSlot { slot, name }))
    } else {
        None
    }
}

/// The slot that a unit takes from such an entry; one without a slot takes none.
fn taken_by(host: &Dict<'_>, slot: Option<u8>, part: SegmentPart) -> Option<Finding>
    ensures { result ≡ taken_by_spec host.now.order host.now.file slot part }
{
    match slot {
        Some(slot) if slot < SLOTS => taken_slot(host, slot, part),
        Some(_) | None => None,
    }
}

/// The segment is a unit of another name that differs in capitals or padding alone.
fn is_near_unit(segment: &ReadSegment<'_>, name: &Name) -> bool
    ensures { result ≡ is_near_unit_spec name.now (seen segment.now) }
{
    segment.part.is_unit() && is_respelled(&segment.name, name)
}

/// An earlier unit whose name differs in capitals or padding alone.
fn other_spelling(earlier: &[ReadSegment<'_>], segment: &ReadSegment<'_>) -> Option<Finding>
    ensures { result ≡ other_spelling_spec (map seen earlier.now) (seen segment.now) }
{
    if !segment.part.is_unit() {
        return None;
    }
    for other in earlier {
        if is_near_unit(other, &segment.name) {
            let name = other.name;
            return Some(Finding::Link(LinkFinding::OtherSpelling { name }));
        }
    }
    None
}
