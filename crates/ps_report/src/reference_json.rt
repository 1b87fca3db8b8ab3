//! How the references of segments lead to operands, in the document of a check.
ghost use Rattle.ps_writing.specs.Adding.{Adds};
ghost use Rattle.ps_report.specs.ReportJson.{references_json, segment_item_json, segment_items_json, segment_json};

use ps_warnings::SegmentReferences;
use ps_writing::{TextWriter, add_each_row, add_json_text, add_name_or_null, add_number, comma};

/// Adds the item of a segment: where it is, how many references it has, how many of them lead to
/// operands, and how many of these are the bytes 80 00.
fn add_segment<S: TextWriter>(text: &mut S, segment: &SegmentReferences<'_>)
    ensures { Adds S.added text.old (segment_json segment.now) text.new }
{
    text.add(b"\n{\"path\":\"");
    add_json_text(text, segment.path);
    text.add(b"\",\"segment\":");
    add_name_or_null(text, Some(segment.segment));
    add_number(text, b",\"references\":", segment.references);
    add_number(text, b",\"operands\":", segment.operands);
    add_number(text, b",\"zeros\":", segment.zeros);
    text.add(b"}");
}

/// Adds the item of this index, and what is before it.
fn add_item<S: TextWriter>(text: &mut S, index: usize, segment: &SegmentReferences<'_>)
    ensures { Adds S.added text.old (segment_item_json (index, segment.now)) text.new }
{
    text.add(comma(index == 0));
    add_segment(text, segment);
}

/// Adds the items of segments.
fn add_items<S: TextWriter>(text: &mut S, segments: &[SegmentReferences<'_>])
    ensures { Adds S.added text.old (segment_items_json segments.now) text.new }
{
    add_each_row(text, segments, |text, index, segment| {
        add_item(text, index, segment)
    });
}

/// Adds the list of segments whose references were counted.
pub(crate) fn add_references<S: TextWriter>(text: &mut S, segments: &[SegmentReferences<'_>])
    ensures { Adds S.added text.old (references_json segments.now) text.new }
{
    text.add(b",\"references\":[");
    add_items(text, segments);
    text.add(b"\n]");
}
