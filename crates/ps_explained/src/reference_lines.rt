//! The lines that say how the references of segments lead to operands.
use ps_filetype::ShownName;
use ps_warnings::SegmentReferences;
use std::alloc::{AllocError, Allocator};
use std::fmt::Write as _;

/// A line of each of these segments, in their order: how many of its references lead to operands, and
/// how many of these are the bytes 80 00.
pub fn lines_of_references<A: Allocator>(
    alloc: A,
    segments: &[SegmentReferences<'_>],
) -> Result<String<A>, AllocError> {
    let mut text = String::new(alloc);
    for segment in segments {
        add_line(&mut text, segment)?;
    }
    Ok(text)
}

/// Adds the line of a segment.
fn add_line<A: Allocator>(
    text: &mut String<A>,
    segment: &SegmentReferences<'_>,
) -> Result<(), AllocError> {
    let SegmentReferences {
        references,
        operands,
        zeros,
        ..
    } = *segment;
    let name = ShownName(segment.segment);
    writeln!(
        text,
        "references of {name}: {operands} of {references} lead to operands, {zeros} of them to 80 00"
    )
}
