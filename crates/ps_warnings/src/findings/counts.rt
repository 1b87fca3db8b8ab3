//! What is found in how the references of segments lead to operands.
ghost use Rattle.std.specs.Prelude.{[], OnOk};
ghost use Rattle.ps_warnings.specs.Found.{Adds, about_link};

use super::{Findings, in_segment};
use crate::finding::OperandFinding;
use crate::references::SegmentReferences;
use std::alloc::{AllocError, Allocator};

/// The references of a segment, where its compiler may count their places otherwise.
fn other_count(segment: &SegmentReferences<'_>) -> Option<OperandFinding> {
    let (counting, counted) = segment.otherwise?;
    Some(OperandFinding::OtherCount {
        references: segment.references,
        operands: segment.operands,
        counting,
        counted,
    })
}

/// Adds, after the other findings, each segment of the link whose compiler may count the places of its
/// references otherwise. Returns an error where memory was refused.
#[tactic(auto, using(crate::proofs::Found::adds_none, crate::proofs::Found::none_then))]
pub fn add_other_counts<'a, A: Allocator>(
    findings: &mut Findings<'a, A>,
    references: &[SegmentReferences<'a>],
) -> Result<(), AllocError>
    ensures { OnOk result (Adds (about_link findings.old) [] (about_link findings.new)) }
{
    for segment in references {
        let place = in_segment(segment.path, segment.segment);
        findings.add_unsure(place, other_count(segment))?;
    }
    Ok(())
}
