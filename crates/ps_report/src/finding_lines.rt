//! The lines of findings.
ghost use Rattle.std.specs.Prelude.{◌≡◌, map};
ghost use Rattle.ps_writing.specs.Adding.{Adds};
ghost use Rattle.ps_report.specs.Reported.{said};
ghost use Rattle.ps_report.specs.FindingLines.{finding_line, finding_lines, finding_words, first_line as first_line_spec};

use crate::finding::SaidFinding;
use ps_writing::{TextWriter, add_each};
use std::alloc::Allocator;

/// A text up to its first line end.
pub(crate) fn first_line(text: &str) -> &str
    ensures { result.now ≡ first_line_spec text.now }
{
    match text.split_once('\n') {
        Some((line, _rest)) => line,
        None => text,
    }
}

/// Adds where something was found, and what it is. Names and paths are shown without line ends, so all
/// of it is in the line.
fn add_words<S: TextWriter, A: Allocator>(text: &mut S, finding: &SaidFinding<'_, A>)
    ensures { Adds S.added text.old (finding_words (said finding.now)) text.new }
{
    text.add(first_line(finding.place.as_str()).as_bytes());
    text.add(b": ");
    text.add(first_line(finding.words.as_str()).as_bytes());
}

/// Adds the line of a finding.
#[tactic(auto, unfolding(crate::specs::FindingLines::finding_line))]
fn add_finding_line<S: TextWriter, A: Allocator>(text: &mut S, finding: &SaidFinding<'_, A>)
    ensures { Adds S.added text.old (finding_line (said finding.now)) text.new }
{
    text.add(finding.at.finding.weight().word().as_bytes());
    text.add(b": ");
    add_words(text, finding);
    text.add(b"\n");
}

/// Adds the line of each finding.
#[tactic(auto, unfolding(crate::specs::FindingLines::finding_lines), using(crate::proofs::Items::lines_said))]
pub(crate) fn add_finding_lines<S: TextWriter, A: Allocator>(
    text: &mut S,
    findings: &[SaidFinding<'_, A>],
)
    ensures { Adds S.added text.old (finding_lines (map said findings.now)) text.new }
{
    add_each(text, findings, |text, finding| {
        add_finding_line(text, finding)
    });
}
