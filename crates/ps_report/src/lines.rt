//! Lines of a report that are neither that of the verdict nor those of findings.
ghost use Rattle.std.specs.Prelude.{◌≡◌, ◌++◌, OnOk, string_bytes};
ghost use Rattle.ps_report.specs.FindingLines.{is_finding_line as is_finding_line_spec, is_mistaken as is_mistaken_spec, is_remark_line as is_remark_line_spec, is_told_line as is_told_line_spec, is_verdict_line as is_verdict_line_spec, part_line, part_lines};
ghost use Rattle.ps_explained.specs.SlotLines.{is_slot_line as is_slot_line_spec};

use ps_explained::indent;
use std::alloc::{AllocError, Allocator};
use std::fmt::Write as _;

/// A part of a report.
#[derive(Clone, Copy)]
pub(crate) enum Part {
    /// The files and the segments: lines of these begin with `slot `.
    Segments,
    /// The explanation, the lists of files, and how references lead to operands.
    Account,
}

/// The line begins as that of the verdict.
fn is_verdict_line(line: &str) -> bool
    ensures { result ≡ is_verdict_line_spec line.now }
{
    line.starts_with("links: ") || line.starts_with("pslink: ")
}

/// The line begins as that of a finding that is no warning.
fn is_remark_line(line: &str) -> bool
    ensures { result ≡ is_remark_line_spec line.now }
{
    line.starts_with("harmless: ") || line.starts_with("note: ")
}

/// The line begins as that of a finding.
fn is_finding_line(line: &str) -> bool
    ensures { result ≡ is_finding_line_spec line.now }
{
    line.starts_with("warning: ") || is_remark_line(line)
}

/// The line begins as that of the verdict or of a finding.
fn is_told_line(line: &str) -> bool
    ensures { result ≡ is_told_line_spec line.now }
{
    is_verdict_line(line) || is_finding_line(line)
}

/// The line begins as that of a segment.
fn is_slot_line(line: &str) -> bool
    ensures { result ≡ is_slot_line_spec line.now }
{
    line.starts_with("slot ")
}

/// The line of a part begins as another line of a report does.
fn is_mistaken(part: Part, line: &str) -> bool
    ensures { result ≡ is_mistaken_spec part line.now }
{
    match part {
        Part::Segments => is_told_line(line),
        Part::Account => is_told_line(line) || is_slot_line(line),
    }
}

/// Adds a line of a part: one that would be mistaken for another is indented.
#[tactic(auto, unfolding(crate::specs::FindingLines::part_line))]
fn add_line<A: Allocator>(text: &mut String<A>, part: Part, line: &str) -> Result<(), AllocError>
    ensures { OnOk result (string_bytes text.new
        ≡ string_bytes text.old ++ part_line part line.now) }
{
    let indent = indent(is_mistaken(part, line));
    writeln!(text, "{indent}{line}")
}

/// Adds the lines of a part: one that would be mistaken for another is indented.
pub(crate) fn add_lines<A: Allocator>(
    text: &mut String<A>,
    part: Part,
    lines: &str,
) -> Result<(), AllocError>
    ensures { OnOk result (string_bytes text.new
        ≡ string_bytes text.old ++ part_lines part lines.now) }
{
    let mut left = lines;
    while let Some((line, rest)) = left.split_once('\n') {
        add_line(text, part, line)?;
        left = rest;
    }
    if left.is_empty() {
        return Ok(());
    }
    add_line(text, part, left)
}
