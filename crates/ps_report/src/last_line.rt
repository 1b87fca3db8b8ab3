//! The last line of a report that has warnings or notes.
ghost use Rattle.std.specs.Prelude.{◌≡◌, ◌++◌, IfOk, OnOk, codes, map, string_bytes};
ghost use Rattle.std.specs.List.{list_any};
ghost use Rattle.ps_check_segments.specs.Paths.{paths_in};
ghost use Rattle.ps_report.specs.LastLine.{asked_paths, asked_words, asks as asks_spec, asks_for as asks_for_spec, counts_otherwise as counts_otherwise_spec, is_of_linked_file as is_of_linked_file_spec, is_other_count as is_other_count_spec, last_line, line_of_paths};
ghost use Rattle.ps_report.specs.Reported.{said};

use crate::finding::SaidFinding;
use crate::finding_lines::first_line;
use ps_check_segments::NamedFiles;
use ps_filetype::ShownPath;
use ps_warnings::{DictionaryFinding, Finding, FindingAt, OperandFinding, Weight};
use std::alloc::{AllocError, Allocator};
use std::fmt::Write as _;

/// Something is to be done about a finding of this weight.
fn asks(weight: Weight) -> bool
    ensures { result ≡ asks_spec weight }
{
    match weight {
        Weight::Warning | Weight::Note => true,
        Weight::Harmless => false,
    }
}

/// The finding asks for a change of the linked file, and for none of a file that is linked.
fn is_of_linked_file(finding: Finding) -> bool
    ensures { result ≡ is_of_linked_file_spec finding }
{
    matches!(
        finding,
        Finding::Dictionary(DictionaryFinding::LeftOutWord { .. })
    )
}

/// Something is to be done about the file at this path, by the finding.
pub(crate) fn asks_for(found: &FindingAt<'_>, path: &str) -> bool
    ensures { result ≡ asks_for_spec path.now found.now }
{
    asks(found.finding.weight()) && !is_of_linked_file(found.finding) && found.place.path == path
}

/// The finding says that a compiler may count references otherwise.
fn is_other_count(finding: Finding) -> bool
    ensures { result ≡ is_other_count_spec finding }
{
    matches!(finding, Finding::Operand(OperandFinding::OtherCount { .. }))
}

/// The finding says that the compiler of the file at this path may count references otherwise.
pub(crate) fn counts_otherwise(found: &FindingAt<'_>, path: &str) -> bool
    ensures { result ≡ counts_otherwise_spec path.now found.now }
{
    is_other_count(found.finding) && found.place.path == path
}

/// A finding says that the compiler of the file at this path may count references otherwise.
fn is_counted_otherwise<A: Allocator>(findings: &[SaidFinding<'_, A>], path: &str) -> bool
    ensures { result
        ≡ list_any (λ f. counts_otherwise_spec path.now f.at) (map said findings.now) }
{
    for finding in findings {
        if counts_otherwise(&finding.at, path) {
            return true;
        }
    }
    false
}

/// A finding asks for the file at this path.
fn is_asked_for<A: Allocator>(findings: &[SaidFinding<'_, A>], path: &str) -> bool
    ensures { result ≡ list_any (λ f. asks_for_spec path.now f.at) (map said findings.now) }
{
    for finding in findings {
        if asks_for(&finding.at, path) {
            return true;
        }
    }
    false
}

/// Adds the path, where a finding asks for the file there, and none says that its compiler may count
/// otherwise.
#[tactic(auto, unfolding(crate::specs::LastLine::asked_words))]
fn add_asked<A: Allocator>(
    text: &mut String<A>,
    findings: &[SaidFinding<'_, A>],
    path: &str,
) -> Result<(), AllocError>
    ensures { OnOk result (string_bytes text.new
        ≡ string_bytes text.old ++ asked_words (map said findings.now) path.now) }
{
    if is_counted_otherwise(findings, path) || !is_asked_for(findings, path) {
        return Ok(());
    }
    let path = ShownPath(path);
    write!(text, "{path}; ")
}

/// The paths of the files for which findings ask, in their order.
fn paths_asked_for<A: Allocator + Copy>(
    alloc: A,
    findings: &[SaidFinding<'_, A>],
    files: &NamedFiles<'_>,
) -> Result<String<A>, AllocError>
    ensures { IfOk result (λ asked. string_bytes asked ≡ asked_paths (map said findings.now)
        (paths_in files.now)) }
{
    let mut text = String::new(alloc);
    add_asked(&mut text, findings, files.host_path)?;
    for path in files.paths {
        add_asked(&mut text, findings, path)?;
    }
    Ok(text)
}

/// Adds a line with these paths, each with what separates it from what follows.
fn push_line<A: Allocator>(text: &mut String<A>, paths: &str) -> Result<(), AllocError>
    ensures { OnOk result (string_bytes text.new ≡ string_bytes text.old
        ++ (codes "copy or compile again: "
        ++ (paths.now ++ codes "see WARNINGS in pslink(1)\n"))) }
{
    writeln!(
        text,
        "copy or compile again: {paths}see WARNINGS in pslink(1)"
    )
}

/// Adds the line that names the files at these paths, where there are any.
fn add_line_of<A: Allocator>(text: &mut String<A>, paths: &str) -> Result<(), AllocError>
    ensures { OnOk result (string_bytes text.new
        ≡ string_bytes text.old ++ line_of_paths paths.now) }
{
    if paths.is_empty() {
        return Ok(());
    }
    push_line(text, first_line(paths))
}

/// Adds the line that says what to do about warnings and notes, where there are any.
pub(crate) fn add_last_line<A: Allocator + Copy>(
    alloc: A,
    text: &mut String<A>,
    findings: &[SaidFinding<'_, A>],
    files: &NamedFiles<'_>,
) -> Result<(), AllocError>
    ensures { OnOk result (string_bytes text.new ≡ string_bytes text.old
        ++ last_line (paths_in files.now) (map said findings.now)) }
{
    let asked = paths_asked_for(alloc, findings, files)?;
    add_line_of(text, asked.as_str())
}
