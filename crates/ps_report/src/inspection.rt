//! What is found in a host and its libraries.
ghost use Rattle.std.specs.Prelude.{◌≡◌, ◌∷◌, [], IfOk, None, Some, map, string_bytes};
ghost use Rattle.ps_resolve.specs.AllFaults.{reading_fault};
ghost use Rattle.ps_resolve.specs.Sources.{contents};
ghost use Rattle.ps_warnings.specs.Found.{about_link};
ghost use Rattle.ps_warnings.specs.WarnedFiles.{AreInOrder, AreSaid};
ghost use Rattle.ps_check_segments.specs.Paths.{paths_in};
ghost use Rattle.ps_check_segments.specs.Seen.{seen};
ghost use Rattle.ps_check_segments.specs.SeenSegments.{seen_segments};
ghost use Rattle.ps_explained.specs.FileLines.{AreFileLines};
ghost use Rattle.ps_explained.specs.OverviewText.{overview_text};
ghost use Rattle.ps_explained.specs.SegmentLines.{has_unread, read_lines, segment_lines};
ghost use Rattle.ps_explained.specs.SlotLines.{AddsSlotLines, slot_lines};
ghost use Rattle.ps_words.specs.declared.fault.Fault.{Fault as Why};
ghost use Rattle.ps_report.specs.Reports.{told_of_host, told_segments};
ghost use Rattle.ps_report.specs.Verdicts.{fault_of, verdict_name as verdict_name_spec};

use crate::last_line::{asks_for, counts_otherwise};
use crate::names::verdict_name;
use crate::verdict::Verdict;
use ps_check_segments::{NamedFiles, ReadSegment, segments_of};
use ps_explained::{
    Case, Explanation, Overview, UnsupportedLines, UnsupportedRecord, lines_of_references,
    overview_of, unsupported_records,
};
use ps_filetype::is_code_type;
use ps_resolve::Reading;
use ps_warnings::{
    FindingAt, Findings, SegmentReferences, add_other_counts, findings_of, references_of,
};
use ps_words::{Fault, Name};
use std::alloc::{AllocError, Allocator};
use std::fmt::Write as _;

/// What is found in a host and its libraries.
#[derive(Drop)]
pub(crate) struct Inspection<'a, A: Allocator> {
    /// The files, and the segments with where each comes from, in lines.
    pub overview: Overview<A>,
    /// The name of what the fault is about, where there is one and it has a name.
    pub name: Option<Name>,
    /// What the fault is in these files, and what to do about it, in lines; empty where there is
    /// none.
    pub explanation: String<A>,
    /// The records that are not linked; none where there is no fault.
    pub unsupported: Vec<UnsupportedRecord<'a>, A>,
    /// What else is found, and is no fault.
    pub findings: Findings<'a, A>,
    /// How the references of each segment lead to operands.
    pub references: Vec<SegmentReferences<'a>, A>,
    /// The lines that say so.
    pub reference_lines: String<A>,
}

/// What is found in a host and its libraries, which were read, and of which this is the verdict.
/// Returns an error where memory was refused.
pub(crate) fn inspect<'a, A: Allocator + Copy>(
    alloc: A,
    files: &NamedFiles<'a>,
    reading: &Reading<'a>,
    verdict: Verdict,
) -> Result<Inspection<'a, A>, AllocError>
    requires { reading.now ≡ record {
      host = files.now.host.now;
      libs = contents files.now.libs.now;
    } }
    ensures files { IfOk result (λ found. AreFileLines (paths_in files.now) 0
        (files.now.host.now ∷ contents files.now.libs.now)
        (string_bytes found.overview.files)) }
    ensures silent { IfOk result (λ found. AddsSlotLines [] []
        (string_bytes found.overview.files)) }
    ensures linked { IfOk result (λ found.
        reading_fault files.now.host.now (contents files.now.libs.now) ≡ None
        → slot_lines (string_bytes found.overview.segments) ≡ segment_lines
        (paths_in files.now) files.now.host.now (contents files.now.libs.now)) }
    ensures read { IfOk result (λ found. (why : Why)
        → reading_fault files.now.host.now (contents files.now.libs.now) ≡ Some why
        → slot_lines (string_bytes found.overview.segments) ≡ read_lines (paths_in files.now)
        (has_unread files.now.host.now (contents files.now.libs.now))
        (told_of_host files.now.host.now
        (seen_segments files.now.host.now (contents files.now.libs.now)))) }
    ensures told { IfOk result (λ found. string_bytes found.overview.segments ≡ overview_text
        (paths_in files.now) files.now.host.now (contents files.now.libs.now)
        (told_segments files.now.host.now (contents files.now.libs.now))) }
    ensures name { IfOk result (λ found. found.name
        ≡ verdict_name_spec files.now.host.now (contents files.now.libs.now) verdict) }
    ensures explanation { IfOk result (λ found. fault_of verdict ≡ None
        → string_bytes found.explanation ≡ []) }
    ensures unsupported { IfOk result (λ found. fault_of verdict ≡ None
        → found.unsupported.items ≡ []) }
    ensures said { IfOk result (λ found. AreSaid (paths_in files.now) files.now.host.now
        (contents files.now.libs.now)
        (seen_segments files.now.host.now (contents files.now.libs.now))
        (about_link found.findings)) }
    ensures ordered { IfOk result (λ found. AreInOrder (paths_in files.now) files.now.host.now
        (contents files.now.libs.now)
        (seen_segments files.now.host.now (contents files.now.libs.now))
        (about_link found.findings)) }
{
    let fault = verdict.fault();
    let name = verdict_name(reading, verdict);
    let list = segments_of(alloc, files, reading)?;
    let told = told_segments(files, reading, list.as_slice());
    let overview = overview_of(alloc, files, told)?;
    let mut findings = findings_of(alloc, files, list.as_slice(), fault)?;
    let references = references_of(alloc, files, told)?;
    add_other_counts(&mut findings, references.as_slice())?;
    let found = findings.list.as_slice();
    let unsupported = unsupported_after(alloc, files, told, fault)?;
    let explanation = explanation_of(
        alloc,
        files,
        reading,
        list.as_slice(),
        fault,
        found,
        unsupported.as_slice(),
    )?;
    let reference_lines = lines_of_references(alloc, references.as_slice())?;
    Ok(Inspection {
        overview,
        name,
        explanation,
        unsupported,
        findings,
        references,
        reference_lines,
    })
}

/// The segments of which a report tells: all, where the files are read without a fault.
fn told_segments<'l, 'a>(
    files: &NamedFiles<'a>,
    reading: &Reading<'a>,
    list: &'l [ReadSegment<'a>],
) -> &'l [ReadSegment<'a>]
    ensures refused { (why : Why) → reading_fault reading.now.host reading.now.libs ≡ Some why
        → map seen result.now ≡ told_of_host files.now.host.now (map seen list.now) }
    ensures all { reading_fault reading.now.host reading.now.libs ≡ None
        → map seen result.now ≡ map seen list.now }
{
    if reading.fault().is_some() {
        told_after_fault(files, list)
    } else {
        list
    }
}

/// The segments of which a report tells where there is a fault: none of a host that is no code
/// file.
fn told_after_fault<'l, 'a>(
    files: &NamedFiles<'a>,
    list: &'l [ReadSegment<'a>],
) -> &'l [ReadSegment<'a>]
    ensures { map seen result.now ≡ told_of_host files.now.host.now (map seen list.now) }
{
    if is_code_type(files.host) { list } else { &[] }
}

/// What the fault is in these files, and what to do about it, and each record that is not linked, in
/// lines; empty where there is no fault. A file of which a finding asks something may be damaged,
/// unless its compiler may count otherwise.
fn explanation_of<'a, A: Allocator>(
    alloc: A,
    files: &NamedFiles<'a>,
    reading: &Reading<'a>,
    list: &[ReadSegment<'a>],
    fault: Option<Fault>,
    findings: &[FindingAt<'_>],
    unsupported: &[UnsupportedRecord<'a>],
) -> Result<String<A>, AllocError>
    ensures { IfOk result (λ text. fault ≡ None → string_bytes text ≡ []) }
{
    let mut text = String::new(alloc);
    if let Some(fault) = fault {
        let path = files.path(fault.file);
        let is_counted = findings.iter().any(|found| counts_otherwise(found, path));
        let is_suspect = !is_counted && findings.iter().any(|found| asks_for(found, path));
        let case = Case::new(files, reading, list, fault, is_suspect, is_counted);
        let explanation = Explanation(case);
        let lines = UnsupportedLines(unsupported);
        write!(text, "{explanation}{lines}")?;
    }
    Ok(text)
}

/// The records of these segments that are not linked; none where there is no fault.
fn unsupported_after<'a, A: Allocator + Copy>(
    alloc: A,
    files: &NamedFiles<'a>,
    list: &[ReadSegment<'a>],
    fault: Option<Fault>,
) -> Result<Vec<UnsupportedRecord<'a>, A>, AllocError>
    ensures { IfOk result (λ found. fault ≡ None → found.items ≡ []) }
{
    match fault {
        Some(_) => unsupported_records(alloc, files, list),
        None => Ok(Vec::new(alloc)),
    }
}
