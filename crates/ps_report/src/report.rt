//! The report of a check.
ghost use Rattle.std.specs.Prelude.{◌≡◌, ◌↔◌, ◌⊎◌, ◌++◌, [], IfOk, OnOk, false, map, true, string_bytes};
ghost use Rattle.ps_resolve.specs.Sources.{contents};
ghost use Rattle.ps_resolve.specs.Standing.{NoneStands};
ghost use Rattle.ps_check_segments.specs.Paths.{paths_in};
ghost use Rattle.ps_explained.specs.SlotLines.{AddsSlotLines, slot_lines};
ghost use Rattle.ps_report.specs.Reported.{reported, said, warning_count};
ghost use Rattle.ps_report.specs.Reports.{HasWarning, IsReport, front_of};
ghost use Rattle.ps_report.specs.Verdicts.{IsRefused, check_status, verdict_line};
ghost use Rattle.ps_report.specs.FindingLines.{AddsWarnings, finding_lines};
ghost use Rattle.ps_report.specs.LastLine.{last_line};

use crate::finding::{SaidFinding, said_findings};
use crate::inspection::{Inspection, inspect};
use crate::kept::string_of;
use crate::last_line::add_last_line;
use crate::lines::{Part, add_lines};
use crate::printed::PrintedFindings;
use crate::verdict::{Verdict, verdict_of};
use crate::without_host::lists_without_host;
use ps_check_segments::NamedFiles;
use ps_explained::UnsupportedRecord;
use ps_laws::first_of_all;
use ps_resolve::{Reading, read};
use ps_warnings::SegmentReferences;
use ps_words::Name;
use ps_writing::Form;
use std::alloc::{AllocError, Allocator};
use std::fmt::Write as _;

/// What a check of a host and its libraries reports.
#[derive(Drop)]
pub struct Report<'a, A: Allocator> {
    /// Whether the files are linked.
    pub verdict: Verdict,
    /// The name of what the fault is about, where the files are refused and it has one.
    pub name: Option<Name>,
    /// What else is found, and is no fault, in its order.
    pub findings: Vec<SaidFinding<'a, A>, A>,
    /// The records that are not linked, in their order; none where the files are linked.
    pub unsupported: Vec<UnsupportedRecord<'a>, A>,
    /// How the references of each segment of the link lead to operands for variables of the program,
    /// in the order of the segments.
    pub references: Vec<SegmentReferences<'a>, A>,
    /// The whole text, for a person: the files, the segments, the line of the verdict, what it
    /// means, where no file is a host the list of each, how the references of each segment lead to
    /// operands, a line of each finding, and what to do.
    pub text: String<A>,
}

/// How many of these findings are warnings.
#[tactic(auto, unfolding(crate::specs::Reported::warning_count))]
fn count_warnings<A: Allocator>(findings: &[SaidFinding<'_, A>]) -> usize
    ensures { result ≡ warning_count (map said findings.now) }
{
    let mut warnings = 0usize;
    for finding in findings {
        warnings += usize::from(finding.at.finding.is_certain());
    }
    warnings
}

impl<A: Allocator> Report<'_, A> {
    /// How many of the findings are warnings: so many lines of the text begin with `warning: `.
    pub fn warnings(&self) -> usize
        ensures { result ≡ warning_count (map said self.now.findings.items) }
    {
        count_warnings(self.findings.as_slice())
    }

    /// What a process that prints the report ends with: 0 where the files are linked, 1 where they
    /// are refused, and, if it is to be `strict`, 1 on a warning too.
    pub fn status(&self, strict: bool) -> u8
        ensures { result ≡ check_status strict (warning_count (map said self.now.findings.items))
            self.now.verdict }
    {
        match self.verdict {
            Verdict::Refused(_) => 1,
            Verdict::Links(_) => u8::from(strict && self.warnings() != 0),
        }
    }
}

/// Checks a host and the libraries of its units, and reports what a link of them would do, and why
/// it would not.
///
/// The paths of `files` name them in the text. The verdict is that of
/// `ps_linkfile::link`: of a refusal it has the first fault of all, and its text has the line of
/// that fault. Where the first file is no host and no library is one, the text has the lines of
/// the list of each file that has a path. Where the files are linked, each segment of the link has
/// its line in the text, by slot, and no other line begins with `slot `. Returns an error where
/// memory was refused.
pub fn check<'a, A: Allocator + Copy>(
    alloc: A,
    files: &NamedFiles<'a>,
) -> Result<Report<'a, A>, AllocError>
    ensures report { IfOk result (λ r. IsReport (paths_in files.now) files.now.host.now
        (contents files.now.libs.now) (reported r)) }
    ensures links { IfOk result (λ r. (check_status false (warning_count (map said
        r.findings.items)) r.verdict ≡ 0) ↔ NoneStands files.now.host.now
        (contents files.now.libs.now)) }
    ensures refused { IfOk result (λ r. (check_status false (warning_count (map said
        r.findings.items)) r.verdict ≡ 1) ↔ IsRefused files.now.host.now
        (contents files.now.libs.now)) }
    ensures warned { IfOk result (λ r. (check_status true (warning_count (map said
        r.findings.items)) r.verdict ≡ 1)
        ↔ (HasWarning (paths_in files.now) files.now.host.now (contents files.now.libs.now)
        ⊎ IsRefused files.now.host.now (contents files.now.libs.now))) }
{
    check_reading(alloc, files, &read(files.host, files.libs))
}

/// Checks a host and its libraries, which were read. A function by itself that borrows the reading,
/// since each body that has one moves it, and it is large.
#[inline(never)]
fn check_reading<'a, A: Allocator + Copy>(
    alloc: A,
    files: &NamedFiles<'a>,
    reading: &Reading<'a>,
) -> Result<Report<'a, A>, AllocError>
    requires { reading.now ≡ record {
      host = files.now.host.now;
      libs = contents files.now.libs.now;
    } }
    ensures { IfOk result (λ r. IsReport (paths_in files.now) files.now.host.now
        (contents files.now.libs.now) (reported r)) }
{
    first_of_all();
    let verdict = verdict_of(alloc, reading)?;
    let inspection = inspect(alloc, files, reading, verdict)?;
    let lists = lists_without_host(alloc, verdict, files)?;
    let parts = Sections {
        files: inspection.overview.files.as_str(),
        segments: inspection.overview.segments.as_str(),
        explanation: inspection.explanation.as_str(),
        lists: lists.as_str(),
        references: inspection.reference_lines.as_str(),
    };
    let front = with_verdict(alloc, verdict, parts)?;
    let Inspection {
        name,
        unsupported,
        findings,
        references,
        ..
    } = inspection;
    let findings = said_findings(alloc, findings.list.as_slice())?;
    let mut report = Report {
        verdict,
        name,
        findings,
        unsupported,
        references,
        text: front,
    };
    let lines = lines_of_findings(alloc, &report, files)?;
    report.text.push_str(lines.as_str())?;
    Ok(report)
}

/// The lines of the findings of a report, and the line that says what to do about them.
fn lines_of_findings<A: Allocator + Copy>(
    alloc: A,
    report: &Report<'_, A>,
    files: &NamedFiles<'_>,
) -> Result<String<A>, AllocError>
    ensures { IfOk result (λ lines. string_bytes lines
        ≡ finding_lines (map said report.now.findings.items)
        ++ last_line (paths_in files.now) (map said report.now.findings.items)) }
{
    let form = Form::Lines;
    let mut lines = string_of(alloc, &PrintedFindings { form, report })?;
    add_last_line(alloc, &mut lines, report.findings.as_slice(), files)?;
    Ok(lines)
}

/// What a report has before and after the line of its verdict, in lines, but for its warnings.
#[derive(Clone, Copy)]
struct Sections<'t> {
    files: &'t str,
    segments: &'t str,
    explanation: &'t str,
    lists: &'t str,
    references: &'t str,
}

/// Adds the line of the verdict.
fn push_verdict<A: Allocator>(text: &mut String<A>, verdict: Verdict) -> Result<(), AllocError>
    ensures { OnOk result (string_bytes text.new ≡ string_bytes text.old ++ verdict_line verdict) }
{
    write!(text, "{verdict}")
}

/// Adds the line of the verdict to a text whose last line has its end.
fn add_verdict<A: Allocator>(text: &mut String<A>, verdict: Verdict) -> Result<(), AllocError>
    ensures line { OnOk result (string_bytes text.new
        ≡ string_bytes text.old ++ verdict_line verdict) }
    ensures lines { OnOk result (AddsSlotLines (string_bytes text.old) []
        (string_bytes text.new)) }
    ensures warnings { OnOk result (AddsWarnings (string_bytes text.old) 0
        (string_bytes text.new)) }
{
    push_verdict(text, verdict)
}

/// The line of the verdict between what is before it and after it, in which no line begins as that of
/// a verdict or of a finding, and after it none as that of a segment.
fn with_verdict<A: Allocator>(
    alloc: A,
    verdict: Verdict,
    parts: Sections<'_>,
) -> Result<String<A>, AllocError>
    ensures parts { IfOk result (λ text. string_bytes text ≡ front_of verdict (record {
      files = parts.entry.files.now;
      segments = parts.entry.segments.now;
      explanation = parts.entry.explanation.now;
      lists = parts.entry.lists.now;
      references = parts.entry.references.now;
    })) }
    ensures warnings { IfOk result (λ text. AddsWarnings [] 0 (string_bytes text)) }
    ensures lines { IfOk result (λ text. slot_lines parts.entry.files.now ≡ []
        → parts.entry.explanation.now ≡ [] → parts.entry.lists.now ≡ []
        → AddsSlotLines [] (slot_lines parts.entry.segments.now) (string_bytes text)) }
{
    let mut text = String::new(alloc);
    add_lines(&mut text, Part::Segments, parts.files)?;
    add_lines(&mut text, Part::Segments, parts.segments)?;
    add_verdict(&mut text, verdict)?;
    add_lines(&mut text, Part::Account, parts.explanation)?;
    add_lines(&mut text, Part::Account, parts.lists)?;
    add_lines(&mut text, Part::Account, parts.references)?;
    Ok(text)
}
