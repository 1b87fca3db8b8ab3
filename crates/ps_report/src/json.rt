//! The report of a check as JSON.
ghost use Rattle.std.specs.Prelude.{None, map};
ghost use Rattle.ps_writing.specs.Adding.{Adds};
ghost use Rattle.ps_report.specs.ReportJson.{finding_json, findings_json, item_json, items_json, list_json, report_json, verdict_json};
ghost use Rattle.ps_report.specs.Reported.{reported, said};
ghost use Rattle.ps_report.specs.declared.verdict.Verdict.TheVariants.{Links};

use crate::finding::SaidFinding;
use crate::json_unsupported::add_unsupported;
use crate::reference_json::add_references;
use crate::report::Report;
use crate::verdict::Verdict;
use ps_linkfile::Summary;
use ps_words::Name;
use ps_writing::{
    TextWriter, add_each_row, add_json_fault, add_json_text, add_name_or_null, add_number,
    add_number_or_null, comma,
};
use std::alloc::Allocator;

/// Adds the summary of a linked file.
fn add_summary<S: TextWriter>(text: &mut S, summary: Summary)
    ensures { Adds S.added text.old (verdict_json None (Links summary)) text.new }
{
    let Summary {
        segments,
        private_words,
        blocks,
    } = summary;
    add_number(text, b"{\"links\":true,\"segments\":", segments);
    add_number(text, b",\"private_words\":", private_words);
    add_number(text, b",\"blocks\":", blocks);
    text.add(b",\"fault\":null");
}

/// Adds what a document begins with: the verdict, with the name of what its fault is about.
fn add_verdict<S: TextWriter>(text: &mut S, verdict: Verdict, name: Option<Name>)
    ensures { Adds S.added text.old (verdict_json name verdict) text.new }
{
    match verdict {
        Verdict::Links(summary) => add_summary(text, summary),
        Verdict::Refused(fault) => {
            text.add(b"{\"links\":false,\"fault\":");
            add_json_fault(text, fault, name);
        }
    }
}

/// Adds the item of a finding: how much it weighs, where something was found, and what.
fn add_finding<S: TextWriter, A: Allocator>(text: &mut S, finding: &SaidFinding<'_, A>)
    ensures { Adds S.added text.old (finding_json (said finding.now)) text.new }
{
    let place = finding.at.place;
    text.add(b"\n{\"weight\":\"");
    text.add(finding.at.finding.weight().word().as_bytes());
    text.add(b"\",\"path\":\"");
    add_json_text(text, place.path);
    text.add(b"\",\"segment\":");
    add_name_or_null(text, place.segment);
    add_number_or_null(text, b",\"record\":", place.rec);
    text.add(b",\"text\":\"");
    add_json_text(text, finding.words.as_str());
    text.add(b"\"}");
}

/// Adds the item of this index, and what is before it.
fn add_item<S: TextWriter, A: Allocator>(text: &mut S, index: usize, finding: &SaidFinding<'_, A>)
    ensures { Adds S.added text.old (item_json (index, said finding.now)) text.new }
{
    text.add(comma(index == 0));
    add_finding(text, finding);
}

/// Adds the items of findings.
#[tactic(auto, using(crate::proofs::Items::rows_said))]
fn add_items<S: TextWriter, A: Allocator>(text: &mut S, findings: &[SaidFinding<'_, A>])
    ensures { Adds S.added text.old (items_json (map said findings.now)) text.new }
{
    add_each_row(text, findings, |text, index, finding| {
        add_item(text, index, finding)
    });
}

/// Adds the list of findings.
fn add_list<S: TextWriter, A: Allocator>(text: &mut S, findings: &[SaidFinding<'_, A>])
    ensures { Adds S.added text.old (list_json (map said findings.now)) text.new }
{
    text.add(b"\"findings\":[");
    add_items(text, findings);
    text.add(b"\n]");
}

/// Adds the document of a report.
pub(crate) fn add_report<S: TextWriter, A: Allocator>(text: &mut S, report: &Report<'_, A>)
    ensures { Adds S.added text.old (report_json (reported report.now)) text.new }
{
    add_verdict(text, report.verdict, report.name);
    text.add(b",");
    add_list(text, report.findings.as_slice());
    text.add(b",");
    add_unsupported(text, report.unsupported.as_slice());
    add_references(text, report.references.as_slice());
    text.add(b",\"report\":\"");
    add_json_text(text, report.text.as_str());
    text.add(b"\"}\n");
}

/// Adds the document of findings.
#[tactic(auto, unfolding(crate::specs::ReportJson::findings_json))]
pub(crate) fn add_findings<S: TextWriter, A: Allocator>(
    text: &mut S,
    findings: &[SaidFinding<'_, A>],
)
    ensures { Adds S.added text.old (findings_json (map said findings.now)) text.new }
{
    text.add(b"{");
    add_list(text, findings);
    text.add(b"}\n");
}
