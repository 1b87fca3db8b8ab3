//! A report, and its findings, as they are printed.
ghost use Rattle.ps_report.specs.Reported.{reported};
ghost use Rattle.ps_report.specs.Reports.{printed_findings, printed_report};

use crate::finding_lines::add_finding_lines;
use crate::json::{add_findings, add_report};
use crate::report::Report;
use ps_writing::{Form, Text, TextWriter};
use std::alloc::Allocator;

/// A report in one of its forms: its text, for a person, or one JSON document.
///
/// The document has whether the files are linked, with the summary or with the fault, its parts and
/// the name of what it is about; the findings, each with its weight, the path, the segment and the
/// record where it is, and what it is; how the references of each segment lead to operands; and the
/// text. Source: RFC 8259.
#[derive(Drop)]
pub struct PrintedReport<'r, 'a, A: Allocator> {
    pub form: Form,
    pub report: &'r Report<'a, A>,
}

impl<A: Allocator> Text for PrintedReport<'_, '_, A> {
    ghost bytes = { λ p. printed_report p.form (reported p.report.now) };

    fn add_to<S: TextWriter>(&self, text: &mut S) {
        match self.form {
            Form::Lines => text.add(self.report.text.as_bytes()),
            Form::Json => add_report(text, self.report),
        }
    }
}

/// The findings of a report, one by one, in one of their forms: their lines in the text of the report,
/// or a JSON document of the same list. A line begins with `warning: `, `harmless: ` or
/// `note: `. Source: RFC 8259.
#[derive(Drop)]
pub struct PrintedFindings<'r, 'a, A: Allocator> {
    pub form: Form,
    pub report: &'r Report<'a, A>,
}

impl<A: Allocator> Text for PrintedFindings<'_, '_, A> {
    ghost bytes = { λ p. printed_findings p.form (reported p.report.now) };

    fn add_to<S: TextWriter>(&self, text: &mut S) {
        match self.form {
            Form::Lines => add_finding_lines(text, self.report.findings.as_slice()),
            Form::Json => add_findings(text, self.report.findings.as_slice()),
        }
    }
}
