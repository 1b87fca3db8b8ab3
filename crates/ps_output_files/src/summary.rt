//! The summary of a link.
ghost use Rattle.std.specs.Prelude.{◌≡◌, ◌++◌, OnOk, string_bytes};
ghost use Rattle.ps_output_files.specs.SummaryLine.{summary_json, summary_line, summary_text};

use ps_linkfile::Summary;
use ps_writing::Form;
use std::alloc::{AllocError, Allocator};
use std::fmt::Write;

/// Adds the summary of a link to `text`, as a line or as a document.
pub(crate) fn add_summary<A: Allocator>(
    text: &mut String<A>,
    form: Form,
    summary: Summary,
) -> Result<(), AllocError>
    ensures { OnOk result (string_bytes text.new
        ≡ string_bytes text.old ++ summary_text form summary) }
{
    match form {
        Form::Lines => add_line(text, summary),
        Form::Json => add_document(text, summary),
    }
}

/// Adds the line of a link.
fn add_line<A: Allocator>(text: &mut String<A>, summary: Summary) -> Result<(), AllocError>
    ensures { OnOk result (string_bytes text.new ≡ string_bytes text.old ++ summary_line summary) }
{
    let Summary {
        segments,
        private_words,
        blocks,
    } = summary;
    writeln!(
        text,
        "segments {segments} private words {private_words} blocks {blocks}"
    )
}

/// Adds the document of a link.
fn add_document<A: Allocator>(text: &mut String<A>, summary: Summary) -> Result<(), AllocError>
    ensures { OnOk result (string_bytes text.new ≡ string_bytes text.old ++ summary_json summary) }
{
    let Summary {
        segments,
        private_words,
        blocks,
    } = summary;
    writeln!(
        text,
        "{{\"segments\":{segments},\"private_words\":{private_words},\"blocks\":{blocks}}}"
    )
}
