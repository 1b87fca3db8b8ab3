//! The list of a file, as lines or as an item of a JSON document.
ghost use Rattle.std.specs.Prelude.{◌≡◌, ◌++◌, [], ℕ, List, codes, true};
ghost use Rattle.ps_codefile.specs.Opened.{opened as opened_spec};
ghost use Rattle.ps_writing.specs.Adding.{Adds};
ghost use Rattle.ps_writing.specs.Rows.{by_form};
ghost use Rattle.ps_writing.specs.declared.rows.Form.TheVariants.{Json};
ghost use Rattle.ps_listing.specs.Listed.{is_refused as is_refused_spec, is_refused_as as is_refused_as_spec, segments_found, values_of as values_of_spec};
ghost use Rattle.ps_listing.specs.ListText.{file_in, segments_in, unread_json_of};
ghost use Rattle.ps_listing.specs.LoneText.{lone_items};

use crate::lone::{LoneUnit, add_unit_items};
use crate::parts::{add_fault_or_none, add_length, add_order, add_path, add_purpose, add_type};
use crate::segments::{ListedSegment, add_segments, has_refused};
use ps_codefile::Dict;
use ps_filetype::CodeFile;
use ps_words::{Fault, Order, Reason};
use ps_writing::{Form, TextWriter, add_by_form};

/// The values of a file. One that could not be read has none.
#[derive(Clone, Copy)]
pub(crate) struct FileValues {
    size: Option<usize>,
    order: Option<Order>,
    /// What the file is for, where it was opened.
    purpose: Option<Option<CodeFile>>,
    fault: Option<Fault>,
}

/// The values of a file of so many bytes that was opened, or was not.
pub(crate) fn values_of(size: usize, opened: &Result<Dict, Reason>) -> FileValues
    ensures { result ≡ values_of_spec size opened.now }
{
    match opened {
        Ok(dict) => FileValues {
            size: Some(size),
            order: Some(dict.order()),
            purpose: Some(CodeFile::of(dict)),
            fault: None,
        },
        Err(reason) => FileValues {
            size: Some(size),
            order: None,
            purpose: None,
            fault: Some(Fault::in_file(0, *reason)),
        },
    }
}

/// Adds a file, but for its segments.
fn add_file<S: TextWriter>(text: &mut S, form: Form, path: &str, phrase: &str, values: FileValues)
    ensures { Adds S.added text.old (file_in form path.now phrase.now values) text.new }
{
    match form {
        Form::Lines => {
            add_path(text, Form::Lines, path);
            add_order(text, Form::Lines, values.order);
            add_length(text, Form::Lines, b" ", values.size);
            add_purpose(text, Form::Lines, values.purpose);
            add_type(text, Form::Lines, phrase);
            add_fault_or_none(text, Form::Lines, values.fault);
            text.add(b"\n");
        }
        Form::Json => {
            add_path(text, Form::Json, path);
            add_length(text, Form::Json, b"", values.size);
            add_type(text, Form::Json, phrase);
            add_order(text, Form::Json, values.order);
            add_purpose(text, Form::Json, values.purpose);
            add_fault_or_none(text, Form::Json, values.fault);
            text.add(b",\"segments\":[");
        }
    }
}

/// Adds what a file at a path has, which are these values and segments, as lines made for grep, or as
/// an item of the list of a document. The phrase says what it is, where it is no code file as it ought
/// to be.
pub(crate) fn add_listed<S: TextWriter>(
    text: &mut S,
    form: Form,
    path: &str,
    phrase: &str,
    values: FileValues,
    segments: &[ListedSegment],
)
    ensures { Adds S.added text.old (file_in form path.now phrase.now values
        ++ segments_in form path.now segments.now ++ by_form form [] (codes "\n]}"))
        text.new }
{
    add_file(text, form, path, phrase, values);
    add_segments(text, form, path, segments);
    add_by_form(text, form, b"", b"\n]}");
}

/// Adds the item of a file that has these values and segments, which has its units by themselves too.
pub(crate) fn add_listed_with_units<S: TextWriter>(
    text: &mut S,
    path: &str,
    phrase: &str,
    values: FileValues,
    segments: &[ListedSegment],
    units: &[LoneUnit],
)
    ensures { Adds S.added text.old (file_in Json path.now phrase.now values
        ++ segments_in Json path.now segments.now
        ++ codes "\n],\"units\":[" ++ lone_items units.now ++ codes "\n]}") text.new }
{
    add_file(text, Form::Json, path, phrase, values);
    add_segments(text, Form::Json, path, segments);
    text.add(b"\n],\"units\":[");
    add_unit_items(text, units);
    text.add(b"\n]}");
}

/// Adds the item of the file at a path at which nothing could be read: all its members but the path are
/// `null`, and it has no segments.
pub(crate) fn add_unread<S: TextWriter>(text: &mut S, path: &str)
    ensures { Adds S.added text.old (unread_json_of path.now) text.new }
{
    let values = FileValues {
        size: None,
        order: None,
        purpose: None,
        fault: None,
    };
    add_file(text, Form::Json, path, "", values);
    text.add(b"\n]}");
}

/// A file that was opened, or was not, and has these segments, is refused.
fn is_refused_as(opened: &Result<Dict, Reason>, segments: &[ListedSegment]) -> bool
    ensures { (phrase : List ℕ) → segments.now ≡ segments_found phrase opened.now
        → result ≡ is_refused_as_spec phrase opened.now }
{
    match opened {
        Ok(dict) => CodeFile::of(dict).is_none() || has_refused(segments),
        Err(_) => true,
    }
}

/// The list of a file says that the file is refused, or one of its segments is, that it has none,
/// or, by a phrase that is not empty, that it is something else.
#[tactic(auto, unfolding(crate::specs::Listed::is_refused))]
pub(crate) fn is_refused(
    phrase: &str,
    opened: &Result<Dict, Reason>,
    segments: &[ListedSegment],
) -> bool
    ensures { (file : List ℕ) → opened.now ≡ opened_spec file
        → segments.now ≡ segments_found phrase.now opened.now
        → result ≡ is_refused_spec phrase.now file }
{
    !phrase.is_empty() || is_refused_as(opened, segments)
}
