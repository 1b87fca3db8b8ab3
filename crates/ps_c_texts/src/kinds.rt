//! The texts that there are, by their numbers. The comments on the numbers are those of
//! `include/pslink.h`, docs/EMBEDDING.md, pslink(3) and the bindings too, which
//! `man/make_constants.py` and `man/make_pages.py` write.
ghost use Rattle.std.specs.Prelude.{◌≡◌};
ghost use Rattle.ps_c_texts.specs.Kinds.{kind_in as kind_in_spec, list_in as list_in_spec, report_text as report_text_spec, text_kind as text_kind_spec, units_in as units_in_spec};

use ps_texts::{Form, HostText, LinkText, ListForm, NamedText, ReportText, TextKind};

/// The map of the link: what it puts where.
///
/// The command `map` prints it.
pub const TEXT_MAP: u32 = 0;

/// That map, and then each place at which the link stores bytes.
///
/// The command `map --references` prints it.
pub const TEXT_REFERENCES: u32 = 1;

/// What the first file has: its slots, and its link information.
///
/// The command `show` prints it.
pub const TEXT_SHOW: u32 = 2;

/// The report on the files, for a person: where each segment comes from, whether they are linked, what a
/// fault means in these files and what to do about it, and what else is found.
///
/// The command `check` prints it.
pub const TEXT_CHECK: u32 = 3;

/// What each file has.
///
/// The command `list` prints it.
pub const TEXT_LIST: u32 = 4;

/// That list, and after each file what is wrong with its units by themselves.
///
/// The command `check --unit` prints it.
pub const TEXT_UNITS: u32 = 5;

/// What the report finds, one by one: lines of it, each of which begins with `warning: `, `note: ` or
/// `harmless: `; nothing where it finds nothing.
pub const TEXT_FINDINGS: u32 = 6;

/// The units that a link takes from libraries, or would take if a library had them, each once. First come
/// those that the slots of the host want, by slot. Then come those that a record requests, of the host or
/// of a unit that was found, and no slot of the host has: in the order of their requests, ten of these at
/// most. They are told as far as a link reads: a segment that cannot be read requests none, and no unit is
/// looked for after one that is missing.
pub const TEXT_WANTED: u32 = 7;

/// The units whose code the first file has, by slot.
pub const TEXT_HAD: u32 = 8;

/// What the first file is for, and its byte order: a word for each, as `library little`. The first word is
/// `host`, `library`, `linked` or `mixed`, which is a file that has linked segments and others and no host
/// program. The second is `little` or `big`. Of any other file the line is `other`.
pub const TEXT_TYPE: u32 = 9;

/// What is added to the number of a text whose form is a JSON document.
pub const JSON: u32 = 256;

/// How files are listed in this form.
fn list_in(form: Form) -> ListForm
    ensures { result ≡ list_in_spec form }
{
    match form {
        Form::Lines => ListForm::Lines,
        Form::Json => ListForm::Json,
    }
}

/// How files with their units are listed in this form.
fn units_in(form: Form) -> ListForm
    ensures { result ≡ units_in_spec form }
{
    match form {
        Form::Lines => ListForm::Units,
        Form::Json => ListForm::JsonUnits,
    }
}

/// The text of this number in this form, of those that have a document.
fn kind_in(what: u32, form: Form) -> Option<TextKind>
    ensures { result ≡ kind_in_spec what form }
{
    match what {
        TEXT_MAP => Some(TextKind::OfLink(LinkText::Map, form)),
        TEXT_REFERENCES => Some(TextKind::OfLink(LinkText::References, form)),
        TEXT_SHOW => Some(TextKind::OfHost(HostText::Show(form))),
        TEXT_CHECK => Some(TextKind::Named(NamedText::OfReport(ReportText::Whole, form))),
        TEXT_LIST => Some(TextKind::Named(NamedText::List(list_in(form)))),
        TEXT_UNITS => Some(TextKind::Named(NamedText::List(units_in(form)))),
        TEXT_FINDINGS => Some(TextKind::Named(NamedText::OfReport(ReportText::Findings, form))),
        _ => None,
    }
}

/// The text of this number, to which `JSON` is added for a document; `None` where there is no such
/// text. Names of units and the type of a file have no document.
pub fn text_kind(what: u32) -> Option<TextKind>
    ensures { result ≡ text_kind_spec what }
{
    match what {
        TEXT_WANTED => Some(TextKind::Wanted),
        TEXT_HAD => Some(TextKind::OfHost(HostText::Had)),
        TEXT_TYPE => Some(TextKind::OfHost(HostText::CodeType)),
        _ => {
            if what < JSON {
                kind_in(what, Form::Lines)
            } else {
                kind_in(what - JSON, Form::Json)
            }
        }
    }
}

/// What of a report a text is, and its form, where it is made of one, so that its answer has what the
/// report says of the files.
pub(crate) fn report_text(kind: TextKind) -> Option<(ReportText, Form)>
    ensures { result ≡ report_text_spec kind }
{
    match kind {
        TextKind::Named(NamedText::OfReport(what, form)) => Some((what, form)),
        _ => None,
    }
}
