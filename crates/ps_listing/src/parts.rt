//! The values of a file and of a segment, each in a line or in an item of a JSON document.
ghost use Rattle.std.specs.Prelude.{◌≡◌, [], codes, true};
ghost use Rattle.ps_writing.specs.Adding.{Adds};
ghost use Rattle.ps_writing.specs.JsonText.{member};
ghost use Rattle.ps_writing.specs.Rows.{by_form};
ghost use Rattle.ps_listing.specs.ListText.{fault_or_none, found_in, is_first_after, kind_in, length_in, name_in, no_fault_in, order_in, path_in, purpose_in, record_part, refused_in, refused_words, role_in, text_in, trimmed as trimmed_spec, type_in, use_in, use_of, uses_from, uses_in};

use crate::escapes::add_path as add_shown;
use ps_codefile::Role;
use ps_filetype::CodeFile;
use ps_linkinfo::{LinkInformation, LinkRecord};
use ps_words::{Fault, Name, Order};
use ps_writing::RowPart::Number;
use ps_writing::{
    Form, TextWriter, add_by_form, add_json_fault, add_json_name, add_json_text, add_number,
    add_part, comma, shown_codes,
};

/// Adds a text that is not ASCII throughout.
fn add_escaped<S: TextWriter>(text: &mut S, form: Form, words: &str)
    ensures { Adds S.added text.old (text_in form words.now) text.new }
{
    match form {
        Form::Lines => add_shown(text, words),
        Form::Json => add_json_text(text, words),
    }
}

/// A text without the white space at its end.
fn trimmed(text: &[u8]) -> &[u8]
    ensures { result.now ≡ trimmed_spec text.now }
{
    text.trim_ascii_end()
}

/// Adds a name.
fn add_name<S: TextWriter>(text: &mut S, form: Form, name: Name)
    ensures { Adds S.added text.old (name_in form name) text.new }
{
    match form {
        Form::Lines => text.add(trimmed(&shown_codes(name))),
        Form::Json => add_json_name(text, name),
    }
}

/// Adds the path that a file begins with.
pub(crate) fn add_path<S: TextWriter>(text: &mut S, form: Form, path: &str)
    ensures { Adds S.added text.old (path_in form path.now) text.new }
{
    add_by_form(text, form, b"", b"{\"path\":\"");
    add_escaped(text, form, path);
    add_by_form(text, form, b":", b"\"");
}

/// Adds the order in which a file is read.
pub(crate) fn add_order<S: TextWriter>(text: &mut S, form: Form, order: Option<Order>)
    ensures { Adds S.added text.old (order_in form order) text.new }
{
    match order {
        None => add_by_form(text, form, b"", b",\"order\":null"),
        Some(Order::Little) => add_by_form(
            text,
            form,
            b" little-endian,",
            b",\"order\":\"little\"",
        ),
        Some(Order::Big) => add_by_form(text, form, b" big-endian,", b",\"order\":\"big\""),
    }
}

/// Adds a length, in a line after this text.
pub(crate) fn add_length<S: TextWriter>(
    text: &mut S,
    form: Form,
    before: &[u8],
    length: Option<usize>,
)
    ensures { Adds S.added text.old (length_in form before.now length) text.new }
{
    match length {
        None => add_by_form(text, form, b"", b",\"length\":null"),
        Some(length) => {
            add_by_form(text, form, before, b",\"length\":");
            add_number(text, b"", length);
            add_by_form(text, form, b" bytes", b"");
        }
    }
}

/// Adds what a file is for, where it was opened.
pub(crate) fn add_purpose<S: TextWriter>(
    text: &mut S,
    form: Form,
    purpose: Option<Option<CodeFile>>,
)
    ensures { Adds S.added text.old (purpose_in form purpose) text.new }
{
    match purpose {
        None => add_by_form(text, form, b"", b",\"contents\":null"),
        Some(None) => add_by_form(text, form, b", no segment", b",\"contents\":null"),
        Some(Some(code_file)) => {
            add_by_form(text, form, b", ", b",\"contents\":\"");
            text.add(code_file.word().as_bytes());
            add_by_form(text, form, b"", b"\"");
        }
    }
}

/// Adds what a file is, where the phrase says that.
pub(crate) fn add_type<S: TextWriter>(text: &mut S, form: Form, phrase: &str)
    ensures { Adds S.added text.old (type_in form phrase.now) text.new }
{
    if phrase.is_empty() {
        add_by_form(text, form, b"", b",\"type\":null");
    } else {
        add_by_form(text, form, b", ", b",\"type\":\"");
        add_escaped(text, form, phrase);
        add_by_form(text, form, b"", b"\"");
    }
}

/// Adds the index of a record, if there is one.
fn add_record<S: TextWriter>(text: &mut S, rec: Option<usize>)
    ensures { Adds S.added text.old (record_part rec) text.new }
{
    match rec {
        None => text.add(b""),
        Some(rec) => add_number(text, b" record ", rec),
    }
}

/// Adds to a line why a file, a segment or a unit is refused.
pub(crate) fn add_refused<S: TextWriter>(text: &mut S, fault: Fault)
    ensures { Adds S.added text.old (refused_words fault) text.new }
{
    add_number(text, b", refused ", fault.reason.number());
    text.add(b" ");
    text.add(fault.reason.name().as_bytes());
    add_record(text, fault.rec);
}

/// Adds why a file is refused, or a segment of this name.
pub(crate) fn add_fault<S: TextWriter>(text: &mut S, form: Form, name: Option<Name>, fault: Fault)
    ensures { Adds S.added text.old (refused_in form name fault) text.new }
{
    match form {
        Form::Lines => add_refused(text, fault),
        Form::Json => {
            text.add(b",\"fault\":");
            add_json_fault(text, fault, name);
        }
    }
}

/// Adds that there is no fault.
pub(crate) fn add_no_fault<S: TextWriter>(text: &mut S, form: Form)
    ensures { Adds S.added text.old (no_fault_in form) text.new }
{
    add_by_form(text, form, b"", b",\"fault\":null");
}

/// Adds the fault of a file, if it has one.
pub(crate) fn add_fault_or_none<S: TextWriter>(text: &mut S, form: Form, fault: Option<Fault>)
    ensures { Adds S.added text.old (fault_or_none form fault) text.new }
{
    match fault {
        None => add_no_fault(text, form),
        Some(fault) => add_fault(text, form, None, fault),
    }
}

/// Adds a role.
fn add_role<S: TextWriter>(text: &mut S, form: Form, role: Role)
    ensures { Adds S.added text.old (role_in form role) text.new }
{
    match role {
        Role::Empty => add_by_form(text, form, b" empty", b",\"role\":\"empty\""),
        Role::Wanted => add_by_form(text, form, b" wanted", b",\"role\":\"wanted\""),
        Role::Plain => add_by_form(text, form, b" linked", b",\"role\":\"linked\""),
        Role::Host => add_by_form(text, form, b" host", b",\"role\":\"host\""),
        Role::Unit => add_by_form(text, form, b" unit", b",\"role\":\"unit\""),
    }
}

/// Adds the number of a kind to an item.
fn add_kind_member<S: TextWriter>(text: &mut S, form: Form, kind: u16)
    ensures { Adds S.added text.old (by_form form [] (member (codes "kind") kind)) text.new }
{
    match form {
        Form::Lines => text.add(b""),
        Form::Json => add_number(text, b",\"kind\":", kind),
    }
}

/// Adds what a segment of this kind is: its role, if it has one.
pub(crate) fn add_kind<S: TextWriter>(text: &mut S, form: Form, kind: u16, role: Option<Role>)
    ensures { Adds S.added text.old (kind_in form kind role) text.new }
{
    match role {
        None => {
            add_part(text, form, Number(b"kind", kind as usize));
            add_by_form(text, form, b"", b",\"role\":null");
        }
        Some(role) => {
            add_kind_member(text, form, kind);
            add_role(text, form, role);
        }
    }
}

/// Adds the name of a unit that is used.
fn add_used<S: TextWriter>(text: &mut S, form: Form, first: bool, name: Name)
    ensures { Adds S.added text.old (use_in form first name) text.new }
{
    add_by_form(text, form, b", uses ", comma(first));
    add_by_form(text, form, b"", b"{");
    add_name(text, form, name);
    add_by_form(text, form, b"", b"}");
}

/// Adds the unit that a record uses, where it is one that uses a unit. Returns whether the first is
/// still to come.
fn add_use<S: TextWriter>(text: &mut S, form: Form, first: bool, item: &LinkRecord) -> bool
    ensures used { Adds S.added text.old (use_of form first item.now.name item.now.body)
        text.new }
    ensures first { result ≡ is_first_after first item.now.body }
{
    if item.body.kind().requests_unit() {
        add_used(text, form, first, item.name);
        false
    } else {
        text.add(b"");
        first
    }
}

/// Adds the units that records use.
fn add_each_use<S: TextWriter>(text: &mut S, form: Form, records: &LinkInformation)
    ensures { Adds S.added text.old (uses_from form true records.now) text.new }
{
    let mut first = true;
    for (_, record) in records.records() {
        first = add_use(text, form, first, &record);
    }
}

/// Adds the units that records use, in an item as a list.
fn add_uses<S: TextWriter>(text: &mut S, form: Form, records: &LinkInformation)
    ensures { Adds S.added text.old (uses_in form records.now) text.new }
{
    add_by_form(text, form, b"", b",\"uses\":[");
    add_each_use(text, form, records);
    add_by_form(text, form, b"", b"]");
}

/// Adds what a segment of this name is refused for, or the units that it uses.
pub(crate) fn add_found<S: TextWriter>(
    text: &mut S,
    form: Form,
    name: Name,
    found: &Result<LinkInformation, Fault>,
)
    ensures { Adds S.added text.old (found_in form name found.now) text.new }
{
    match found {
        Ok(records) => {
            add_no_fault(text, form);
            add_uses(text, form, records);
        }
        Err(fault) => {
            add_fault(text, form, Some(name), *fault);
            add_by_form(text, form, b"", b",\"uses\":[]");
        }
    }
}
