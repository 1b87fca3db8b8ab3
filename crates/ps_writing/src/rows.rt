//! What map and its kin print: rows of values, as lines of text or as items of a JSON document.
ghost use Rattle.std.specs.Prelude.{◌≡◌, ◌++◌, ◌∷◌, [], if◌then◌else◌, codes};
ghost use Rattle.std.specs.List.{flat_map};
ghost use Rattle.ps_writing.specs.Adding.{Adds};
ghost use Rattle.ps_writing.specs.JsonText.{json_bool as json_bool_spec, json_name, member, separator as separator_spec};
ghost use Rattle.ps_writing.specs.Lines.{hex_byte};
ghost use Rattle.ps_writing.specs.Rows.{by_form as by_form_spec, in_item, in_line, fault_as, value_in, value_of};

use crate::hex::add_hex;
use crate::json::{self, add_json_fault, add_json_name, json_bool, separator};
use crate::lines::{add_fault_words, add_number, add_slot_name, shown_codes, two_digits};
use crate::pieces;
use crate::text_writer::TextWriter;
use itoa::Buffer;
use ps_linkinfo::Refs;
use ps_words::{Fault, Name};

/// What rows are printed as.
///
/// Source: RFC 8259; which words there are is this project's profile.
#[derive(Clone, Copy)]
pub enum Form {
    /// Lines of ASCII text.
    Lines,
    /// A JSON document.
    Json,
}

/// A value of a row, with its word.
#[derive(Clone, Copy)]
pub enum RowPart<'w> {
    /// What a row begins with: a slot and a name, in a line after the word and a blank.
    InSlot(&'w [u8], u8, Name),
    /// What a row begins with: a kind.
    OfKind(&'w [u8]),
    /// What the last row begins with.
    Total(&'w [u8], usize),
    Number(&'w [u8], usize),
    /// A number that a line has in two digits.
    Short(&'w [u8], u8),
    /// Whether the word holds: then alone a line has it.
    Flag(&'w [u8], bool),
    /// What the row of a record begins with: its index.
    Record(usize),
    /// The kind of a record.
    Kind(&'w [u8]),
    Named(Name),
    /// The references of a record.
    References(&'w Refs<'w>),
    /// A fault in place of what a record has, with the name of what it is about.
    Refused(Fault, Name),
    /// What the row of what a link stores begins with: the slot and the name of the segment.
    Stored(&'w [u8], u8, Name),
    /// Bytes, in hexadecimal digits.
    Bytes(&'w [u8], &'w [u8]),
}

/// Adds a word after a blank.
fn add_word<S: TextWriter>(text: &mut S, word: &[u8])
    ensures { Adds S.added text.old ((32 ∷ []) ++ word.now) text.new }
{
    text.add(b" ");
    text.add(word);
}

/// Adds a word after a blank, where it holds.
fn add_flag<S: TextWriter>(text: &mut S, word: &[u8], holds: bool)
    ensures { Adds S.added text.old (if holds then (32 ∷ []) ++ word.now else []) text.new }
{
    if holds {
        add_word(text, word);
    }
}

/// Adds a value as a line has it.
#[inline(always)]
fn add_in_line<S: TextWriter>(text: &mut S, part: RowPart)
    ensures { Adds S.added text.old (in_line (value_of part.entry)) text.new }
{
    match part {
        RowPart::InSlot(word, slot, name) => add_slot_name(text, word, slot, name),
        RowPart::OfKind(kind) => text.add(kind),
        RowPart::Total(word, number) => {
            text.add(word);
            add_number(text, b" ", number);
        }
        RowPart::Number(word, number) => {
            add_word(text, word);
            add_number(text, b" ", number);
        }
        RowPart::Short(word, number) => {
            add_word(text, word);
            add_word(text, &two_digits(number));
        }
        RowPart::Flag(word, holds) => add_flag(text, word, holds),
        RowPart::Record(index) => add_number(text, b"", index),
        RowPart::Kind(kind) => add_word(text, kind),
        RowPart::Named(name) => add_word(text, &shown_codes(name)),
        RowPart::References(refs) => pieces::add_references(text, refs),
        RowPart::Refused(fault, _) => {
            text.add(b" ");
            add_fault_words(text, fault.reason);
        }
        RowPart::Stored(word, slot, name) => {
            text.add(word);
            add_slot_name(text, b" ", slot, name);
        }
        RowPart::Bytes(word, bytes) => {
            add_word(text, word);
            add_hex_after(text, b" ", bytes);
        }
    }
}

/// Adds bytes in hexadecimal digits after this text.
fn add_hex_after<S: TextWriter>(text: &mut S, before: &[u8], bytes: &[u8])
    ensures { Adds S.added text.old (before.now ++ flat_map hex_byte bytes.now) text.new }
{
    text.add(before);
    add_hex(text, bytes);
}

/// Adds a number as a member after its word.
fn add_member<S: TextWriter>(text: &mut S, word: &[u8], number: usize)
    ensures { Adds S.added text.old (member word.now number) text.new }
{
    text.add(b",\"");
    text.add(word);
    text.add(b"\":");
    text.add(Buffer::new().format(number).as_bytes());
}

/// Adds whether a word holds as a member after it.
fn add_flag_member<S: TextWriter>(text: &mut S, word: &[u8], holds: bool)
    ensures { Adds S.added text.old
        (codes ",\"" ++ word.now ++ codes "\":" ++ json_bool_spec holds) text.new }
{
    text.add(b",\"");
    text.add(word);
    text.add(b"\":");
    text.add(json_bool(holds));
}

/// Adds a kind as a member that begins so.
fn add_kind<S: TextWriter>(text: &mut S, before: &[u8], kind: &[u8])
    ensures { Adds S.added text.old (before.now ++ kind.now ++ codes "\"") text.new }
{
    text.add(before);
    text.add(kind);
    text.add(b"\"");
}

/// Adds bytes as a member after its word.
fn add_bytes_member<S: TextWriter>(text: &mut S, word: &[u8], bytes: &[u8])
    ensures { Adds S.added text.old
        (codes ",\"" ++ word.now ++ codes "\":\""
        ++ (flat_map hex_byte bytes.now ++ codes "\"")) text.new }
{
    text.add(b",\"");
    text.add(word);
    text.add(b"\":\"");
    add_hex_before(text, bytes, b"\"");
}

/// Adds bytes in hexadecimal digits, and this text.
fn add_hex_before<S: TextWriter>(text: &mut S, bytes: &[u8], after: &[u8])
    ensures { Adds S.added text.old (flat_map hex_byte bytes.now ++ after.now) text.new }
{
    add_hex(text, bytes);
    text.add(after);
}

/// Adds what the item of what a link stores begins with.
fn add_stored<S: TextWriter>(text: &mut S, word: &[u8], slot: u8)
    ensures { Adds S.added text.old (codes "{\"stores\":\"" ++ word.now ++ codes "\""
        ++ member (codes "slot") slot) text.new }
{
    add_kind(text, b"{\"stores\":\"", word);
    add_member(text, b"slot", slot as usize);
}

/// Adds the members of a name after another one.
fn add_name<S: TextWriter>(text: &mut S, name: Name)
    ensures { Adds S.added text.old (codes "," ++ json_name name) text.new }
{
    text.add(b",");
    add_json_name(text, name);
}

/// Adds a value as an item has it.
#[inline(always)]
fn add_in_item<S: TextWriter>(text: &mut S, part: RowPart)
    ensures { Adds S.added text.old (in_item (value_of part.entry)) text.new }
{
    match part {
        RowPart::InSlot(_, slot, name) => {
            add_number(text, b"{\"slot\":", slot);
            add_name(text, name);
        }
        RowPart::OfKind(kind) => add_kind(text, b"{\"kind\":\"", kind),
        RowPart::Total(word, number) => add_member(text, word, number),
        RowPart::Number(word, number) => add_member(text, word, number),
        RowPart::Short(word, number) => add_member(text, word, number as usize),
        RowPart::Flag(word, holds) => add_flag_member(text, word, holds),
        RowPart::Record(index) => add_number(text, b"{\"record\":", index),
        RowPart::Kind(kind) => add_kind(text, b",\"kind\":\"", kind),
        RowPart::Named(name) => add_name(text, name),
        RowPart::References(refs) => json::add_references(text, refs),
        RowPart::Refused(fault, name) => {
            text.add(b",\"kind\":\"fault\",\"fault\":");
            add_json_fault(text, fault, Some(name));
        }
        RowPart::Stored(word, slot, name) => {
            add_stored(text, word, slot);
            add_name(text, name);
        }
        RowPart::Bytes(word, bytes) => add_bytes_member(text, word, bytes),
    }
}

/// Adds a value of a row.
#[inline(always)]
pub fn add_part<S: TextWriter>(text: &mut S, form: Form, part: RowPart)
    ensures { Adds S.added text.old (value_in form (value_of part.entry)) text.new }
{
    match form {
        Form::Lines => add_in_line(text, part),
        Form::Json => add_in_item(text, part),
    }
}

/// What a line has, or what a document has in its place.
pub fn by_form<'w>(form: Form, line: &'w [u8], item: &'w [u8]) -> &'w [u8]
    ensures { result.now ≡ by_form_spec form line.now item.now }
{
    match form {
        Form::Lines => line,
        Form::Json => item,
    }
}

/// Adds what a line has, or what a document has in its place.
#[inline(always)]
pub fn add_by_form<S: TextWriter>(text: &mut S, form: Form, line: &[u8], item: &[u8])
    ensures { Adds S.added text.old (by_form_spec form line.now item.now) text.new }
{
    match form {
        Form::Lines => text.add(line),
        Form::Json => text.add(item),
    }
}

/// Adds a fault: in a line its number and its reason, in a document all its parts and the name of
/// what it is about.
pub fn add_fault<S: TextWriter>(text: &mut S, form: Form, fault: Fault, name: Name)
    ensures { Adds S.added text.old (fault_as form fault name) text.new }
{
    match form {
        Form::Lines => add_fault_words(text, fault.reason),
        Form::Json => add_json_fault(text, fault, Some(name)),
    }
}

/// Adds what is before the row of this index, from 0.
#[inline(always)]
pub fn begin_row<S: TextWriter>(text: &mut S, form: Form, index: usize)
    ensures { Adds S.added text.old (by_form_spec form [] (separator_spec index)) text.new }
{
    add_by_form(text, form, b"", separator(index == 0));
}

/// Adds what is after a row.
#[inline(always)]
pub fn end_row<S: TextWriter>(text: &mut S, form: Form)
    ensures { Adds S.added text.old (by_form_spec form (codes "\n") (codes "}")) text.new }
{
    add_by_form(text, form, b"\n", b"}");
}
