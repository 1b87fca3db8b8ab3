//! What JSON documents are made of: strings, names, items of an array, and faults.
ghost use Rattle.std.specs.Prelude.{◌≡◌, ◌++◌};
ghost use Rattle.std.specs.List.{enumerate_from, flat_map};
ghost use Rattle.ps_writing.specs.Adding.{Adds};
ghost use Rattle.ps_writing.specs.JsonText.{comma_unless, json_bool as json_bool_spec, json_byte, json_name, line_end, reference_item, references_member};
ghost use Rattle.ps_writing.specs.FaultJson.{fault_json, number_or_null, place_members, reason_members};
ghost use Rattle.ps_writing.specs.JsonStrings.{escape_letter as escape_letter_spec, json_char, json_text, name_members, name_or_null, other_char};

use crate::each::add_each;
use crate::hex::{add_hex, hex_digits};
use crate::lines::{add_number, shown_code};
use crate::text_writer::TextWriter;
use ps_linkinfo::Refs;
use ps_words::{Fault, Name, Reason};

/// Adds a byte of a name inside a string.
fn add_byte<S: TextWriter>(text: &mut S, byte: u8)
    ensures { Adds S.added text.old (json_byte byte) text.new }
{
    match byte {
        b'"' => text.add(b"\\\""),
        b'\\' => text.add(b"\\\\"),
        _ => text.add(&[shown_code(byte)]),
    }
}

/// Adds the bytes of a name inside a string.
fn add_bytes<S: TextWriter>(text: &mut S, bytes: &[u8])
    ensures { Adds S.added text.old (flat_map json_byte bytes.now) text.new }
{
    add_each(text, bytes, |text, byte| add_byte(text, *byte));
}

/// Adds the members of a name: as a line shows it, and all its bytes in hexadecimal digits.
/// Source: RFC 8259; which members there are is this project's profile.
pub fn add_json_name<S: TextWriter>(text: &mut S, name: Name)
    ensures { Adds S.added text.old (json_name name) text.new }
{
    text.add(b"\"name\":\"");
    add_bytes(text, &name);
    text.add(b"\",\"name_hex\":\"");
    add_hex(text, &name);
    text.add(b"\"");
}

/// What is before an item of an array on the line of the item before it: a comma, and nothing before
/// the first item.
/// Source: RFC 8259.
pub fn comma(first: bool) -> &'static [u8]
    ensures { result.now ≡ comma_unless first }
{
    if first { b"" } else { b"," }
}

/// What is before an item of an array on a line of its own: the end of the line before, with a comma
/// but for the first item.
/// Source: RFC 8259; the lines are this project's profile.
pub fn separator(first: bool) -> &'static [u8]
    ensures { result.now ≡ line_end first }
{
    if first { b"\n" } else { b",\n" }
}

/// A word for true or false.
pub(crate) fn json_bool(value: bool) -> &'static [u8]
    ensures { result.now ≡ json_bool_spec value }
{
    if value { b"true" } else { b"false" }
}

/// Adds a number after this text, or `null` where there is none.
pub fn add_number_or_null<S: TextWriter>(text: &mut S, before: &[u8], number: Option<usize>)
    ensures { Adds S.added text.old (before.now ++ number_or_null number) text.new }
{
    match number {
        Some(number) => add_number(text, before, number),
        None => {
            text.add(before);
            text.add(b"null");
        }
    }
}

/// Adds the members of a name, both `null` where there is none.
pub fn add_name_members<S: TextWriter>(text: &mut S, name: Option<Name>)
    ensures { Adds S.added text.old (name_members name) text.new }
{
    match name {
        Some(name) => add_json_name(text, name),
        None => text.add(b"\"name\":null,\"name_hex\":null"),
    }
}

/// Adds the object of a name, or `null` where there is none.
pub fn add_name_or_null<S: TextWriter>(text: &mut S, name: Option<Name>)
    ensures { Adds S.added text.old (name_or_null name) text.new }
{
    match name {
        Some(name) => {
            text.add(b"{");
            add_json_name(text, name);
            text.add(b"}");
        }
        None => text.add(b"null"),
    }
}

/// Adds the members of a reason: its number, its name, and its kind word.
#[tactic(auto, unfolding(crate::specs::FaultJson::reason_members))]
fn add_reason_members<S: TextWriter>(text: &mut S, reason: Reason)
    ensures { Adds S.added text.old (reason_members reason) text.new }
{
    add_number(text, b"\"number\":", reason.number());
    text.add(b",\"reason\":\"");
    text.add(reason.name().as_bytes());
    add_number_or_null(text, b"\",\"kind\":", reason.kind().map(usize::from));
}

/// Adds the members of the place of a fault: its file, its slot, its record and its reference.
#[tactic(auto, unfolding(crate::specs::FaultJson::place_members))]
fn add_place_members<S: TextWriter>(text: &mut S, fault: Fault)
    ensures { Adds S.added text.old (place_members fault) text.new }
{
    add_number(text, b",\"file\":", fault.file);
    add_number_or_null(text, b",\"slot\":", fault.slot.map(usize::from));
    add_number_or_null(text, b",\"record\":", fault.rec);
    add_number_or_null(text, b",\"reference\":", fault.reference);
}

/// Adds a fault as an object: its number, its reason and its kind word, its parts, and the name of
/// what it is about, each `null` where there is none.
/// Source: RFC 8259.
#[tactic(auto, unfolding(crate::specs::FaultJson::fault_json))]
pub fn add_json_fault<S: TextWriter>(text: &mut S, fault: Fault, name: Option<Name>)
    ensures { Adds S.added text.old (fault_json name fault) text.new }
{
    text.add(b"{");
    add_reason_members(text, fault.reason);
    add_place_members(text, fault);
    text.add(b",");
    add_name_members(text, name);
    text.add(b"}");
}

/// The letter that stands for a character after a backslash.
fn escape_letter(c: char) -> Option<u8>
    ensures { result ≡ escape_letter_spec c }
{
    match c {
        '"' => Some(b'"'),
        '\\' => Some(b'\\'),
        '\u{8}' => Some(b'b'),
        '\t' => Some(b't'),
        '\n' => Some(b'n'),
        '\u{C}' => Some(b'f'),
        '\r' => Some(b'r'),
        _ => None,
    }
}

/// Adds a character inside a string that has no letter of its own.
fn add_other_char<S: TextWriter>(text: &mut S, c: char)
    ensures { Adds S.added text.old (other_char c) text.new }
{
    if c.is_control() {
        text.add(b"\\u00");
        text.add(&hex_digits((c as u32 % 256) as u8));
    } else {
        let mut room = [0; 4];
        text.add(c.encode_utf8(&mut room).as_bytes());
    }
}

/// Adds a character inside a string.
#[tactic(auto, unfolding(crate::specs::JsonStrings::json_char))]
fn add_json_char<S: TextWriter>(text: &mut S, c: char)
    ensures { Adds S.added text.old (json_char c) text.new }
{
    match escape_letter(c) {
        Some(letter) => text.add(&[b'\\', letter]),
        None => add_other_char(text, c),
    }
}

/// Adds what is inside a string: a quote, a backslash and five control characters by a letter after
/// a backslash, any other control character by its number, and any other character as it is.
/// Source: RFC 8259; that DEL and the control characters from U+0080 on are escaped is this project's
/// profile.
pub fn add_json_text<S: TextWriter>(text: &mut S, string: &str)
    ensures { Adds S.added text.old (json_text string.now) text.new }
{
    for c in string.chars() {
        add_json_char(text, c);
    }
}

/// Adds the references of a record.
pub(crate) fn add_references<S: TextWriter>(text: &mut S, refs: &Refs)
    ensures { Adds S.added text.old (references_member refs.now) text.new }
{
    text.add(b",\"references\":[");
    add_places(text, refs);
    text.add(b"]");
}

#[tactic(auto, using(std::proofs::lemmas::List::drop_more, crate::proofs::Numbered::numbered_left, crate::proofs::Numbered::numbered_over, crate::proofs::Written::all_written, crate::proofs::Written::none_yet, crate::proofs::Written::some_more))]
fn add_places<S: TextWriter>(text: &mut S, refs: &Refs)
    ensures { Adds S.added text.old
        (flat_map reference_item (enumerate_from 0 refs.now)) text.new }
{
    for index in 0..refs.len() {
        add_place(text, index, refs.get(index));
    }
}

fn add_place<S: TextWriter>(text: &mut S, index: usize, place: u16)
    ensures { Adds S.added text.old (reference_item (index, place)) text.new }
{
    add_number(text, comma(index == 0), place);
}
