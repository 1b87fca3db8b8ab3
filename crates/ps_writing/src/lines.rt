//! What the lines of text that map and show print are made of.
ghost use Rattle.std.specs.Prelude.{◌≡◌, ◌++◌, ◌∷◌, []};
ghost use Rattle.ps_writing.specs.Adding.{Adds};
ghost use Rattle.ps_writing.specs.Lines.{fault_words, shown_name, shown_byte, two_digits as two_digits_spec};

use crate::text_writer::TextWriter;
use itoa::{Buffer, Integer};
use ps_words::{Name, Reason};

/// Adds a number after this text.
#[inline(always)]
pub fn add_number<S: TextWriter, I: Integer>(text: &mut S, before: &[u8], number: I)
    ensures { Adds S.added text.old (before.now ++ I.text number) text.new }
{
    text.add(before);
    text.add(Buffer::new().format(number).as_bytes());
}

/// A byte of a name as a line shows it: itself where ASCII prints it, and otherwise a question
/// mark.
pub(crate) fn shown_code(byte: u8) -> u8
    ensures { result ≡ shown_byte byte }
{
    match byte {
        b' '..=b'~' => byte,
        _ => b'?',
    }
}

/// A name as a line shows it, in eight characters: a byte that ASCII does not print is a question
/// mark.
pub fn shown_codes(name: Name) -> [u8; 8]
    ensures { result ≡ shown_name name }
{
    let [a, b, c, d, e, f, g, h] = name;
    [
        shown_code(a),
        shown_code(b),
        shown_code(c),
        shown_code(d),
        shown_code(e),
        shown_code(f),
        shown_code(g),
        shown_code(h),
    ]
}

/// A number below 100, as that of a slot, in two digits.
pub fn two_digits(number: u8) -> [u8; 2]
    ensures { result ≡ two_digits_spec number }
{
    [b'0' + number / 10, b'0' + number % 10]
}

/// Adds a slot, which is below 100, and a name after this text.
#[inline(always)]
pub fn add_slot_name<S: TextWriter>(text: &mut S, before: &[u8], slot: u8, name: Name)
    ensures { Adds S.added text.old
        (before.now ++ two_digits_spec slot ++ (32 ∷ []) ++ shown_name name) text.new }
{
    text.add(before);
    text.add(&two_digits(slot));
    text.add(b" ");
    text.add(&shown_codes(name));
}

/// Adds a fault as a line has it: its number and its reason.
pub(crate) fn add_fault_words<S: TextWriter>(text: &mut S, reason: Reason)
    ensures { Adds S.added text.old (fault_words reason) text.new }
{
    add_number(text, b"fault ", reason.number());
    text.add(b" ");
    text.add(reason.name().as_bytes());
}
