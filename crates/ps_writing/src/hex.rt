//! Bytes in hexadecimal digits.
ghost use Rattle.std.specs.Prelude.{◌≡◌, ◌<◌};
ghost use Rattle.std.specs.List.{flat_map};
ghost use Rattle.ps_writing.specs.Adding.{Adds};
ghost use Rattle.ps_writing.specs.Lines.{hex_byte, hex_digit as hex_digit_spec};

use crate::each::add_each;
use crate::text_writer::TextWriter;

/// A digit of a hexadecimal number, for a value below 16.
fn hex_digit(value: u8) -> u8
    requires { value < 16 }
    ensures { result ≡ hex_digit_spec value }
{
    if value < 10 {
        b'0' + value
    } else {
        b'A' + (value - 10)
    }
}

/// A byte in two hexadecimal digits.
pub(crate) fn hex_digits(byte: u8) -> [u8; 2]
    ensures { result ≡ hex_byte byte }
{
    [hex_digit(byte / 16), hex_digit(byte % 16)]
}

/// Adds these bytes in hexadecimal digits, two of each byte.
pub fn add_hex<S: TextWriter>(text: &mut S, bytes: &[u8])
    ensures { Adds S.added text.old (flat_map hex_byte bytes.now) text.new }
{
    add_each(text, bytes, |text, byte| text.add(&hex_digits(*byte)));
}
