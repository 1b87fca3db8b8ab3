//! Names as they are shown.
ghost use Rattle.std.specs.Prelude.{◌≡◌, Some};
ghost use Rattle.std.specs.Fmt.{WritesOnOk};
ghost use Rattle.std.specs.List.{flat_map, list_all};
ghost use Rattle.ps_filetype.specs.Shown.{is_printed as is_printed_spec, is_quoted as is_quoted_spec, quotes as quotes_spec, shown_byte, shown_name, trimmed as trimmed_spec};

use ps_words::Name;
use std::fmt::{self, Formatter};

/// A name in a line for a person: without the blanks that fill it up, or, where it is blank or has
/// a byte that ASCII does not print, in quotes with each such byte as `\x` and two digits.
#[derive(Clone, Copy)]
pub struct ShownName(pub Name);

/// ASCII prints the byte.
fn is_printed(byte: u8) -> bool
    ensures { result ≡ is_printed_spec byte }
{
    byte == b' ' || byte.is_ascii_graphic()
}

/// Writes a byte of a name: as it is, or as `\x` and two digits.
#[tactic(auto, using(std::proofs::lemmas::Fmt::hex_byte))]
fn write_byte<W: fmt::Write>(f: &mut Formatter<W>, byte: u8) -> fmt::Result
    ensures { WritesOnOk W.write_str_gives f.old result (shown_byte byte) f.new }
{
    if is_printed(byte) {
        f.write_char(char::from(byte))
    } else {
        write!(f, "\\x{byte:02x}")
    }
}

/// The bytes of a name, one after another.
#[derive(Clone, Copy)]
struct ShownBytes<'a>(&'a [u8]);

impl fmt::Display for ShownBytes<'_> {
    ghost output = { λ bytes. Some (flat_map shown_byte bytes.0.now) };

    fn fmt<W: fmt::Write>(&self, f: &mut Formatter<W>) -> fmt::Result {
        for byte in self.0 {
            write_byte(f, *byte)?;
        }
        Ok(())
    }
}

/// The name without the blanks at its end.
fn trimmed(name: &[u8]) -> &[u8]
    ensures { result.now ≡ trimmed_spec name.now }
{
    let mut used = 0usize;
    for (place, byte) in name.iter().enumerate() {
        if *byte != b' ' {
            used = place + 1;
        }
    }
    &name[..used]
}

/// ASCII prints each byte.
fn are_printed(text: &[u8]) -> bool
    ensures { result ≡ list_all is_printed_spec text.now }
{
    text.iter().all(|byte| is_printed(*byte))
}

/// The name has to be in quotes.
fn is_quoted(text: &[u8]) -> bool
    ensures { result ≡ is_quoted_spec text.now }
{
    text.is_empty() || !are_printed(text)
}

/// What stands before and after a name.
fn quotes(quoted: bool) -> &'static str
    ensures { result.now ≡ quotes_spec quoted }
{
    if quoted { "\"" } else { "" }
}

impl fmt::Display for ShownName {
    ghost output = { λ name. Some (shown_name name.0) };

    #[tactic(auto, unfolding(crate::specs::Shown::shown_name))]
    fn fmt<W: fmt::Write>(&self, f: &mut Formatter<W>) -> fmt::Result {
        let text = trimmed(&self.0);
        let quotes = quotes(is_quoted(text));
        let text = ShownBytes(text);
        write!(f, "{quotes}{text}{quotes}")
    }
}
