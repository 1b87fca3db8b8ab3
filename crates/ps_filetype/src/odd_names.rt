//! Names that look wrong, and names as they ought to be written.
ghost use Rattle.std.specs.Prelude.{Some, ◌<◌, ◌≡◌};
ghost use Rattle.std.specs.List.{list_all, range_with_len};
ghost use Rattle.ps_filetype.specs.Names.{is_alike_at as is_alike_at_spec, is_near as is_near_spec, is_padding as is_padding_spec, is_respelled as is_respelled_spec, plain as plain_spec, plain_byte as plain_byte_spec};
ghost use Rattle.ps_filetype.specs.TypeWords.{oddity_words};

use ps_codefile::is_nameless;
use ps_words::{NAME_LEN, Name};
use std::fmt::{self, Formatter};
use std::ops::RangeInclusive;

/// How a name is odd.
#[derive(Clone, Copy)]
pub enum Oddity {
    HighBytes,
    ControlBytes,
    Zeros,
    SmallLetters,
}

impl Oddity {
    /// How it is odd.
    fn words(&self) -> &'static str
        ensures { result.now ≡ oddity_words self.now }
    {
        match self {
            Oddity::HighBytes => "has bytes above 127",
            Oddity::ControlBytes => "has control bytes",
            Oddity::Zeros => "is padded with zeros where blanks are expected",
            Oddity::SmallLetters => "has small letters, and other names have capitals",
        }
    }
}

impl fmt::Display for Oddity {
    ghost output = { λ oddity. Some (oddity_words oddity) };

    fn fmt<W: fmt::Write>(&self, f: &mut Formatter<W>) -> fmt::Result {
        f.write_str(self.words())
    }
}

/// One of these bytes is in the name.
pub fn has_any(name: &Name, bytes: RangeInclusive<u8>) -> bool {
    for byte in name {
        if bytes.contains(byte) {
            return true;
        }
    }
    false
}

/// How a name is odd; none where it is as a compiler writes it, or no name. Small letters are odd
/// only where other names have capitals.
pub fn oddity_of(name: &Name, are_small: bool) -> Option<Oddity> {
    if is_nameless(name) || !has_any(name, 0..=0x1F) && !has_any(name, b'a'..=0xFF) {
        None
    } else if has_any(name, 0x80..=0xFF) {
        Some(Oddity::HighBytes)
    } else if has_any(name, 0x01..=0x1F) || name.contains(&0x7F) {
        Some(Oddity::ControlBytes)
    } else if name.contains(&0) {
        Some(Oddity::Zeros)
    } else if !are_small && has_any(name, b'a'..=b'z') {
        Some(Oddity::SmallLetters)
    } else {
        None
    }
}

/// A byte of a name as it ought to be written: without bit 7, a capital letter, and a blank for a 0.
fn plain_byte(byte: u8) -> u8
    ensures { result ≡ plain_byte_spec byte }
{
    match byte % 128 {
        0 => b' ',
        low => low.to_ascii_uppercase(),
    }
}

/// A name as it ought to be written where a careless hand wrote it in small letters, with high bits
/// set, or with zeros for blanks.
pub fn plain(name: &Name) -> Name
    ensures { result ≡ plain_spec name.now }
{
    let mut plain = [0; NAME_LEN];
    for i in 0..NAME_LEN {
        plain[i] = plain_byte(name[i]);
    }
    plain
}

/// The names differ, and only in small letters, high bits, or zeros where blanks are expected.
pub fn is_near(a: &Name, b: &Name) -> bool
    ensures { result ≡ is_near_spec a.now b.now }
{
    a != b && plain(a) == plain(b)
}

/// The byte may pad a name: a blank, or a 0 in its place.
fn is_padding(byte: u8) -> bool
    ensures { result ≡ is_padding_spec byte }
{
    byte == b' ' || byte == 0
}

/// Each of these bytes may pad a name.
fn are_padding(rest: &[u8]) -> bool
    ensures { result ≡ list_all is_padding_spec rest.now }
{
    rest.iter().all(|byte| is_padding(*byte))
}

/// At this place the names have one letter, a capital or a small one, or both have padding from here
/// on.
fn is_alike_at(a: &Name, b: &Name, place: usize) -> bool
    requires { place < 8 }
    ensures { result ≡ is_alike_at_spec a.now b.now place }
{
    a[place].to_ascii_uppercase() == b[place].to_ascii_uppercase()
        || are_padding(&a[place..]) && are_padding(&b[place..])
}

/// At each place the names have one letter or both have padding from there on.
fn are_alike(a: &Name, b: &Name) -> bool
    ensures { result ≡ list_all (is_alike_at_spec a.now b.now) (range_with_len 0 8) }
{
    (0..NAME_LEN).all(|place| is_alike_at(a, b, place))
}

/// The names differ in capitals A to Z or in padding alone: blanks, or zeros in their place.
#[tactic(auto, unfolding(crate::specs::Names::is_respelled))]
pub fn is_respelled(a: &Name, b: &Name) -> bool
    ensures { result ≡ is_respelled_spec a.now b.now }
{
    a != b && are_alike(a, b)
}
