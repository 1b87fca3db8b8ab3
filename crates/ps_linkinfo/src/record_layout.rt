//! The layout of a link record, and the numbers of its types and formats.
//! Source: the published II.0 Linker source; the pieces of a list are this project's profile.
ghost use Rattle.std.specs.Prelude.{◌≡◌, ◌≤◌};
ghost use Rattle.ps_linkinfo.specs.Records.{list_len as list_len_spec};

use ps_words::MAX_WORD;

/// How many bytes a record has, without its list.
pub const RECORD_LEN: usize = 16;
/// The place of the type's number, after the name of eight bytes.
pub const TYPE_PLACE: usize = 8;
/// The place of the format of a reference record, of the value of a definition, and of the next
/// free base offset of an EOFMARK.
pub const FORMAT_PLACE: usize = 10;
/// The place of the number of references.
pub(crate) const COUNT_PLACE: usize = 12;
/// The place of the number of words of a PRIVREF.
pub(crate) const WORDS_PLACE: usize = 14;
/// How many words a piece of a list has.
pub(crate) const LIST_PIECE_WORDS: usize = 8;
/// How many bytes a piece of a list has.
pub(crate) const LIST_PIECE_LEN: usize = 16;
/// How many references a record has at most: their number is a word.
pub const MAX_REFERENCES: usize = MAX_WORD as usize;
/// How many bytes the list of so many takes.
pub const MAX_LIST_LEN: usize = LIST_PIECE_LEN
    * ((MAX_REFERENCES + LIST_PIECE_WORDS - 1) / LIST_PIECE_WORDS);

/// The end of link information.
pub(crate) const EOFMARK: u16 = 0;
/// References to a unit by the number of its segment.
pub(crate) const UNITREF: u16 = 1;
/// References to a global of an assembled procedure.
pub(crate) const GLOBREF: u16 = 2;
/// References to a public variable of the host.
pub(crate) const PUBLREF: u16 = 3;
/// References to a private variable of the segment.
pub(crate) const PRIVREF: u16 = 4;
/// References to a constant of the host.
pub(crate) const CONSTREF: u16 = 5;
/// The definition of a global of an assembled procedure.
pub(crate) const GLOBDEF: u16 = 6;
/// The definition of a public variable of the host.
pub(crate) const PUBLDEF: u16 = 7;
/// The definition of a constant of the host.
pub(crate) const CONSTDEF: u16 = 8;
/// An external procedure.
pub(crate) const EXTPROC: u16 = 9;
/// An external function.
pub(crate) const EXTFUNC: u16 = 10;
/// A separate procedure.
pub(crate) const SEPPROC: u16 = 11;
/// A separate function.
pub(crate) const SEPFUNC: u16 = 12;
/// References to a separate procedure.
pub(crate) const SEPPREF: u16 = 13;
/// References to a separate function.
pub(crate) const SEPFREF: u16 = 14;

/// The format of operands of a word, which native code has.
pub(crate) const WORD_FORMAT: u16 = 0;
/// The format of operands of one byte.
pub(crate) const BYTE_FORMAT: u16 = 1;
/// The format of BIG operands, of two bytes.
pub(crate) const BIG_FORMAT: u16 = 2;

/// How many bytes the list of so many references takes: its pieces, the last one whole.
pub(crate) fn list_len(count: usize) -> usize
    requires { count ≤ MAX_REFERENCES }
    ensures len { result ≡ list_len_spec count }
    ensures bounded { result ≤ MAX_LIST_LEN }
{
    LIST_PIECE_LEN * count.div_ceil(LIST_PIECE_WORDS)
}
