//! The text of a record's references, which is made a piece at a time.
ghost use Rattle.std.specs.Prelude.{◌≡◌, ◌<◌, ◌≤◌, ◌+◌, ◌-◌, ◌++◌, drop, length, take, flat_map};
ghost use Rattle.ps_writing.specs.Adding.{Adds};
ghost use Rattle.ps_writing.specs.Lines.{reference, references};

use crate::text_writer::TextWriter;
use itoa::write_digits;
use ps_linkinfo::Refs;

/// How many references a piece has, but for the last.
const PIECE_REFERENCES: usize = 64;

/// How many bytes their text takes at most: six for each, a blank and five digits.
const PIECE_TEXT_LEN: usize = 6 * PIECE_REFERENCES;

/// Writes the text of a reference so that it ends at `end`. Returns where it begins.
fn write_reference(place: u16, piece: &mut [u8; PIECE_TEXT_LEN], end: usize) -> usize
    requires room { 6 ≤ end }
    requires inside { end ≤ PIECE_TEXT_LEN }
    ensures begins { end ≤ result + 6 }
    ensures before { result < end }
    ensures text { drop result piece.new ≡ reference place ++ drop end piece.old }
{
    let digits = write_digits(place as u64, piece, end);
    let blank = digits - 1;
    piece[blank] = b' ';
    blank
}

/// Writes the text of the references from the index `from` on, up to `end`, so that it ends where
/// the piece does. Returns where it begins.
fn write_piece(refs: &Refs, from: usize, end: usize, piece: &mut [u8; PIECE_TEXT_LEN]) -> usize
    requires ordered { from ≤ end }
    requires within { end ≤ length refs.now }
    requires few { end ≤ from + PIECE_REFERENCES }
    ensures inside { result ≤ PIECE_TEXT_LEN }
    ensures text { drop result piece.new
        ≡ flat_map reference (take (end - from) (drop from refs.now)) }
{
    let mut start = PIECE_TEXT_LEN;
    for step in 0..end - from {
        start = write_reference(refs.get(end - 1 - step), piece, start);
    }
    start
}

/// Adds the text of the references from the index `from` on, of at most `PIECE_REFERENCES`.
fn add_piece<S: TextWriter>(text: &mut S, refs: &Refs, from: usize)
    requires { from ≤ length refs.now }
    ensures { Adds S.added text.old
        (flat_map reference (take PIECE_REFERENCES (drop from refs.now))) text.new }
{
    let mut piece = [0; PIECE_TEXT_LEN];
    let end = refs.len().min(from + PIECE_REFERENCES);
    let start = write_piece(refs, from, end, &mut piece);
    text.add(&piece[start..]);
}

/// Adds the references of a record.
pub(crate) fn add_references<S: TextWriter>(text: &mut S, refs: &Refs)
    ensures { Adds S.added text.old (references refs.now) text.new }
{
    text.add(b" at");
    for index in 0..refs.len().div_ceil(PIECE_REFERENCES) {
        add_piece(text, refs, PIECE_REFERENCES * index);
    }
}
