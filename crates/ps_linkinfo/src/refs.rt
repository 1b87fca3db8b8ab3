ghost use Rattle.std.specs.Prelude.{◌≡◌, ◌<◌, ◌≤◌, ◌*◌, ◌↔◌, [], IsTrue, length, slice_index};
ghost use Rattle.ps_linkinfo.specs.Refs.{order_with as order_with_spec, words_of};

use crate::record_layout::MAX_REFERENCES;
use ps_words::{Order, WORD_LEN, get};
use std::marker::Model;

/// The references of a record, a view of its list: each is the byte offset of an operand's first
/// byte from the segment's first byte. There are at most `MAX_REFERENCES`.
///
/// Source: the published II.0 Linker source; that the offset counts from the segment's first byte
/// is this project's profile.
#[derive(Debug, Drop)]
pub struct Refs<'a> {
    /// Which byte of a word is its low byte: 0 in little-endian order, 1 in big-endian order. It is
    /// as wide as the other fields, so that records are copied without padding.
    low: usize,
    bytes: &'a [u8],
}

// Clauses see the list of its references.
impl<'a> Model for Refs<'a> {
    ghost use Rattle.std.specs.Prelude.{List, ℕ, ◌≤◌, ◌*◌, length};
    ghost use Rattle.ps_linkinfo.specs.Refs.{order_with, words_of};
    ghost use Rattle.ps_linkinfo.specs.declared.record_layout.TheConstants.{MAX_REFERENCES};

    ghost Value = { List ℕ };

    ghost view = { λ r. words_of (order_with r.low) r.bytes.now };

    ghost invariant = { λ r. length r.bytes.now ≤ 2 * MAX_REFERENCES };
}

/// Which byte of a word is its low byte.
fn low_of(order: Order) -> usize
    ensures { order_with_spec result ≡ order }
{
    match order {
        Order::Little => 0,
        Order::Big => 1,
    }
}

/// The order of words of which this byte is the low one.
fn order_with(low: usize) -> Order
    ensures { result ≡ order_with_spec low }
{
    match low {
        0 => Order::Little,
        _ => Order::Big,
    }
}

impl<'a> Refs<'a> {
    /// The words of the bytes, in that order.
    pub(crate) fn new(order: Order, bytes: &'a [u8]) -> Self
        requires { length bytes.now ≤ 2 * MAX_REFERENCES }
        ensures { result ≡ words_of order bytes.now }
    {
        Refs {
            low: low_of(order),
            bytes,
        }
    }

    /// How many references there are, at most `MAX_REFERENCES`.
    /// Source: the published II.0 Linker source.
    #[tactic(auto, using(crate::proofs::ReferenceWords::words_len))]
    pub fn len(&self) -> usize
        ensures len { result ≡ length self.now }
        ensures few { result ≤ MAX_REFERENCES }
    {
        self.bytes.len() / WORD_LEN
    }

    /// Whether the list has no reference.
    /// Source: the published II.0 Linker source.
    pub fn is_empty(&self) -> bool
        ensures { IsTrue result ↔ (self.now ≡ []) }
    {
        self.len() == 0
    }

    /// The reference at an index, which is below `len`.
    /// Source: the published II.0 Linker source.
    #[tactic(auto, using(crate::proofs::ReferenceWords::words_len, crate::proofs::ReferenceWords::words_get))]
    pub fn get(&self, index: usize) -> u16
        requires { index < length self.now }
        ensures { result ≡ slice_index self.now index }
    {
        get(order_with(self.low), self.bytes, WORD_LEN * index)
    }
}
