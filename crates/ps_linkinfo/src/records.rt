ghost use Rattle.std.specs.Prelude.{◌≡◌};
ghost use Rattle.std.specs.Iterator.{YieldsFirst};
ghost use Rattle.ps_linkinfo.specs.Walk.{Advances, whole_walk};
ghost use Rattle.ps_linkinfo.specs.Left.{items_left};

use crate::first::first_record;
use crate::record::LinkRecord;
use ps_words::{Order, Reason};
use std::marker::Model;

/// The records one by one, up to and with the EOFMARK or up to the first fault, which is an item
/// too; then None for ever.
/// It takes no memory, and of n bytes it gives at most n / 16 + 1 items.
///
/// The records and the fault are those of [`read_records`](crate::read_records): the index of the
/// record that cannot be read is the number of records given before the fault.
///
/// Source: the published II.0 Linker source; the reasons are this project's profile.
#[derive(Drop)]
pub struct Records<'a> {
    order: Order,
    bytes: &'a [u8],
    used: usize,
    ended: bool,
}

// Clauses see a walk: its order, its bytes, how many of them the records given so far take, and
// whether it is over.
impl<'a> Model for Records<'a> {
    ghost use Rattle.std.specs.Prelude.{◌≤◌, length};
    ghost use Rattle.ps_linkinfo.specs.Walk.{Walk};

    ghost Value = { Walk };

    ghost view = { λ r. record { order = r.order; bytes = r.bytes.now; used = r.used; ended = r.ended } };

    ghost invariant = { λ r. r.used ≤ length r.bytes.now };
}

impl<'a> Records<'a> {
    /// A walk that begins at the first of the bytes.
    pub fn new(order: Order, bytes: &'a [u8]) -> Self
        ensures { result ≡ whole_walk order bytes.now }
    {
        Records {
            order,
            bytes,
            used: 0,
            ended: false,
        }
    }

    /// How many bytes the records given so far take. A fault takes none.
    pub fn used(&self) -> usize
        ensures { result ≡ self.now.used }
    {
        self.used
    }

    /// The next record, or the fault that occurs in its place.
    #[inline(always)]
    fn advance(&mut self) -> Option<Result<LinkRecord<'a>, Reason>>
        ensures step { Advances self.old result self.new }
        ensures first { YieldsFirst items_left self.old result self.new }
    {
        if self.ended {
            return None;
        }
        let (_, rest) = self.bytes.split_at(self.used);
        match first_record(self.order, rest) {
            Err(reason) => {
                self.ended = true;
                Some(Err(reason))
            }
            Ok((record, size)) => {
                self.ended = record.is_eof();
                self.used += size;
                Some(Ok(record))
            }
        }
    }
}

impl<'a> Iterator for Records<'a> {
    ghost use Rattle.ps_linkinfo.specs.Walk.{Advances, left_of};
    ghost use Rattle.std.specs.Iterator.{at_most, YieldsFirst};
    ghost use Rattle.ps_linkinfo.specs.Left.{items_left};

    type Item = Result<LinkRecord<'a>, Reason>;

    // What may come next, by what is at `used`; and that it is the first of the items left.
    ghost next_gives = { λ s r t. Advances s r t × YieldsFirst items_left s r t };

    ghost remaining = { λ s. at_most (left_of s) };

    /// The next record, or the fault that occurs in its place; None once an EOFMARK or a fault was
    /// given.
    #[inline(always)]
    fn next(&mut self) -> Option<Result<LinkRecord<'a>, Reason>> {
        self.advance()
    }
}
