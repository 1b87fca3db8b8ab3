ghost use Rattle.std.specs.Prelude.{◌≡◌};
ghost use Rattle.std.specs.Iterator.{YieldsFirst, item_count};
ghost use Rattle.ps_linkinfo.specs.Records.{reading};
ghost use Rattle.ps_linkinfo.specs.Numbered.{numbered_records as numbered_spec};

use crate::record::LinkRecord;
use crate::records::Records;
use ps_words::Order;
use std::iter::FusedIterator;
use std::marker::Model;

/// The records of [`LinkInformation`](crate::LinkInformation) one by one, each with its index from
/// 0, up to and with the EOFMARK. Contracts see it as the list of the pairs that are left.
///
/// The walk takes no memory, and is that of [`Records`](crate::Records): a fault after the records
/// is not given.
#[derive(Drop)]
pub struct NumberedRecords<'a> {
    records: Records<'a>,
    index: usize,
}

// Clauses see the list of the indices and records that are left.
impl<'a> Model for NumberedRecords<'a> {
    ghost use Rattle.std.specs.Prelude.{ℕ, ◌<◌, ◌+◌, ◌^◌, List, length};
    ghost use Rattle.ps_linkinfo.specs.Left.{records_left};
    ghost use Rattle.ps_linkinfo.specs.Numbered.{numbered_records};
    ghost use Rattle.ps_linkinfo.specs.declared.record.LinkRecord.{LinkRecord as Record};

    ghost Value = { List (ℕ × Record) };

    ghost view = { λ w. numbered_records w.index (records_left w.records) };

    ghost invariant = { λ w. w.index + length (records_left w.records) < 2 ^ 63 };
}

impl<'a> NumberedRecords<'a> {
    /// A walk over the records of the bytes, up to the EOFMARK or up to the first fault.
    #[tactic(auto, using(crate::proofs::Walks::records_first, crate::proofs::Walks::few))]
    pub(crate) fn new(order: Order, bytes: &'a [u8]) -> Self
        ensures { result ≡ numbered_spec 0 (reading order bytes.now).0 }
    {
        NumberedRecords {
            records: Records::new(order, bytes),
            index: 0,
        }
    }

    #[inline(always)]
    fn advance(&mut self) -> Option<(usize, LinkRecord<'a>)>
        ensures { YieldsFirst (λ rest. rest) self.old result self.new }
    {
        match self.records.next() {
            Some(Ok(record)) => {
                let index = self.index;
                self.index += 1;
                Some((index, record))
            }
            Some(Err(_)) | None => None,
        }
    }
}

impl<'a> Iterator for NumberedRecords<'a> {
    type Item = (usize, LinkRecord<'a>);

    ghost next_gives = { YieldsFirst (λ rest. rest) };

    ghost remaining = { item_count (λ rest. rest) };

    /// The next record with its index; None after the last one.
    #[inline(always)]
    fn next(&mut self) -> Option<(usize, LinkRecord<'a>)> {
        self.advance()
    }
}

impl FusedIterator for NumberedRecords<'_> {}
