ghost use Rattle.std.specs.Prelude.{◌≡◌, ◌<◌, ◌^◌, [], ◌∷◌, ◌++◌, List, false, length};
ghost use Rattle.std.specs.List.{AllByRecursion};
ghost use Rattle.ps_linkinfo.specs.RecordCounts.{record_counts_of};
ghost use Rattle.ps_linkinfo.specs.Records.{is_eof, reading};
ghost use Rattle.ps_linkinfo.specs.declared.record.LinkRecord.{LinkRecord as Record};

use crate::record::{Body, LinkRecord};
use crate::records::Records;
use ps_words::{Order, Reason};

/// How many records there are of each type, their references, and the value of their EOFMARK.
#[derive(Clone, Copy)]
pub(crate) struct RecordCounts {
    /// How many there are.
    pub(crate) records: usize,
    /// How many of them are a PUBLDEF or a CONSTDEF.
    pub(crate) definitions: usize,
    /// How many of them are a PRIVREF.
    pub(crate) privates: usize,
    /// How many of them are a PUBLREF.
    pub(crate) publics: usize,
    /// How many of them are a UNITREF.
    pub(crate) units: usize,
    /// How many references they have.
    pub(crate) references: usize,
    /// The value of the EOFMARK, 0 where there is none.
    pub(crate) next: u16,
}

impl RecordCounts {
    /// The counts of no records.
    pub(crate) fn new() -> Self
        ensures { result ≡ record_counts_of [] }
    {
        RecordCounts {
            records: 0,
            definitions: 0,
            privates: 0,
            publics: 0,
            units: 0,
            references: 0,
            next: 0,
        }
    }

    /// The counts of the records up to the EOFMARK or up to the first fault, and that fault.
    pub(crate) fn read(order: Order, bytes: &[u8]) -> (Self, Option<Reason>)
        ensures counts { result.0 ≡ record_counts_of (reading order bytes.now).0 }
        ensures fault { result.1 ≡ (reading order bytes.now).1 }
    {
        let mut counts = RecordCounts::new();
        for item in Records::new(order, bytes) {
            match item {
                Ok(record) => counts.add(&record),
                Err(reason) => return (counts, Some(reason)),
            }
        }
        (counts, None)
    }

    /// Counts one record more.
    #[inline(always)]
    fn add(&mut self, entry: &LinkRecord)
        requires few { (before : List Record) × (self.old ≡ record_counts_of before)
            × (length before < 2 ^ 62) }
        requires room { self.old.references < 2 ^ 62 }
        ensures { (before : List Record) → self.old ≡ record_counts_of before
            → AllByRecursion (λ r. is_eof r ≡ false) before
            → self.new ≡ record_counts_of (before ++ entry.now ∷ []) }
    {
        self.records += 1;
        match &entry.body {
            Body::UnitRef(refs) => {
                self.units += 1;
                self.references += refs.len();
            }
            Body::PublRef(refs) => {
                self.publics += 1;
                self.references += refs.len();
            }
            Body::PrivRef { refs, .. } => {
                self.privates += 1;
                self.references += refs.len();
            }
            Body::PublDef(_) | Body::ConstDef(_) => self.definitions += 1,
            Body::Eof(next) => self.next = *next,
        }
    }
}
