ghost use Rattle.std.specs.Prelude.{◌≡◌, ◌==◌, [], length, IfOk, IfErr, Some, None};
ghost use Rattle.ps_linkinfo.specs.Records.{reading};
ghost use Rattle.ps_linkinfo.specs.RecordCounts.{definitions_in, privates_in, publics_in, units_in, references_in, next_of, digest_of, record_counts_of};
ghost use Rattle.ps_linkinfo.specs.Numbered.{numbered_records as numbered_spec};

use crate::numbered::NumberedRecords;
use crate::record_counts::RecordCounts;
use ps_words::{Order, Reason};
use std::hash::{DefaultHasher, Hasher};
use std::marker::Model;

/// Why link information was not read.
///
/// Source: the reasons are this project's profile.
#[derive(Clone, Copy, Debug, PartialEq, Eq)]
pub struct ReadFault {
    /// How many records are before the fault, so the index, from 0, of the record that could not be
    /// read.
    pub rec: usize,
    /// Why it could not be read: one of the reasons that [`LinkInformation::read`] lists.
    pub reason: Reason,
}

/// Link information that was read whole: its records up to the EOFMARK, which is included, and
/// their counts. Contracts see it as the list of its records.
///
/// A `LinkInformation` borrows the bytes and takes no memory. A segment whose link information is
/// not read has [`none`](LinkInformation::none).
///
/// Source: the published II.0 Linker source.
#[derive(Drop)]
pub struct LinkInformation<'a> {
    order: Order,
    /// The value of the EOFMARK, 0 where there is none.
    next: u16,
    bytes: &'a [u8],
    /// How many records are a PUBLDEF or a CONSTDEF.
    definitions: usize,
    /// How many are a PRIVREF.
    privates: usize,
    /// How many are a PUBLREF.
    publics: usize,
    /// How many are a UNITREF.
    units: usize,
    /// How many references they have.
    references: usize,
}

// Clauses see the list of its records.
impl<'a> Model for LinkInformation<'a> {
    ghost use Rattle.std.specs.Prelude.{List};
    ghost use Rattle.ps_linkinfo.specs.Records.{reading};
    ghost use Rattle.ps_linkinfo.specs.RecordCounts.{AreCounted};
    ghost use Rattle.ps_linkinfo.specs.declared.record.LinkRecord.{LinkRecord as Record};

    ghost Value = { List Record };

    ghost view = { λ i. (reading i.order i.bytes.now).0 };

    ghost invariant = { λ i. AreCounted (reading i.order i.bytes.now).0 i.definitions i.privates i.publics i.units i.references i.next };
}

impl<'a> LinkInformation<'a> {
    /// The records of these bytes, up to the EOFMARK or up to the first fault, which have these
    /// counts.
    fn counted(order: Order, bytes: &'a [u8], counts: RecordCounts) -> Self
        requires { counts ≡ record_counts_of (reading order bytes.now).0 }
        ensures { result ≡ (reading order bytes.now).0 }
    {
        LinkInformation {
            order,
            next: counts.next,
            bytes,
            definitions: counts.definitions,
            privates: counts.privates,
            publics: counts.publics,
            units: counts.units,
            references: counts.references,
        }
    }

    /// No records at all, not even an EOFMARK.
    pub fn none() -> Self
        ensures { result ≡ [] }
    {
        LinkInformation::counted(Order::Little, &[], RecordCounts::new())
    }

    /// The records up to the EOFMARK; what follows it is not read. The bytes spell these records,
    /// and no others.
    ///
    /// Refused at the first record that cannot be read, for the first reason that fits:
    /// - `RecordsTruncated` where fewer than 16 bytes are left, also where an EOFMARK is missing;
    /// - `UnknownRecord`, `NativeRecord` or `SeparateRecord` by its type;
    /// - `NativeRecord` for format 0, WORD, of a reference record, and `BadFormat` for another that
    ///   is not its own: 1, BYTE, of a UNITREF, 2, BIG, of a PUBLREF and a PRIVREF;
    /// - `RecordsTruncated` where its list is not whole.
    ///
    /// The reading takes no memory. Source: the published II.0 Linker source; the reasons and the
    /// pieces of a list are this project's profile.
    pub fn read(order: Order, bytes: &'a [u8]) -> Result<Self, ReadFault>
        ensures read { IfOk result (λ records. reading order bytes.now ≡ (records, None)) }
        ensures rec { IfErr result (λ fault. fault.rec ≡ length (reading order bytes.now).0) }
        ensures reason { IfErr result (λ fault. (reading order bytes.now).1 ≡ Some fault.reason) }
    {
        let (counts, fault) = RecordCounts::read(order, bytes);
        match fault {
            None => Ok(LinkInformation::counted(order, bytes, counts)),
            Some(reason) => Err(ReadFault {
                rec: counts.records,
                reason,
            }),
        }
    }

    /// The records up to the EOFMARK or up to the first fault, whichever comes first. It takes no
    /// memory.
    pub fn up_to_fault(order: Order, bytes: &'a [u8]) -> Self
        ensures { result ≡ (reading order bytes.now).0 }
    {
        let (counts, _) = RecordCounts::read(order, bytes);
        LinkInformation::counted(order, bytes, counts)
    }

    /// A copy of the link information, which borrows the same bytes.
    pub fn copy(&self) -> LinkInformation<'a>
        ensures { result ≡ self.now }
    {
        LinkInformation { ..*self }
    }

    /// How many records there are, the EOFMARK included. They are walked, since no link asks.
    pub fn len(&self) -> usize
        ensures { result ≡ length self.now }
    {
        let mut len = 0;
        for _ in NumberedRecords::new(self.order, self.bytes) {
            len += 1;
        }
        len
    }

    /// There is no record, not even an EOFMARK.
    pub fn is_empty(&self) -> bool
        ensures { result ≡ (length self.now == 0) }
    {
        match self.records().next() {
            Some(_) => false,
            None => true,
        }
    }

    /// How many records define a name of the host: PUBLDEF and CONSTDEF.
    /// Source: the published II.0 Linker source.
    pub fn definitions(&self) -> usize
        ensures { result ≡ definitions_in self.now }
    {
        self.definitions
    }

    /// How many records request a private variable: PRIVREF.
    /// Source: the published II.0 Linker source.
    pub fn privates(&self) -> usize
        ensures { result ≡ privates_in self.now }
    {
        self.privates
    }

    /// How many records request a public variable: PUBLREF.
    /// Source: the published II.0 Linker source.
    pub fn publics(&self) -> usize
        ensures { result ≡ publics_in self.now }
    {
        self.publics
    }

    /// How many records request a unit: UNITREF.
    /// Source: the published II.0 Linker source.
    pub fn units(&self) -> usize
        ensures { result ≡ units_in self.now }
    {
        self.units
    }

    /// How many references all records have together.
    /// Source: the published II.0 Linker source.
    pub fn references(&self) -> usize
        ensures { result ≡ references_in self.now }
    {
        self.references
    }

    /// The next free base offset in words, the value of the EOFMARK: 0 to `MAX_WORD`, and 0 where
    /// there are no records.
    /// Source: the published II.0 Linker source.
    pub fn next(&self) -> u16
        ensures { result ≡ next_of self.now }
    {
        self.next
    }

    /// The state of a hash of the names of the records that define a name or request a private:
    /// eight bytes each, in the order of the records, and nothing else.
    #[tactic(auto, using(crate::proofs::Digests::all_left, crate::proofs::Digests::taken, crate::proofs::Digests::passed))]
    pub fn digest(&self) -> DefaultHasher
        ensures { result ≡ digest_of self.now }
    {
        let mut digest = DefaultHasher::new();
        for (_, record) in self.records() {
            if record.declares_name() {
                digest.write(&record.name);
            }
        }
        digest
    }

    /// Each record with its index, from 0.
    pub fn records(&self) -> NumberedRecords<'a>
        ensures { result ≡ numbered_spec 0 self.now }
    {
        NumberedRecords::new(self.order, self.bytes)
    }
}
