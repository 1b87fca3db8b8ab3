//! Where a segment of a link is, a record of its link information, and a reference of that record;
//! and where an entry of a file is.
ghost use Rattle.std.specs.Prelude.{◌≡◌};
ghost use Rattle.ps_words.specs.FaultPlaces.{in_record};

use ps_words::{Fault, Reason};

/// Where a segment is.
#[derive(Clone, Copy, Debug, PartialEq, Eq)]
pub struct SegmentAt {
    /// The file that it comes from: 0 is the host file, k the k-th library, from 1.
    pub file: usize,
    /// The slot of the segment in the host's segment dictionary, 0 to 15.
    pub slot: u8,
}

/// Where a record is.
#[derive(Clone, Copy, Debug, PartialEq, Eq)]
pub struct RecordAt {
    /// The segment that has the record.
    pub segment: SegmentAt,
    /// The record's index, from 0, in the segment's link information.
    pub rec: usize,
}

/// Where a reference is.
#[derive(Clone, Copy, Debug, PartialEq, Eq)]
pub struct ReferenceAt {
    /// The record that has the reference.
    pub at: RecordAt,
    /// The reference's index, from 0, in the record's list.
    pub reference: usize,
}

/// Where an entry of a segment dictionary is. Its slot there need not be that of its segment in the
/// host, so it is no `SegmentAt`.
#[derive(Clone, Copy, Debug, PartialEq, Eq)]
pub struct EntryAt {
    /// The file: 0 is the host file, k the k-th library, from 1.
    pub file: usize,
    /// The slot of the entry in the segment dictionary of that file, 0 to 15.
    pub index: u8,
}

impl SegmentAt {
    /// Where the record of this index, from 0, of the segment's link information is.
    pub fn record(self, rec: usize) -> RecordAt
        ensures { result ≡ record { segment = self; rec = rec } }
    {
        RecordAt { segment: self, rec }
    }
}

impl RecordAt {
    /// The fault of the record that has this reason.
    pub fn fault(self, reason: Reason) -> Fault
        ensures { result ≡ in_record self.segment.file self.segment.slot self.rec reason }
    {
        Fault::in_record(self.segment.file, self.segment.slot, self.rec, reason)
    }
}
