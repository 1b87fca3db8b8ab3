ghost use Rattle.std.specs.Prelude.{◌≡◌};
ghost use Rattle.ps_words.specs.FaultPlaces.{in_record, in_reference};
ghost use Rattle.ps_resolve.specs.declared.linkage.Stop.TheVariants.{Memory, Refused};

use ps_reading::{RecordAt, SegmentAt};
use ps_words::{Fault, Order, Reason};
use std::alloc::{AllocError, AllocFailed};

/// The link information of a segment, and where a fault of it is.
#[derive(Clone, Copy)]
pub struct Linkage<'a> {
    /// The file that the segment comes from: 0 is the host file, k the k-th library, from 1.
    pub file: usize,
    /// The segment's slot in the host's segment dictionary, 0 to 15.
    pub slot: u8,
    /// The byte order of the file's words.
    pub order: Order,
    /// The file from the first record on. What is after the end mark is not read.
    pub bytes: &'a [u8],
}

impl<'a> Linkage<'a> {
    /// Where the segment is.
    pub(crate) fn place(&self) -> SegmentAt
        ensures { result ≡ record { file = self.now.file; slot = self.now.slot } }
    {
        SegmentAt {
            file: self.file,
            slot: self.slot,
        }
    }
}

/// Why nothing was built.
#[derive(Drop)]
pub enum Stop {
    /// The inputs have this fault.
    Refused(Fault),
    /// Memory ran out.
    Memory,
}

impl Stop {
    /// The record that is there has this fault.
    pub(crate) fn in_record(place: RecordAt, reason: Reason) -> Stop
        ensures { result
            ≡ Refused (in_record place.segment.file place.segment.slot place.rec reason) }
    {
        Stop::Refused(place.fault(reason))
    }

    /// The reference of this index, from 0, of the record that is there has this fault.
    pub(crate) fn in_reference(place: RecordAt, reference: usize, reason: Reason) -> Stop
        ensures { result ≡ Refused
            (in_reference place.segment.file place.segment.slot place.rec reference reason) }
    {
        let SegmentAt { file, slot } = place.segment;
        Stop::Refused(Fault::in_reference(file, slot, place.rec, reference, reason))
    }
}

impl From<AllocError> for Stop {
    ghost from_gives = { λ _ e. e ≡ Memory };

    fn from(_e: AllocError) -> Stop {
        Stop::Memory
    }
}

impl<T: Drop> From<AllocFailed<T>> for Stop {
    ghost from_gives = { λ _ e. e ≡ Memory };

    fn from(_e: AllocFailed<T>) -> Stop {
        Stop::Memory
    }
}
