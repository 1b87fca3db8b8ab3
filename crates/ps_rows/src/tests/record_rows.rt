//! Link information as rows of a text: records, the length that they are truncated to, and what they
//! are read as in either byte order.
use super::answers::is;
use super::rows::{Row, fields};
use super::{link_information, record_walk, records};
use crate::code_file::Information;
use crate::notation::number_of;
use ps_words::Order;
use std::process::Abort;

/// The calls that read link information.
#[derive(Clone, Copy)]
pub(crate) enum Reader {
    /// `read_records`, which returns the records in a list.
    List,
    /// `Records`, which gives them one by one.
    Walk,
    /// `LinkInformation`, which has them by index.
    Index,
}

impl Reader {
    /// Checks what these bytes are read as.
    pub(crate) fn reads(
        self,
        rt: &(impl Abort + AllocGlobal),
        order: Order,
        bytes: &[u8],
        wanted: &str,
    ) {
        let alloc = rt.alloc();
        let line = match self {
            Reader::List => records::read(alloc, alloc, order, bytes),
            Reader::Walk => record_walk::walk(alloc, order, bytes),
            Reader::Index => link_information::read(alloc, order, bytes),
        };
        is(rt, "records", line, wanted)
    }

    /// Checks what these records are read as in a byte order, where they are truncated to this
    /// length.
    fn reads_records(
        self,
        rt: &(impl Abort + AllocGlobal),
        order: Order,
        (records, length): (&str, usize),
        wanted: &str,
    ) {
        let information = Information::new(rt, order, records);
        let bytes = information.as_slice().get(..length).unwrap_or(&[]);
        self.reads(rt, order, bytes, wanted)
    }

    /// Checks what these records are read as in either byte order, where they are truncated to this
    /// length.
    pub(crate) fn reads_in_either_order(
        self,
        rt: &(impl Abort + AllocGlobal),
        cut: (&str, usize),
        wanted: &str,
    ) {
        self.reads_records(rt, Order::Little, cut, wanted);
        self.reads_records(rt, Order::Big, cut, wanted)
    }
}

impl Row for Reader {
    fn check<R: Abort + AllocGlobal>(&self, rt: &R, row: &str) {
        let (records, length, wanted) = fields(rt, row);
        self.reads_in_either_order(rt, (records, number_of(rt, length)), wanted)
    }
}
