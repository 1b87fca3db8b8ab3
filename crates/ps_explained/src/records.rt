//! What the link information says of a fault.

use crate::cases::Case;
use ps_check_segments::length_of;
use ps_linkinfo::{LinkRecord, Sort};
use ps_words::{Name, Order, Reason};

impl<'a> Case<'_, 'a> {
    /// The bytes of the file from the first record on that cannot be read, and their order.
    /// Source: the published II.0 Linker source.
    pub(crate) fn unread(&self) -> Option<(Order, &'a [u8])> {
        match (self.segment, self.source(), self.after()) {
            (Some(segment), Some(source), Some(after)) => {
                let used = length_of(&segment.records);
                Some((source.order, after.get(used..).unwrap_or(&[])))
            }
            _ => None,
        }
    }

    /// The earlier record of the name, with its index.
    pub(crate) fn earlier_record(&self) -> Option<(usize, LinkRecord<'a>)> {
        let duplicate = self.record()?;
        let sort = match self.fault.reason {
            Reason::DoubledPrivate => Sort::Private,
            _ => Sort::Definition,
        };
        self.records().find(&duplicate.name, sort)
    }

    /// The record by which a unit itself defines the name.
    pub(crate) fn own_definition(&self, name: &Name) -> Option<usize> {
        match self.segment {
            Some(segment) if segment.part.is_unit() => {
                let (rec, _) = segment.records.find(name, Sort::Variable)?;
                Some(rec)
            }
            _ => None,
        }
    }
}
