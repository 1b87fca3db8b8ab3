//! What the files say of private variables that do not fit.

use crate::cases::Case;
use ps_check_segments::host_of;
use ps_linkinfo::Body;
use ps_pcode::procedures_of;

impl Case<'_, '_> {
    /// The data size of the outer block of the host program, in bytes.
    /// Source: UCSD Pascal II.0 manual, code file format.
    pub(crate) fn data_size(&self) -> Option<u16> {
        let host = host_of(self.list)?.source.ok()?;
        match host.code {
            Ok(code) => procedures_of(host.order, code)?.data_size(),
            Err(_) => None,
        }
    }

    /// The base offset of the private variable of the record that the fault is reported with, in
    /// words.
    /// Source: the published II.0 Linker source.
    pub(crate) fn base_offset(&self) -> u64 {
        let next = match host_of(self.list) {
            Some(host) => u64::from(host.records.next()),
            None => 0,
        };
        next.saturating_add(self.words)
    }

    /// The words of the private variable of the record that the fault is reported with.
    /// Source: the published II.0 Linker source.
    pub(crate) fn private_words(&self) -> Option<u16> {
        match self.record()?.body {
            Body::PrivRef { words, .. } => Some(words),
            _ => None,
        }
    }
}
