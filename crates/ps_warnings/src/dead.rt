//! Parts of a code that were not read, or never written.

use crate::finding::CodeFinding;
use ps_codefile::kinds::SEPRTSEG;
use ps_pcode::native_table;
use ps_words::Order;

/// What a code may have many of, one after another: blanks of a text, and NOP.
pub(crate) const REPEATED: [u8; 2] = [0x20, 0xD7];

/// How many bytes the shortest sector of a disk has.
pub(crate) const SECTOR: usize = 128;

/// Bytes that are all the same, from the first to the last.
#[derive(Clone, Copy)]
struct DeadRun {
    start: usize,
    end: usize,
    byte: u8,
}

impl DeadRun {
    /// The first bytes that are as many as a sector of a disk and as if nothing was read.
    fn first_in(bytes: &[u8]) -> Option<DeadRun> {
        let (mut start, mut last) = (0usize, 0u8);
        for (place, byte) in bytes.iter().enumerate() {
            if *byte != last {
                if let Some(run) = DeadRun::of(start, place, last) {
                    return Some(run);
                }
                start = place;
                last = *byte;
            }
        }
        DeadRun::of(start, bytes.len(), last)
    }

    /// The run of this byte from a place on and before another, if it is one: as long as a sector at
    /// least, and from where a sector begins or to where one ends.
    fn of(start: usize, end: usize, byte: u8) -> Option<DeadRun> {
        let is_long = SECTOR <= end.saturating_sub(start);
        let is_at_sector = start % SECTOR == 0 || end % SECTOR == 0;
        if is_long && is_at_sector && !REPEATED.contains(&byte) {
            let end = end.saturating_sub(1);
            Some(DeadRun { start, end, byte })
        } else {
            None
        }
    }
}

/// The first run of one byte in a code, as long as a sector of a disk: a part of the code was not read,
/// or never written.
pub fn dead_run(code: &[u8]) -> Option<CodeFinding> {
    let DeadRun { start, end, byte } = DeadRun::first_in(code)?;
    Some(CodeFinding::DeadRun { start, end, byte })
}

/// The first dead run of the code of a segment of this kind, whose words are in this order. Zeros
/// of native code are data: those of a segment that has a native procedure whose table is not among
/// them.
pub(crate) fn unread_run(order: Order, kind: u16, code: &[u8]) -> Option<CodeFinding> {
    let DeadRun { start, end, byte } = DeadRun::first_in(code)?;
    let is_outside = match native_table(order, code) {
        Some(table) => table < start || end < table,
        None => false,
    };
    let is_data = byte == 0 && (is_outside || kind == SEPRTSEG);
    (!is_data).then_some(CodeFinding::DeadRun { start, end, byte })
}
