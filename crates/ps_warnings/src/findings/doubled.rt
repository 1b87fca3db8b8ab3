//! Neighbouring blocks of a file that are equal, as where a block was read twice.
ghost use Rattle.std.specs.Prelude.{◌≤◌};

use super::extents::Extent;
use crate::finding::FileFinding;
use ps_filetype::only_byte;
use ps_words::{BLOCK_SIZE, blocks_of};

/// Where so many bytes beside two equal sectors are equal too, the bytes repeat by right.
const REPEATED: usize = 16;

/// The first block, or sector of 256 or 128 bytes, that may have been read twice: that is equal to
/// the next one, which ought to be another one.
pub(super) fn doubled_block(bytes: &[u8], extents: &[Extent]) -> Option<FileFinding> {
    for size in [BLOCK_SIZE, BLOCK_SIZE / 2, BLOCK_SIZE / 4] {
        if let Some(found) = doubled_sector(bytes, size, extents) {
            return Some(found);
        }
    }
    None
}

/// What the entries have of the file says that the second of two equal sectors ought to be another
/// one. Two entries may have the same code, and what no entry has may be anything, but for a last
/// sector without which the file ends where its last entry does.
fn doubled_sector(bytes: &[u8], size: usize, extents: &[Extent]) -> Option<FileFinding>
    requires { 1 ≤ size }
{
    let (mut last, mut second): (&[u8], usize) = (&[], 0);
    for here in bytes.chunks(size) {
        let start = second.saturating_sub(size);
        let end = second.saturating_add(size);
        // (where its halves are equal, its bytes repeat by right, or are one byte)
        let half = here.len() / 2;
        if here == last && here.get(..half) != here.get(half..) {
            let is_by_mistake = match (part_at(extents, start), part_at(extents, second)) {
                (Some(part), Some(other)) if part == other => {
                    // (the bytes before the two sectors, or those after them, may repeat too)
                    let before = start.saturating_sub(REPEATED);
                    let middle = second.saturating_sub(REPEATED);
                    let is_before = part <= before && are_equal(bytes, before, middle);
                    !is_before && !are_equal(bytes, second, end)
                }
                (Some(part), Some(other)) => {
                    part == 0 || start.abs_diff(part) != second.abs_diff(other)
                }
                (Some(_), None) => bytes.len() <= end,
                (None, _) => false,
            };
            if is_by_mistake {
                let end = second.saturating_sub(1);
                return Some(FileFinding::Doubled { start, end });
            }
        }
        second = end;
        last = here;
    }
    None
}

/// The `REPEATED` bytes from one place on are those from another one on, and not one byte.
fn are_equal(bytes: &[u8], one: usize, other: usize) -> bool {
    match (bytes.get(one..), bytes.get(other..)) {
        (Some(one), Some(other)) => match (one.get(..REPEATED), other.get(..REPEATED)) {
            (Some(one), Some(other)) => one == other && only_byte(one).is_none(),
            _ => false,
        },
        _ => false,
    }
}

/// Where the part of a file begins that has this byte: the dictionary, or the blocks of an entry.
fn part_at(extents: &[Extent], place: usize) -> Option<usize> {
    if place < BLOCK_SIZE {
        return Some(0);
    }
    for extent in extents {
        let last_block_end = BLOCK_SIZE.saturating_mul(blocks_of(extent.end));
        if extent.start <= place && place < last_block_end {
            return Some(extent.start);
        }
    }
    None
}
