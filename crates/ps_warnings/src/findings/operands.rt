//! Operands that the references of records name and whose bytes look wrong, and references that may be
//! lost.
ghost use Rattle.std.specs.Prelude.{◌≡◌, find};
ghost use Rattle.ps_warnings.specs.Notes.{is_clear as is_clear_spec};

use crate::finding::OperandFinding;
use ps_check_segments::length_of;
use ps_codefile::is_nameless;
use ps_codefile::kinds::UNITSEG;
use ps_filetype::{oddity_of, only_byte};
use ps_linkinfo::record_layout::RECORD_LEN;
use ps_linkinfo::{Body, LinkInformation, Refs};
use ps_pcode::wide_variables;
use ps_words::{BLOCK_SIZE, Name, Order, blocks_of};

/// The first byte that has bit 7.
const HIGH: u8 = 0x80;

/// A unit without a reference may have so many operands for variables of the program by chance, less
/// one.
const MANY: usize = 3;

/// An end mark of zeros is no part of more zeros where fewer records than these are zeros.
const ZERO_RECORDS: usize = 2;

/// The first record that refers to a variable by a BIG operand whose bit 7 is clear: the index of the
/// record, from 0 on, and the finding, with the place of the first such operand of that record. Operands
/// of which the code has not both bytes say nothing.
pub(super) fn first_clear_mark(
    records: &LinkInformation<'_>,
    code: &[u8],
) -> Option<(usize, OperandFinding)> {
    for (rec, record) in records.records() {
        if let Body::PublRef(refs) | Body::PrivRef { refs, .. } = &record.body {
            if let Some(place) = first_clear(refs, code) {
                let place = usize::from(place);
                return Some((rec, OperandFinding::ClearMark { place }));
            }
        }
    }
    None
}

/// Bit 7 of the operand at a place is clear, where the code has both of its bytes.
fn is_clear(code: &[u8], place: u16) -> bool
    ensures { result ≡ is_clear_spec code.now place }
{
    let place = usize::from(place);
    place + 1 < code.len() && code[place] < HIGH
}

/// The place in the code of the first of these operands whose bit 7 is clear.
fn first_clear(refs: &Refs<'_>, code: &[u8]) -> Option<u16>
    ensures { result ≡ find (is_clear_spec code.now) refs.now }
{
    for reference in 0..refs.len() {
        let place = refs.get(reference);
        if is_clear(code, place) {
            return Some(place);
        }
    }
    None
}

/// A unit whose records were read up to its end mark and have no reference, and whose code has operands
/// of two bytes for variables of the program.
pub(super) fn no_references(
    order: Order,
    kind: u16,
    records: &LinkInformation<'_>,
    has_end: bool,
    code: &[u8],
) -> Option<OperandFinding> {
    if kind != UNITSEG || !has_end || records.references() != 0 {
        return None;
    }
    let operands = wide_variables(order, code);
    (MANY <= operands).then_some(OperandFinding::NoReferences { operands })
}

/// The record that stands behind an end mark of zeros and more zeros, in the same block. Records of
/// another segment may stand there, but not behind zeros: those that they had are still there.
pub(super) fn zero_mark(
    order: Order,
    records: &LinkInformation<'_>,
    after: &[u8],
) -> Option<OperandFinding> {
    let used = length_of(records);
    let block_end = BLOCK_SIZE.saturating_mul(blocks_of(used));
    let Some(start) = used.checked_sub(RECORD_LEN) else {
        return None;
    };
    match (
        after.get(start..block_end.min(after.len())),
        after.get(start..),
    ) {
        (Some(block), Some(rest)) => behind_zeros(order, block, rest),
        _ => None,
    }
}

/// The record that stands in a block behind zeros; `rest` begins with the block.
fn behind_zeros(order: Order, block: &[u8], rest: &[u8]) -> Option<OperandFinding> {
    let mut rest = rest;
    for (index, piece) in block.chunks(RECORD_LEN).enumerate() {
        if index < ZERO_RECORDS {
            if only_byte(piece) != Some(0) {
                return None;
            }
        } else if let Some(name) = named_record(order, rest) {
            return Some(OperandFinding::ZeroMark { name });
        }
        rest = rest.get(RECORD_LEN..).unwrap_or(&[]);
    }
    None
}

/// The name of the record that bytes begin with, if that can be read, is no end mark and has a name as a
/// compiler writes it.
fn named_record(order: Order, bytes: &[u8]) -> Option<Name> {
    let records = LinkInformation::up_to_fault(order, bytes);
    let record = records.record(0)?;
    let is_odd = is_nameless(&record.name) || oddity_of(&record.name, true).is_some();
    if record.is_eof() || is_odd {
        None
    } else {
        Some(record.name)
    }
}
