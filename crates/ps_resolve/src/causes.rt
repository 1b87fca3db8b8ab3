//! What of the records of a link a fault is about.
ghost use Rattle.std.specs.Prelude.{◌≡◌, ◌<◌, IfSome, None, take};
ghost use Rattle.ps_linkinfo.specs.Numbered.{numbered_records};
ghost use Rattle.ps_resolve.specs.Causes.{covering_in as covering_in_spec, covers as covers_spec, first_before, first_covering as first_covering_spec, records_before, references_before as references_before_spec, share_a_byte as share_a_byte_spec, words_before as words_before_spec};
ghost use Rattle.ps_resolve.specs.References.{words_taken_by};

use crate::references::records::words_taken;
use ps_linkinfo::{LinkInformation, LinkRecord, Operand};
use ps_reading::{RecordAt, ReferenceAt, Segment};

/// The two operands have a byte in common.
fn share_a_byte(a: Operand, b: Operand) -> bool
    ensures { result ≡ share_a_byte_spec a b }
{
    usize::from(a.place) < usize::from(b.place) + usize::from(b.width)
        && usize::from(b.place) < usize::from(a.place) + usize::from(a.width)
}

/// The operand of this reference of a record has a byte of the operand.
fn covers(operand: Operand, entry: &LinkRecord<'_>, reference: usize) -> bool
    ensures { result ≡ covers_spec operand entry.now.body reference }
{
    match entry.operand(reference) {
        None => false,
        Some(other) => share_a_byte(operand, other),
    }
}

/// The first reference of a record, of its first `count`, that has a byte of the operand.
fn first_covering(operand: Operand, count: usize, entry: &LinkRecord<'_>) -> Option<usize>
    ensures { result ≡ first_covering_spec operand count entry.now.body }
{
    (0..count).find(|reference| covers(operand, entry, *reference))
}

/// How many references of a record with this index are before this place.
fn references_before(place: ReferenceAt, rec: usize, entry: &LinkRecord<'_>) -> usize
    ensures { result ≡ references_before_spec place (rec, entry.now) }
{
    if rec < place.at.rec {
        entry.references()
    } else if rec == place.at.rec {
        place.reference
    } else {
        0
    }
}

/// Where a record has its first reference, of those before this place, with a byte of the operand.
fn covering_in(
    place: ReferenceAt,
    operand: Operand,
    rec: usize,
    entry: &LinkRecord<'_>,
) -> Option<ReferenceAt>
    ensures { result ≡ covering_in_spec place operand (rec, entry.now) }
{
    let count = references_before(place, rec, entry);
    match first_covering(operand, count, entry) {
        None => None,
        Some(reference) => Some(ReferenceAt {
            at: RecordAt { rec, ..place.at },
            reference,
        }),
    }
}

/// The first reference of a segment, by record and then in the record's list, that is before this
/// place and whose operand has a byte of this operand; `None` where there is none.
///
/// `records` are the segment's, and `operand` is that of the reference at `place`.
pub fn covering_reference(
    records: &LinkInformation<'_>,
    place: ReferenceAt,
    operand: Operand,
) -> Option<ReferenceAt>
    ensures { result ≡ first_before place operand (numbered_records 0 records.now) }
{
    for (rec, record) in records.records() {
        if let Some(earlier) = covering_in(place, operand, rec, &record) {
            return Some(earlier);
        }
    }
    None
}

/// How many words the privates of the first `count` records take; `None` above 4294967295.
fn words_of_first(records: &LinkInformation<'_>, count: usize) -> Option<u32>
    ensures words { IfSome result (λ words. words ≡ words_taken_by (take count records.now)) }
    ensures many { result ≡ None → 4294967295 < words_taken_by (take count records.now) }
{
    let mut words = 0u32;
    for (rec, record) in records.records() {
        if rec < count {
            words = words.checked_add(u32::from(words_taken(&record.body)))?;
        }
    }
    Some(words)
}

/// How many words the privates take of those records of a segment that are before record `rec` of
/// this slot; `None` above 4294967295.
fn words_of_segment(segment: &Segment<'_>, slot: u8, rec: usize) -> Option<u32>
    ensures words { IfSome result (λ words. words
        ≡ words_taken_by (records_before slot rec segment.now)) }
    ensures many { result ≡ None → 4294967295
        < words_taken_by (records_before slot rec segment.now) }
{
    match segment.records() {
        None => Some(0),
        Some(records) if segment.slot() < slot => words_of_first(records, records.len()),
        Some(records) if segment.slot() == slot => words_of_first(records, rec),
        Some(_) => Some(0),
    }
}

/// How many words the private variables take of all records before record `rec` of the segment in
/// this slot: those of the segments in slots below it, and of the records before it in its own.
/// `None` above 4294967295.
///
/// With the host's next free base offset it is the base offset of that record's private. With slot
/// 16 it counts all private words.
/// Source: the order of allotment is this project's profile.
pub fn words_before(segments: &[Segment<'_>], slot: u8, rec: usize) -> Option<u32>
    ensures words { IfSome result (λ words. words ≡ words_before_spec slot rec segments.now) }
    ensures many { result ≡ None → 4294967295 < words_before_spec slot rec segments.now }
{
    let mut words = 0u32;
    for segment in segments {
        words = words.checked_add(words_of_segment(segment, slot, rec)?)?;
    }
    Some(words)
}
