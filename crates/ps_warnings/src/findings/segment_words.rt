//! The words that a dictionary of II.1 has for its segments, and those that the linked file has.
ghost use Rattle.std.specs.Prelude.{◌<◌, [], OnOk};
ghost use Rattle.ps_warnings.specs.Found.{Adds, about_link};

use super::{Context, Findings, in_segment};
use crate::finding::DictionaryFinding;
use ps_check_segments::ReadSegment;
use ps_codefile::Dict;
use ps_codefile::dictionary_layout::{SLOTS, TAIL};
use ps_words::{Order, WORD_LEN, get};
use std::alloc::{AllocError, Allocator};

/// Where in the tail of a dictionary Apple Pascal has the set of the intrinsic units that a program uses.
const INTRINSIC_SET: usize = 32;

/// How many bytes that set has.
const INTRINSIC_SET_LEN: usize = 4;

/// No segment of II.1 has a number above it, and no character of a text is below it.
const LAST_NUMBER: u8 = 31;

/// The bit of a word of II.1 that says nothing.
const UNUSED: u8 = 0x10;

/// The bits of a word of II.1 that have the machine type.
const MACHINE: u8 = 0x0F;

/// The machine type of P-code whose words are in this order.
fn p_code(order: Order) -> u8 {
    match order {
        Order::Little => 2,
        Order::Big => 1,
    }
}

/// The word of a slot in a dictionary of II.1, big end first.
pub(super) fn word_of(dict: &Dict<'_>, slot: u8) -> [u8; 2] {
    let place = WORD_LEN * usize::from(slot);
    match dict.tail().get(place..) {
        Some(rest) if WORD_LEN <= rest.len() => get(dict.order(), rest, 0).to_be_bytes(),
        _ => [0, 0],
    }
}

/// The word of a slot, 0 to 15, may be one of II.1: of a slot with code it has a segment number, and
/// the machine type of P-code or none; of a slot without code it is 0.
fn is_word_of_slot(dict: &Dict<'_>, slot: u8) -> bool
    requires { slot < SLOTS }
{
    let [high, number] = word_of(dict, slot);
    if !dict.filled(slot) {
        return high == 0 && number == 0;
    }
    let machine = high & MACHINE;
    let is_p_code = machine == 0 || machine == p_code(dict.order());
    number <= LAST_NUMBER && high & UNUSED == 0 && is_p_code && (number != 0 || machine != 0)
}

/// The words of a dictionary may be those of II.1, each of them.
pub(super) fn has_words_of_segments(dict: &Dict<'_>) -> bool {
    for slot in 0..SLOTS {
        if !is_word_of_slot(dict, slot) {
            return false;
        }
    }
    true
}

/// The bytes of a word, in their order in a file.
fn in_order(order: Order, [high, low]: [u8; 2]) -> (u8, u8) {
    match order {
        Order::Little => (low, high),
        Order::Big => (high, low),
    }
}

/// The word of a unit that a library brings, which the linked file leaves 0: a link copies the host's
/// words alone.
fn left_out(
    context: &Context<'_, '_>,
    host: &Dict<'_>,
    segment: &ReadSegment<'_>,
) -> Option<DictionaryFinding> {
    let (slot, source) = (segment.slot?, segment.source.ok()?);
    let library = context.inputs.dict(source.at.file)?;
    if source.at.file == 0 || SLOTS <= source.at.index || !has_words_of_segments(&library) {
        return None;
    }
    let [high, low] = word_of(&library, source.at.index);
    let (first, second) = in_order(host.order(), [high, slot]);
    (word_of(host, slot) == [0, 0]).then_some(DictionaryFinding::LeftOutWord {
        place: TAIL + WORD_LEN * usize::from(slot),
        high,
        low,
        first,
        second,
    })
}

/// Looks at the words that the linked file has for the units that libraries bring, where the host has
/// such words for its segments. Where there is a fault there is no linked file.
pub(super) fn look_at<'a, A: Allocator>(
    findings: &mut Findings<'a, A>,
    context: &Context<'_, 'a>,
) -> Result<(), AllocError>
    ensures { OnOk result (Adds (about_link findings.old) [] (about_link findings.new)) }
{
    match Dict::read(context.inputs.host) {
        Ok(host) if context.fault.is_none() && has_words_of_segments(&host) => look_at_words(
            findings, context, &host,
        ),
        _ => Ok(()),
    }
}

/// Looks at the word that the linked file has for each of the segments.
#[tactic(auto, using(crate::proofs::Found::adds_none, crate::proofs::Found::none_then))]
fn look_at_words<'a, A: Allocator>(
    findings: &mut Findings<'a, A>,
    context: &Context<'_, 'a>,
    host: &Dict<'a>,
) -> Result<(), AllocError>
    ensures { OnOk result (Adds (about_link findings.old) [] (about_link findings.new)) }
{
    for segment in context.list {
        let file = match segment.source {
            Ok(source) => source.at.file,
            Err(_) => 0,
        };
        let place = in_segment(context.inputs.path(file), segment.name);
        findings.add_unsure(place, left_out(context, host, segment))?;
    }
    Ok(())
}

/// The second half of a dictionary may be one of II.1, or of Apple Pascal: its words are, or there is
/// none. Another compiler has a text there.
fn is_of_words(dict: &Dict<'_>) -> bool {
    let has_word = dict
        .tail()
        .iter()
        .take(INTRINSIC_SET)
        .any(|byte| *byte != 0);
    !has_word || has_words_of_segments(dict)
}

/// The set of intrinsic units in a dictionary, where it is not empty.
pub(super) fn intrinsic_set(dict: &Dict<'_>) -> Option<DictionaryFinding> {
    let set = dict
        .tail()
        .get(INTRINSIC_SET..INTRINSIC_SET + INTRINSIC_SET_LEN)?;
    let has_unit = set.iter().any(|byte| *byte != 0);
    (has_unit && is_of_words(dict)).then_some(DictionaryFinding::IntrinsicSet)
}
