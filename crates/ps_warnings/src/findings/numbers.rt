//! The segment numbers at the ends of codes, beside those that the dictionary has.
ghost use Rattle.std.specs.Prelude.{◌<◌};

use super::procedures::is_without_procedures;
use super::segment_words::{has_words_of_segments, word_of};
use crate::finding::CodeFinding;
use ps_codefile::Dict;
use ps_codefile::dictionary_layout::SLOTS;
use ps_codefile::kinds::{HOSTSEG, UNITSEG};

/// The segment number that the dictionary has for a slot, 0 to 15, where it is one of II.1.
fn number_in_dictionary(dict: &Dict<'_>, slot: u8) -> Option<u8> {
    if !has_words_of_segments(dict) {
        return None;
    }
    let [_, number] = word_of(dict, slot);
    (number != 0).then_some(number)
}

/// A file has a host program.
fn has_host(dict: &Dict<'_>) -> bool {
    for slot in 0..SLOTS {
        if dict.filled(slot) && dict.entry(slot).kind == HOSTSEG {
            return true;
        }
    }
    false
}

/// What looks wrong in the numbers at the end of the code of a segment of this kind in a slot, 0 to 15.
/// A segment number of 0 is none. Two codes of a host whose numbers are exchanged are told of at the
/// first of them.
pub(super) fn other_number(dict: &Dict<'_>, slot: u8, kind: u16, code: &[u8]) -> Option<CodeFinding>
    requires { slot < SLOTS }
{
    let (found, procedures) = match code {
        [.., found, procedures] => (*found, *procedures),
        _ => return None,
    };
    if is_without_procedures(code) {
        return None;
    }
    if found == 0 {
        let is_zeros = procedures == 0 && slot != 0 && matches!(kind, HOSTSEG | UNITSEG);
        return is_zeros.then_some(CodeFinding::ZeroEnd);
    }
    if is_exchanged(dict, slot, found) {
        return (slot < found).then_some(CodeFinding::ExchangedNumber { found, slot });
    }
    if kind == HOSTSEG && found != slot {
        return Some(CodeFinding::OtherNumber { found, slot });
    }
    let number = number_in_dictionary(dict, slot)?;
    (number != found).then_some(CodeFinding::OtherInfo { found, number })
}

/// The code in a slot of a host has the number of another slot, whose code has the number of this one.
fn is_exchanged(dict: &Dict<'_>, slot: u8, found: u8) -> bool {
    if found == slot || SLOTS <= found || !dict.filled(found) || !has_host(dict) {
        return false;
    }
    match dict.code(found) {
        Ok([.., number, _]) => *number == slot,
        _ => false,
    }
}
