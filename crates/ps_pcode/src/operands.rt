//! Operands at places of a code, whatever instructions are before them.
use crate::table::{Operands, Release, Row};

/// From this byte on the first byte of a BIG operand has another after it.
const TWO_BYTES: u8 = 0x80;

/// A BIG operand that is a variable of the program follows the opcode, by the table of a release.
fn is_of_variable(opcode: u8, release: Release) -> bool {
    let Row(_, _, operands, _) = Row::of(opcode, release);
    matches!(operands, Operands::Variable)
}

/// At a place of a code, in bytes from its first one, is an operand of two bytes of LAO, LDO or SRO,
/// by the table of either release: one of these opcodes is before it, bit 7 of its first byte is set,
/// and the code has its second byte. Bytes of other instructions may look so.
///
/// Source: P-code of II.0, *(open)* in FORMAT.md.
pub fn is_wide_variable_at(code: &[u8], place: usize) -> bool {
    let Some(before) = place.checked_sub(1) else {
        return false;
    };
    match code.get(before..) {
        Some([opcode, high, _, ..]) => {
            TWO_BYTES <= *high
                && (is_of_variable(*opcode, Release::Later)
                    || is_of_variable(*opcode, Release::Earlier))
        }
        _ => false,
    }
}
