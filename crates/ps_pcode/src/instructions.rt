//! Instructions of P-code: how long they are, which of them jump and which return, and what they do to
//! the evaluation stack.
ghost use Rattle.std.specs.Prelude.{◌<◌};

use crate::table::{Effect, Operands, Release, Row};
use ps_words::{Order, get};

/// From this byte on the first byte of a BIG operand has another after it.
const TWO_BYTES: u8 = 0x80;

/// The types, two times their number, of which a length follows: byte arrays and word arrays.
const BYTE_ARRAYS: u8 = 10;

const WORD_ARRAYS: u8 = 12;

/// The other types whose values have a length that is known: reals, strings and booleans.
const REALS: u8 = 2;

const STRINGS: u8 = 4;

const BOOLEANS: u8 = 6;

impl Operands {
    /// The length of an instruction at a place with these operands, of which these bytes are the
    /// first; none of a case without a table, as where its least index is above its greatest.
    fn length(self, order: Order, place: usize, bytes: &[u8]) -> Option<usize> {
        let first = bytes.first().copied()?;
        match self {
            Operands::Nothing | Operands::Exit => Some(1),
            Operands::Byte | Operands::Jump | Operands::Return => Some(2),
            Operands::TwoBytes | Operands::Call => Some(3),
            Operands::Big | Operands::Variable => Some(big_end(first, 0)),
            Operands::ByteAndBig => Some(big_end(bytes.get(1).copied()?, 1)),
            Operands::Text => Some(usize::from(first) + 2),
            Operands::WordList => Some(2 * usize::from(first) + 2 + place % 2),
            Operands::Type if first == BYTE_ARRAYS || first == WORD_ARRAYS => {
                Some(big_end(bytes.get(1).copied()?, 1))
            }
            Operands::Type => Some(2),
            Operands::Case => {
                let padding = 1 - place % 2;
                let words = bytes.get(padding..)?;
                if words.len() < 4 {
                    return None;
                }
                // (signed words, of which the difference is that of these)
                let least = get(order, words, 0) ^ 0x8000;
                let greatest = get(order, words, 2) ^ 0x8000;
                let count = usize::from(greatest.checked_sub(least)?) + 1;
                Some(padding + 7 + 2 * count)
            }
        }
    }
}

/// The length of an instruction whose BIG operand has this byte first, after so many others, 0 or 1.
fn big_end(high: u8, before: usize) -> usize
    requires { before < 2 }
{
    before + 2 + usize::from(TWO_BYTES <= high)
}

#[derive(Clone, Copy)]
pub(crate) struct Instruction {
    operands: Operands,
    effect: Effect,
    /// The byte after the opcode, the first operand of an instruction that has one.
    operand: u8,
    /// How many bytes it has, with its opcode.
    pub(crate) length: usize,
}

impl Instruction {
    /// The instruction at a place of a code, by the table of a release; none where the code has not
    /// enough bytes from there on to tell how long it is.
    pub(crate) fn at(
        order: Order,
        release: Release,
        code: &[u8],
        place: usize,
    ) -> Option<Instruction> {
        let (opcode, bytes) = match code.get(place..) {
            Some([opcode, bytes @ ..]) => (*opcode, bytes),
            _ => return None,
        };
        let Row(_, _, operands, effect) = Row::of(opcode, release);
        Some(Instruction {
            operands,
            effect,
            operand: bytes.first().copied()?,
            length: operands.length(order, place, bytes)?,
        })
    }

    /// The operand of a jump: how many bytes it goes on, or, above 127, which word of the jump table
    /// says where to. None of an instruction that is no jump.
    pub(crate) fn jump(self) -> Option<u8> {
        match self.operands {
            Operands::Jump => Some(self.operand),
            _ => None,
        }
    }

    /// The operand is a variable of the program, and has two bytes.
    pub(crate) fn is_wide_variable(self) -> bool {
        matches!(self.operands, Operands::Variable) && TWO_BYTES <= self.operand
    }

    /// The instruction goes to one of several places, by an index.
    pub(crate) fn is_case(self) -> bool {
        matches!(self.operands, Operands::Case)
    }

    /// The procedure or the program is left.
    pub(crate) fn is_return(self) -> bool {
        matches!(self.operands, Operands::Return | Operands::Exit)
    }

    /// The words of the evaluation stack that it takes, and those that it then puts there; none where
    /// these are not known.
    pub(crate) fn words(self) -> Option<(usize, usize)> {
        let words = usize::from(self.operand);
        match self.effect {
            Effect::Words(taken, put) => Some((usize::from(taken), usize::from(put))),
            Effect::Loads(taken) => Some((usize::from(taken), words)),
            Effect::Stores(more) => Some((words + usize::from(more), 0)),
            Effect::Compares => match self.operand {
                REALS => Some((4, 1)),
                STRINGS | BOOLEANS | BYTE_ARRAYS | WORD_ARRAYS => Some((2, 1)),
                _ => None,
            },
            Effect::Unknown => None,
        }
    }
}

/// A case begins at a place of a code, whole or not: all releases have it at one opcode.
pub(crate) fn is_case_at(code: &[u8], place: usize) -> bool {
    match code.get(place) {
        Some(opcode) => {
            let Row(_, _, operands, _) = Row::of(*opcode, Release::Later);
            matches!(operands, Operands::Case)
        }
        None => false,
    }
}
