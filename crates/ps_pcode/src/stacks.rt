//! The evaluation stack of a procedure of P-code: it is empty where a jump goes from and where it
//! goes to, but for the index of a case.
use crate::instructions::Instruction;

/// The words that are on the evaluation stack.
#[derive(Clone, Copy)]
pub(crate) struct Stack {
    pub(crate) words: usize,
    /// There are no others below them.
    is_whole: bool,
}

impl Stack {
    pub(crate) const EMPTY: Stack = Stack {
        words: 0,
        is_whole: true,
    };

    /// A stack of which nothing is known.
    pub(crate) const UNKNOWN: Stack = Stack {
        words: 0,
        is_whole: false,
    };

    /// The stack after an instruction, which a jump may lead to; none where words are left that a jump
    /// does not leave, or where the instruction takes words that are not there.
    pub(crate) fn after(self, instruction: Instruction, is_target: bool) -> Option<Stack> {
        let index = usize::from(instruction.is_case());
        if !is_target && index == 0 {
            return self.changed_by(instruction);
        }
        if index < self.words {
            return None;
        }
        let found = Stack {
            words: index,
            is_whole: true,
        };
        found.changed_by(instruction)
    }

    /// The stack after an instruction, by the words that it takes and puts there; none as above.
    fn changed_by(self, instruction: Instruction) -> Option<Stack> {
        let Some((taken, put)) = instruction.words() else {
            return Some(Stack::UNKNOWN);
        };
        if self.is_whole && self.words < taken {
            return None;
        }
        let words = self.words.saturating_sub(taken).saturating_add(put);
        if instruction.jump().is_none() && !instruction.is_case() {
            Some(Stack { words, ..self })
        } else if words <= usize::from(taken == 0) {
            // (a jump that takes no condition leaves the index of a case)
            Some(Stack::EMPTY)
        } else {
            None
        }
    }
}
