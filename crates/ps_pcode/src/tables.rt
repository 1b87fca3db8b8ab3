//! What the procedure dictionary of a code says, and the attribute table of a procedure of the code
//! before it.
ghost use Rattle.std.specs.Prelude.{IfSome, ◌<◌, ◌≤◌};

use ps_codefile::code_layout::NUMBERS;
use ps_codefile::{ProcedureDictionary, ProcedureFault};
use ps_words::{Order, WORD_LEN, get};

/// The procedures of a code; none where its procedure dictionary is not whole, or one of them is
/// native code.
///
/// Source: UCSD Pascal II.0 manual, code file format.
pub fn procedures_of(order: Order, code: &[u8]) -> Option<ProcedureDictionary<'_>> {
    if code.len() < NUMBERS {
        return None;
    }
    ProcedureDictionary::read(order, code, false).ok()
}

/// The place of the attribute table of the first procedure of a code that is native code and no
/// P-code, as the procedure dictionary has it; none where no procedure is native, or where the
/// procedure dictionary is not whole.
///
/// Source: UCSD Pascal II.0 manual, code file format.
pub fn native_table(order: Order, code: &[u8]) -> Option<usize> {
    if code.len() < NUMBERS {
        return None;
    }
    let procedure = match ProcedureDictionary::read_or_fault(order, code, false) {
        Err(ProcedureFault::Native { procedure }) => procedure,
        _ => return None,
    };
    let before = WORD_LEN.saturating_mul(procedure).saturating_add(NUMBERS);
    pointed_at(order, code, code.len().checked_sub(before)?)
}

/// The place that the word at a place of a code points to, by how far it is before the word; none
/// where the word is not whole, or points before the code.
pub(crate) fn pointed_at(order: Order, code: &[u8], place: usize) -> Option<usize>
    ensures { IfSome result (λ found. found ≤ place) }
{
    match code.get(place..) {
        Some(word) if WORD_LEN <= word.len() => place.checked_sub(usize::from(get(order, word, 0))),
        _ => None,
    }
}

/// Where a procedure is entered, and where it is left: places in the code of its segment, in bytes.
///
/// Source: UCSD Pascal II.0 manual, code file format.
#[derive(Clone, Copy)]
pub struct Ends {
    /// The place of the first instruction.
    pub enter: usize,
    /// The place of the instructions that leave the procedure.
    pub leave: usize,
}

impl Ends {
    /// The ends of the procedure whose attribute table is at this place of the code; none where one of
    /// them is before the code.
    /// Source: UCSD Pascal II.0 manual, code file format.
    pub fn at(order: Order, code: &[u8], table: usize) -> Option<Ends>
        ensures entered { IfSome result (λ ends. ends.enter < table) }
        ensures left { IfSome result (λ ends. ends.leave < table) }
    {
        Some(Ends {
            enter: pointed_at(order, code, table.checked_sub(2)?)?,
            leave: pointed_at(order, code, table.checked_sub(4)?)?,
        })
    }
}
