//! What looks wrong in the procedures of codes.
use crate::finding::ProcedureFinding;
use ps_codefile::ProcedureDictionary;
use ps_codefile::code_layout::NUMBERS;
use ps_codefile::kinds::{HOSTSEG, LINKED, UNITSEG};
use ps_pcode::{Ends, misfit, procedures_of};
use ps_words::{Order, Reason};

/// The shortest code that has a procedure: an instruction, a table, its word of the procedure
/// dictionary, and the two numbers.
const SHORTEST: usize = 16;

/// The code is that of a unit without procedures: too short for one, and so says its end.
pub(super) fn is_without_procedures(code: &[u8]) -> bool {
    match code {
        [.., 0] => code.len() < SHORTEST,
        _ => false,
    }
}

/// A code that does not end with a procedure dictionary. Of a host program or a unit the number of
/// procedures is 0, and its segment number is neither 0 nor that of its slot, 0 to 15; of a segment
/// that is linked the procedure dictionary is not whole, or has no procedure.
pub(super) fn lost_tables(
    order: Order,
    kind: u16,
    slot: u8,
    code: &[u8],
) -> Option<ProcedureFinding> {
    if code.len() < NUMBERS || is_without_procedures(code) {
        return None;
    }
    let is_lost = match (kind, code) {
        (HOSTSEG | UNITSEG, [.., number, 0]) => *number != 0 && *number != slot,
        (LINKED, _) => match ProcedureDictionary::read(order, code, false) {
            Err(reason) => reason == Reason::BadProcDict,
            Ok(procedures) => procedures.count() == 0,
        },
        _ => false,
    };
    is_lost.then_some(ProcedureFinding::LostTables)
}

/// The data size of a host program that is odd, where its outer block is entered or left before the
/// code. UCSD compilers count data in words.
pub(super) fn odd_data(order: Order, kind: u16, code: &[u8]) -> Option<ProcedureFinding> {
    let procedures = procedures_of(order, code)?;
    let (data, table) = (procedures.data_size()?, procedures.table(1)?);
    let is_outside = Ends::at(order, code, table).is_none();
    (kind == HOSTSEG && data % 2 == 1 && is_outside).then_some(ProcedureFinding::OddData { data })
}

/// The first procedure of a code whose attribute table has another number.
pub(super) fn other_procedure(order: Order, code: &[u8]) -> Option<ProcedureFinding> {
    let procedures = procedures_of(order, code)?;
    for procedure in 1..=procedures.count() {
        if let Some(place) = procedures.table(procedure) {
            let found = code.get(place).copied().unwrap_or(0);
            if usize::from(found) != procedure {
                return Some(ProcedureFinding::OtherProcedure { procedure, found });
            }
        }
    }
    None
}

/// The procedure of a code whose instructions alone do not fit together.
pub(super) fn misfit_in(order: Order, code: &[u8]) -> Option<ProcedureFinding> {
    match misfit(order, code) {
        Some(procedure) => Some(ProcedureFinding::Misfit { procedure }),
        None => None,
    }
}
