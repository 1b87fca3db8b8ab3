//! Operands of a code for variables of the program, which a link fills in.
use crate::bodies::Body;
use crate::instructions::Instruction;
use crate::table::Release;
use crate::tables::procedures_of;
use ps_words::Order;

/// How many instructions of a procedure have a variable of the program in an operand of two bytes, by
/// the table of a release; none where its instructions do not lead to its return.
fn wide_in(body: Body<'_>, release: Release) -> usize {
    let (mut place, mut wide) = (body.ends.enter, 0usize);
    for _ in 0..body.len() {
        let Some(instruction) = Instruction::at(body.order, release, body.code, place) else {
            return 0;
        };
        wide = wide.saturating_add(usize::from(instruction.is_wide_variable()));
        if instruction.is_return() && body.ends.leave <= place {
            return wide;
        }
        place = place.saturating_add(instruction.length);
    }
    0
}

/// How many instructions of a code have a variable of the program in an operand of two bytes: LAO, LDO
/// and SRO, by the table of the release by which there are more.
///
/// Procedures may share bytes: those are left out from the first on that has more bytes than the code
/// has left after the ones before. None where the procedure dictionary is not whole, or a procedure
/// is native.
///
/// Source: P-code of II.0, *(open)* in FORMAT.md.
pub fn wide_variables(order: Order, code: &[u8]) -> usize {
    let Some(procedures) = procedures_of(order, code) else {
        return 0;
    };
    let (mut wide, mut left) = (0usize, code.len());
    for procedure in 1..=procedures.count() {
        let body = match procedures.table(procedure) {
            Some(table) => Body::before(order, code, table),
            None => None,
        };
        if let Some(body) = body {
            let length = body.len();
            if left < length {
                return wide;
            }
            left -= length;
            let (later, earlier) = (
                wide_in(body, Release::Later),
                wide_in(body, Release::Earlier),
            );
            wide = wide.saturating_add(later.max(earlier));
        }
    }
    wide
}
