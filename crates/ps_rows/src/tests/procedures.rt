//! The procedure dictionary and the attribute tables of a code.
use super::answers::{LITTLE, is};
use super::rows::{Row, check_all, fields};
use crate::line::Line;
use crate::notation::{hex, holds, holds_of};
use ps_codefile::Procs;
use ps_words::Order;
use sample_files::base::{UTIL_ENTRY, demo_code, util_code};
use std::alloc::Global;
use std::process::Abort;

const BIG: Order = Order::Big;

/// How many procedures a code has and where their dictionary begins, each that has a table and
/// where, and the places from which on bytes are reserved and are not, in turn; or why they are
/// refused.
fn describe(alloc: Global, order: Order, code: &[u8], is_host: bool) -> Line {
    let mut line = Line::new(alloc);
    if code.len() >= 2 {
        match Procs::read(order, code, is_host) {
            Ok(procedures) => add_procedures(&mut line, &procedures, code.len()),
            Err(reason) => line.value("", &reason),
        }
    }
    line
}

/// Adds the procedures of a code of this length.
fn add_procedures(line: &mut Line, procedures: &Procs<'_>, len: usize) {
    line.number("", procedures.count());
    line.number(" from ", procedures.start());
    for p in 1..=procedures.count() {
        if let Some(table) = procedures.table(p) {
            line.number(", ", p);
            line.number(" at ", table);
        }
    }
    line.word(";");
    add_reserved(line, procedures, len)
}

/// Adds the places from which on bytes of a code are reserved, and are not.
fn add_reserved(line: &mut Line, procedures: &Procs<'_>, len: usize) {
    let mut is_reserved = false;
    for place in 0..len.saturating_add(9) {
        if procedures.is_reserved(place) != is_reserved {
            is_reserved = !is_reserved;
            line.number(" ", place);
        }
    }
}

/// Checks a code's procedures, of the host segment or of another one.
fn has(
    rt: &(impl Abort + AllocGlobal),
    (order, code, is_host): (Order, &[u8], bool),
    wanted: &str,
) {
    let text = describe(rt.alloc(), order, code, is_host);
    is(rt, "procedures", text, wanted)
}

/// Checks the procedures of the base codes in a byte order.
fn base_codes_have(rt: &(impl Abort + AllocGlobal), order: Order) {
    let util = util_code(order, UTIL_ENTRY);
    has(rt, (order, &util, false), "1 from 20, 1 at 18; 10 24");
    let demo = demo_code(order);
    has(rt, (order, &demo, true), "1 from 14, 1 at 12; 4 18")
}

#[test]
fn procedures_of_the_base_codes(rt: HostRuntime) {
    base_codes_have(&rt, LITTLE);
    base_codes_have(&rt, BIG)
}

/// The reserved places of the host's code are marked, each by a star.
#[test]
fn reserved_places_are_marked(rt: HostRuntime) {
    let code = demo_code(LITTLE);
    let mut marks = [b'-'; 18];
    let procedures = Procs::read(LITTLE, &code, true).expect(&rt, "no procedures");
    procedures.mark_reserved(&mut marks, b'*');
    holds_of(&rt, marks == *b"----**************", &marks)
}

/// Codes in a byte order, of the host segment or of another one, in hexadecimal digits; and their
/// procedures. The first are an instruction, a table of procedure 1, the words of procedures 2 and 1
/// at 11 and 13, so that the tables stand at these minus their values, and the numbers of segment 7.
static CODES: &str = "\
# procedure 1 has no body
little unit | D7 0A 00 06 00 04 00 02 00 01 00 02 00 00 00 07 02 | 2 from 11, 2 at 9; 1 17
little host | D7 0A 00 06 00 04 00 02 00 01 00 02 00 00 00 07 02 | BadProcDict
# a table at 8 is whole, and byte 8 is 0; one at 7 is not
little unit | D7 0A 00 06 00 04 00 02 00 01 00 00 00 05 00 07 02 | NativeProcedure
little unit | D7 0A 00 06 00 04 00 02 00 01 00 00 00 06 00 07 02 | BadProcDict
# a table at 10 ends in the dictionary, whose first byte is 11
little unit | D7 0A 00 06 00 04 00 02 00 01 00 00 00 03 00 07 02 | BadProcDict
# procedure 2 is native
little host | D7 0A 00 06 00 04 00 02 00 01 00 03 00 04 00 07 02 | NativeProcedure
# two tables, and a byte between them that belongs to nothing
little host | D7 0A 00 06 00 04 00 02 00 01 00 AB 0A 00 06 00 04 00 02 00 02 00 02 00 0F 00 07 02 \
| 2 from 22, 1 at 9, 2 at 20; 1 11 12 28
# a dictionary as long as the code, and a longer one
big unit | 00 00 07 01 | 1 from 0; 0 4
big unit | 00 00 07 02 | BadProcDict";

/// The procedures of a code.
struct CodeRows;

impl Row for CodeRows {
    fn check<R: Abort + AllocGlobal>(&self, rt: &R, row: &str) {
        let (segment, code, wanted) = fields(rt, row);
        let (order, is_host) = match segment {
            "little host" => (LITTLE, true),
            "little unit" => (LITTLE, false),
            _ => {
                holds(rt, segment == "big unit", segment);
                (BIG, false)
            }
        };
        has(rt, (order, hex(rt, code).as_slice(), is_host), wanted)
    }
}

#[test]
fn tables_of_small_codes(rt: HostRuntime) {
    check_all(&rt, &CodeRows, CODES)
}
