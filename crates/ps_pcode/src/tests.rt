//! Which procedure of a code is found not to fit, by rows: the procedures of a code, a letter each.
use crate::misfit;
use ps_words::Order;
use std::alloc::{AllocError, Allocator};
use std::test::Fail;

/// How many instructions NOP make a procedure long, and how many leave it short.
const MANY: usize = 36;

const FEW: usize = 4;

/// NOP; and the return without a result, with the two sizes before the ends of a procedure.
const NOP: u8 = 0xD7;

const RETURN: [u8; 6] = [0xAD, 0, 0, 0, 0, 0];

/// A jump over one byte, which leads into the instruction LDL 5; and one that leads to a NOP.
const INTO: &[u8] = &[0xB9, 1, 0xCA, 5, 0xCC, 1];

const OVER: &[u8] = &[0xB9, 1, NOP, NOP];

/// A case of one index; and one whose least index is above its greatest, in either byte order.
const CASE: &[u8] = &[1, 0xB9, 0, 0xAC, 0, 0, 0, 0, 0xB9, 0, 0, 0];

const NO_CASE: &[u8] = &[1, 0xB9, 0, 0xAC, 0, 9, 0, 0, 0, 0, 0, 0];

/// The first instructions of the procedure of a letter, and how many NOP follow them.
fn procedure_of(letter: u8) -> (&'static [u8], usize) {
    match letter {
        b's' => (&[], FEW),
        b'j' => (OVER, MANY),
        b'c' => (CASE, MANY),
        b'd' => (CASE, FEW),
        b'X' => (INTO, MANY),
        b'Y' => (INTO, FEW),
        b'C' => (NO_CASE, MANY),
        // a word is left at the return; a word is taken that is not there
        b'W' => (&[1], MANY),
        b'T' => (&[0xCC, 1], MANY),
        // l, and n, which is native
        _ => (&[], MANY),
    }
}

/// Adds a word that says how far this place is before it.
fn add_word<A: Allocator>(
    code: &mut Vec<u8, A>,
    order: Order,
    place: usize,
) -> Result<(), AllocError> {
    let word = u16::try_from(code.len().saturating_sub(place)).unwrap_or(0);
    let bytes = match order {
        Order::Little => word.to_le_bytes(),
        Order::Big => word.to_be_bytes(),
    };
    code.extend_from_slice(&bytes)
}

/// Adds a procedure of this number: the place of its table.
fn add_procedure<A: Allocator>(
    code: &mut Vec<u8, A>,
    order: Order,
    number: u8,
    letter: u8,
) -> Result<usize, AllocError> {
    let enter = code.len();
    let (first, count) = procedure_of(letter);
    code.extend_from_slice(first)?;
    for _ in 0..count {
        code.push(NOP)?;
    }
    let leave = code.len();
    code.extend_from_slice(&RETURN)?;
    add_word(code, order, leave)?;
    add_word(code, order, enter)?;
    let table = code.len();
    code.extend_from_slice(&[if letter == b'n' { 0 } else { number }, 1])?;
    Ok(table)
}

/// The code of a segment with these procedures, the first of them procedure 1.
fn code_of<A: Allocator + Copy>(
    alloc: A,
    order: Order,
    letters: &str,
) -> Result<Vec<u8, A>, AllocError> {
    let mut code = Vec::new(alloc);
    let mut tables = Vec::new(alloc);
    let mut count = 0u8;
    for letter in letters.bytes() {
        count = count.saturating_add(1);
        let table = add_procedure(&mut code, order, count, letter)?;
        tables.push(table)?;
    }
    for table in tables.iter().rev() {
        add_word(&mut code, order, *table)?;
    }
    code.extend_from_slice(&[2, count])?;
    Ok(code)
}

/// Rows of procedures, and the one that is found. Without a damaged procedure none is.
static ROWS: [(&str, Option<usize>); 24] = [
    ("lllllllll", None),
    ("sjcdlllll", None),
    // one damaged procedure of nine, of eight, and alone in its segment; two of ten
    ("llllllllX", Some(9)),
    ("Xllllllll", Some(1)),
    ("llllXllll", Some(5)),
    ("lllllllX", None),
    ("X", None),
    ("llllllllXX", None),
    ("XllllllllX", None),
    // short procedures are no others, and one may be damaged
    ("lllllllsX", None),
    ("lllllllslX", Some(10)),
    ("llllllllY", Some(9)),
    // the evaluation stack
    ("llllllllW", Some(9)),
    ("Tllllllll", Some(1)),
    ("lllllllW", None),
    ("llllllllWT", None),
    // the first rule of two, and one rule where several procedures break the first
    ("llllllllWX", Some(10)),
    ("lllllllWX", Some(9)),
    ("llllllllXXW", Some(11)),
    // of procedures that are not read no other rule is known
    ("lllllllXXW", None),
    // no other procedure, another, and a short one has what the rule is about
    ("llllllllC", None),
    ("clllllllC", Some(9)),
    ("dllllllllC", None),
    // with a native procedure
    ("llllllllXn", None),
];

#[test]
fn finds_the_procedure_that_does_not_fit(rt: HostRuntime) -> Result<(), Fail> {
    for order in [Order::Little, Order::Big] {
        for (letters, wanted) in &ROWS {
            let code = code_of(rt.alloc(), order, letters)?;
            assert_eq!(rt; misfit(order, &code), *wanted, "{letters}");
        }
    }
    Ok(())
}
