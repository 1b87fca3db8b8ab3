//! The allocator that refuses chosen allocations, and counts all of them.
use super::rows::{Row, check_all};
use crate::notation::{holds, holds_of, number};
use refusing::Refusing;
use std::alloc::Global;
use std::process::Abort;

/// Checks which of four allocations of 10 bytes are made, and what is counted: the refused ones too.
fn makes(rt: &impl Abort, heap: &Refusing<Global>, wanted: &str) {
    for made in wanted.as_bytes() {
        let list: Result<Vec<u8, _>, _> = Vec::with_capacity(heap, 10);
        holds(rt, list.is_ok() == (*made == b'+'), wanted);
    }
    let counted = (heap.allocations(), heap.bytes(), heap.has_refused());
    holds(rt, counted == (4, 40, wanted != "++++"), wanted)
}

/// The number of the allocation that is refused alone, or from which on each is; and for each of four
/// allocations a plus sign where it is made, and a minus sign where it is not.
static REFUSED: &str = "\
once 0 ++++
once 1 -+++
once 2 +-++
once 4 +++-
once 5 ++++
from 1 ----
from 2 +---
from 4 +++-
from 5 ++++";

/// Which allocations are made.
struct RefusalRows;

impl Row for RefusalRows {
    fn check<R: Abort + AllocGlobal>(&self, rt: &R, row: &str) {
        let mut words = row.split_whitespace();
        let is_once = words.next() == Some("once");
        let allocation = number(rt, &mut words) as u64;
        let wanted = words.next().unwrap_or("no word");
        if is_once {
            makes(rt, &Refusing::once(rt.alloc(), allocation), wanted)
        } else {
            makes(rt, &Refusing::from(rt.alloc(), allocation), wanted)
        }
    }
}

#[test]
fn chosen_allocations_are_refused(rt: HostRuntime) {
    check_all(&rt, &RefusalRows, REFUSED)
}

/// A list that grows is an allocation too, which is refused in its turn: the list is as before.
#[test]
fn growth_is_an_allocation(rt: HostRuntime) {
    let heap = Refusing::once(rt.alloc(), 2);
    let mut list = Vec::with_capacity(&heap, 1).expect(&rt, "no memory");
    pushes(&rt, &mut list, (1, true), &[1]);
    pushes(&rt, &mut list, (2, false), &[1]);
    holds(
        &rt,
        heap.allocations() == 2,
        "another number of allocations",
    );
    pushes(&rt, &mut list, (2, true), &[1, 2]);
    holds(
        &rt,
        heap.allocations() == 3,
        "another number of allocations",
    )
}

/// Checks whether a list takes a number, and what it then has.
fn pushes(
    rt: &impl Abort,
    list: &mut Vec<i32, &Refusing<Global>>,
    (number, is_taken): (i32, bool),
    wanted: &[i32],
) {
    let is_right = list.push(number).is_ok() == is_taken && list.as_slice() == wanted;
    holds_of(rt, is_right, &number)
}
