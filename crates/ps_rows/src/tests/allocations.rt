//! Calls where memory is wanting.
use super::answers::{OUT_OF_MEMORY, is};
use crate::line::Line;
use crate::notation::holds;
use refusing::Refusing;
use std::alloc::{Allocator, Global};
use std::process::Abort;

/// More allocations than a call on these files makes.
const MANY: u64 = 1000;

/// A call that takes memory.
pub(crate) trait Allocating {
    /// Makes the call, which grows on `heap`, and returns its answer as text made on `alloc`.
    fn answer<A: Allocator + Copy>(&self, alloc: Global, heap: A) -> Line;
}

/// Makes a call with each allocation refused in turn, until none was refused: the answer is out of
/// memory, and a second call has the memory that it wants. Returns how many were refused.
pub(crate) fn refused_allocations(
    rt: &(impl Abort + AllocGlobal),
    what: &str,
    call: &impl Allocating,
    answer: &str,
) -> u64 {
    for allocation in 1..MANY {
        if !is_refused(rt, what, call, answer, allocation) {
            return allocation - 1;
        }
    }
    holds(rt, false, what);
    MANY
}

/// Makes a call with the allocation of this number refused. Returns whether there was one.
fn is_refused(
    rt: &(impl Abort + AllocGlobal),
    what: &str,
    call: &impl Allocating,
    answer: &str,
    allocation: u64,
) -> bool {
    let alloc = rt.alloc();
    let heap = Refusing::once(alloc, allocation);
    let text = call.answer(alloc, &heap);
    let has_refused = heap.has_refused();
    is(
        rt,
        what,
        text,
        if has_refused { OUT_OF_MEMORY } else { answer },
    );
    if has_refused {
        is(rt, what, call.answer(alloc, &heap), answer);
    }
    has_refused
}

/// Refuses each allocation of a call that does grow.
pub(crate) fn refuses_each_allocation(
    rt: &(impl Abort + AllocGlobal),
    what: &str,
    call: &impl Allocating,
    answer: &str,
) {
    let refused = refused_allocations(rt, what, call, answer);
    holds(rt, refused > 0, what)
}

/// Checks the answer of a call that has no memory and requests none.
pub(crate) fn makes_no_allocation(
    rt: &(impl Abort + AllocGlobal),
    what: &str,
    call: &impl Allocating,
    answer: &str,
) {
    let alloc = rt.alloc();
    let heap = Refusing::from(alloc, 1);
    is(rt, what, call.answer(alloc, &heap), answer);
    holds(rt, heap.allocations() == 0, what)
}
