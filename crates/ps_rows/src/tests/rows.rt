//! Links as rows of a text, each with the changes of its files and its answer.
//!
//! | Line | What it says |
//! |---|---|
//! | `files pair, ample memory` | the files that the rows below change, and the memory that each is tried with |
//! | `what \| host \| library \| fault` | a refusal: what it shows, the changes of the host and of the first library, and the fault |
//! | `what \| host \| library \| linked \| summary` | a link: also the changes of what they are linked to, and the line that the program prints |
//! | `# sizes` | nothing: what the rows below are about |
//!
//! The files are those of `FILES` of `tables.rt`, in the other byte order behind the word `big`. A
//! dash stands for no changes.
use super::allocations::{makes_no_allocation, refuses_each_allocation};
use super::answers::links;
use super::calls::Link;
use super::tables::{Base, Check, base_named};
use crate::code_file::Changes;
use crate::notation::holds;
use std::process::Abort;

/// What each row of a text checks.
pub(crate) trait Row {
    /// Checks a row.
    fn check<R: Abort + AllocGlobal>(&self, rt: &R, row: &str);
}

/// Checks each row of a text. A line that begins with a number sign says what the rows below are
/// about.
pub(crate) fn check_all(rt: &(impl Abort + AllocGlobal), call: &impl Row, rows: &str) {
    for row in rows.lines() {
        if !row.starts_with('#') {
            call.check(rt, row);
        }
    }
}

/// The memory that a link is given beside as much as it requests.
#[derive(Clone, Copy)]
enum Memory {
    /// No other.
    Ample,
    /// None, and it requests none.
    NoAllocation,
    /// Each allocation is refused in turn, and the link is made again with ample memory.
    EachAllocationRefused,
}

/// The files that rows change, and the memory that each is tried with.
#[derive(Clone, Copy)]
struct Tried {
    base: Base<'static>,
    memory: Memory,
}

/// What a link shows, the memory that it is tried with, and its answer.
#[derive(Clone, Copy)]
struct Answer<'a> {
    what: &'a str,
    memory: Memory,
    answer: &'a str,
}

impl<'a> Check for Answer<'a> {
    fn check<R: Abort + AllocGlobal>(&self, rt: &R, link: &Link<'_>) {
        links(rt, self.what, link, self.answer);
        match self.memory {
            Memory::Ample => (),
            Memory::NoAllocation => makes_no_allocation(rt, self.what, link, self.answer),
            Memory::EachAllocationRefused => {
                refuses_each_allocation(rt, self.what, link, self.answer)
            }
        }
    }
}

/// What a line says behind `files `.
fn tried_with(rt: &impl Abort, files: &str) -> Tried {
    let (name, memory) = files.split_once(", ").expect(rt, files);
    let memory = match memory {
        "ample memory" => Memory::Ample,
        "no allocation" => Memory::NoAllocation,
        _ => {
            holds(rt, memory == "each allocation refused", memory);
            Memory::EachAllocationRefused
        }
    };
    Tried {
        base: base_named(rt, name),
        memory,
    }
}

/// The field before the next bar, and what is behind it.
pub(crate) fn field<'a>(rt: &impl Abort, row: &'a str) -> (&'a str, &'a str) {
    row.split_once(" | ").expect(rt, row)
}

/// The three fields of a row.
pub(crate) fn fields<'a>(rt: &impl Abort, row: &'a str) -> (&'a str, &'a str, &'a str) {
    let (first, rest) = field(rt, row);
    let (second, third) = field(rt, rest);
    (first, second, third)
}

/// The next field, which has changes, and the rest of the row.
pub(crate) fn changes<'a>(rt: &impl Abort, row: &'a str) -> (Changes<'a>, &'a str) {
    match field(rt, row) {
        ("-", rest) => ("", rest),
        found => found,
    }
}

impl Row for Tried {
    fn check<R: Abort + AllocGlobal>(&self, rt: &R, row: &str) {
        let (what, rest) = field(rt, row);
        let (host, rest) = changes(rt, rest);
        let (library, rest) = changes(rt, rest);
        // nothing is linked where there is the answer alone
        let (linked, answer) = match rest.split_once(" | ") {
            None => ("size 0", rest),
            Some(("-", answer)) => ("", answer),
            Some(found) => found,
        };
        let memory = self.memory;
        let check = Answer {
            what,
            memory,
            answer,
        };
        self.base.check(rt, (host, library, linked), &check)
    }
}

/// Checks each of these rows with the files and the memory that this says.
pub(crate) fn check_each(rt: &(impl Abort + AllocGlobal), files: &str, rows: &str) {
    check_all(rt, &tried_with(rt, files), rows)
}

/// Checks each of these rows, whose first line says the files and the memory.
pub(crate) fn check_rows(rt: &(impl Abort + AllocGlobal), rows: &str) {
    let mut tried = None;
    for row in rows.lines() {
        match row.strip_prefix("files ") {
            Some(files) => tried = Some(tried_with(rt, files)),
            None if row.starts_with('#') => (),
            None => tried.expect(rt, "a row without files").check(rt, row),
        }
    }
}
