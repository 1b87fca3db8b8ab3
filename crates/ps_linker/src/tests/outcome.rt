//! What a run returns and writes.
use super::faulty::{Faults, Faulty};
use super::inputs::file_of;
use super::writers::Limited;
use crate::run;
use ps_command::run_with_files;
use refusing::Refusing;
use std::alloc::Global;
use std::fmt::Debug;
use std::fs;
use std::process::Abort;
use std::rt::Files;

/// What a run returns and writes.
#[derive(Drop)]
pub struct Outcome {
    pub status: u8,
    pub out: Limited,
    pub err: Limited,
}

/// Runs the arguments with ample memory.
pub fn done<R: Files + AllocGlobal>(rt: &R, args: &str) -> Outcome {
    done_with(rt, &Refusing::once(rt.alloc(), 0), args)
}

/// Runs the arguments with ample memory: the run returns this status and writes these texts.
pub fn gives<R: Files + AllocGlobal + Abort>(rt: &R, args: &str, status: u8, out: &str, err: &str) {
    done(rt, args).is(rt, args, status, out, err)
}

/// Runs the arguments with ample memory, on files of which one fails so. Returns how many files the
/// program tried to open to be written, too.
pub fn done_faulty<R: Files + AllocGlobal>(rt: &R, faults: Faults, args: &str) -> (Outcome, u64) {
    done_refused(rt, &Refusing::once(rt.alloc(), 0), faults, args)
}

/// The same with memory from `heap`.
pub fn done_refused<R: Files + AllocGlobal>(
    rt: &R,
    heap: &Refusing<Global>,
    faults: Faults,
    args: &str,
) -> (Outcome, u64) {
    let alloc = rt.alloc();
    let mut files = Faulty::taking(rt, faults);
    let mut out = Limited::taking_all(alloc);
    let mut err = Limited::taking_all(alloc);
    let words = words_of(alloc, args);
    let status = run_with_files(
        &mut files,
        alloc,
        heap,
        words.as_slice(),
        &mut out,
        &mut err,
    );
    (Outcome { status, out, err }, files.created())
}

/// Runs the arguments with memory from `heap`.
pub fn done_with<R: Files + AllocGlobal>(rt: &R, heap: &Refusing<Global>, args: &str) -> Outcome {
    let alloc = rt.alloc();
    let writers = (Limited::taking_all(alloc), Limited::taking_all(alloc));
    done_into(rt, heap, args, writers)
}

/// Runs the arguments, which are words, with memory from `heap` and with these writers.
pub fn done_into<R: Files + AllocGlobal>(
    rt: &R,
    heap: &Refusing<Global>,
    args: &str,
    (out, err): (Limited, Limited),
) -> Outcome {
    let words = words_of(rt.alloc(), args);
    let mut out = out;
    let mut err = err;
    let status = run(rt, heap, words.as_slice(), &mut out, &mut err);
    Outcome { status, out, err }
}

/// The words of the arguments.
fn words_of(alloc: Global, args: &str) -> Vec<&str> {
    let mut words = Vec::new(alloc);
    for word in args.split_whitespace() {
        let _ = words.push(word);
    }
    words
}

impl Outcome {
    /// The run of this row succeeded, and printed these two texts, one behind the other.
    pub fn prints<D: Debug + Copy>(&self, rt: &impl Abort, row: D, first: &str, second: &str) {
        let printed = text(self.out.taken.as_slice());
        let is_right = self.status == 0
            && self.err.taken.is_empty()
            && printed.strip_prefix(first) == Some(second);
        says(rt, is_right, &(row, printed));
    }

    /// The run of this row was wrong usage, of which it said these two texts, one behind the other.
    pub fn is_wrong_usage(&self, rt: &impl Abort, row: &str, first: &str, second: &str) {
        let complained = text(self.err.taken.as_slice());
        let is_right = self.status == 2
            && self.out.taken.is_empty()
            && complained.strip_prefix(first) == Some(second);
        says(rt, is_right, &(row, complained));
    }

    /// The run of this row returned this status and wrote these texts.
    pub fn is<D: Debug + Copy>(&self, rt: &impl Abort, row: D, status: u8, out: &str, err: &str) {
        let printed = text(self.out.taken.as_slice());
        let complained = text(self.err.taken.as_slice());
        let is_right = self.status == status && printed == out && complained == err;
        says(rt, is_right, &(row, printed, complained));
    }
}

/// Checks what has to be right of this row, which is printed where it is not.
pub fn says<D: Debug>(rt: &impl Abort, is_right: bool, row: &D) {
    assert!(rt; is_right, "{row:?}");
}

pub fn text(bytes: &[u8]) -> &str {
    std::str::from_utf8(bytes).unwrap_or("not UTF-8")
}

/// Checks that a file is there with these bytes.
pub fn holds<R: Files + AllocGlobal + Abort>(rt: &R, path: &str, bytes: &[u8], row: &str) {
    let is_held = match fs::read(rt, path) {
        Ok(file) => file.as_slice() == bytes,
        Err(_) => false,
    };
    says(rt, is_held, &(path, row))
}

/// Checks that a file is there with the bytes of the code file of this name.
pub fn holds_image<R: Files + AllocGlobal + Abort>(rt: &R, path: &str, image: &str, row: &str) {
    holds(rt, path, file_of(rt, image).as_slice(), row)
}

/// Removes the files of a table.
pub fn clean_all<R: Files>(rt: &R, files: &str) {
    for line in files.lines() {
        if let Some((path, _)) = line.split_once(' ') {
            clean(rt, path);
        }
    }
}

/// Removes files of a test, whose paths are words.
pub fn clean<R: Files>(rt: &R, paths: &str) {
    for path in paths.split_whitespace() {
        let _ = fs::remove_file(rt, path);
    }
}
