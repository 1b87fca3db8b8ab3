//! Standard output and standard error that fail, or take little at a time.
use super::inputs::save_all;
use super::outcome::{Outcome, clean, clean_all, done_into, holds_image, says, text};
use super::wanted::Text;
use super::writers::{Limited, Stuck};
use refusing::Refusing;
use std::fs;
use std::process::Abort;
use std::rt::Files;

const NO_OUTPUT: &str = "pslink: cannot write standard output\n";

/// The report of a check of a host that has its unit.
pub const REPORT: &str = "file 0 prints-in-place: 2560 bytes, little-endian
slot 01 DEMO: the host program, from prints-in-place entry 01, 18 bytes
slot 07 UTIL: a unit in the host file, from prints-in-place entry 07, 24 bytes
slots without a segment: 00 02 03 04 05 06 08 09 10 11 12 13 14 15
links: segments 2 private words 0 blocks 3
references of UTIL: 1 of 1 lead to operands, 1 of them to 80 00
";

static STUCK: &str = "\
stuck-in-place HOST_IN_PLACE
stuck-host HOST
stuck-library LIBRARY";

const STUCK_LINK: &str = "pslink link stuck-in-place stuck-out";

static STUCK_COMMANDS: [&str; 9] = [
    STUCK_LINK,
    "pslink link --json -o stuck-out stuck-in-place",
    "pslink link --json -o stuck-none stuck-host",
    "pslink map --json stuck-host",
    "pslink map stuck-host stuck-library",
    "pslink map --references stuck-host stuck-library",
    "pslink show stuck-library",
    "pslink check stuck-host",
    "pslink --help",
];

/// Runs the args with this standard output.
fn printed_into<R: Files + AllocGlobal>(rt: &R, args: &str, out: Limited) -> Outcome {
    let alloc = rt.alloc();
    let heap = Refusing::once(alloc, 0);
    done_into(rt, &heap, args, (out, Limited::taking_all(alloc)))
}

/// Runs the args with a standard output that does not take what it is given.
fn cannot_print<R: Files + AllocGlobal + Abort>(rt: &R, args: &str, stuck: Stuck) {
    let run = printed_into(rt, args, Limited::stuck(rt.alloc(), stuck));
    let is_right = run.status == 3 && text(run.err.taken.as_slice()) == NO_OUTPUT;
    says(rt, is_right, &(args, stuck))
}

/// Runs each command with each writer that is stuck.
fn prints_nowhere<R: Files + AllocGlobal + Abort>(rt: &R) {
    save_all(rt, STUCK);
    for args in &STUCK_COMMANDS {
        for stuck in [Stuck::Broken, Stuck::TakesNothing, Stuck::Interrupted] {
            cannot_print(rt, *args, stuck);
        }
    }
    // The linked file was written before the line that tells of it.
    holds_image(rt, "stuck-out", "LINKED_HOST_IN_PLACE", STUCK_LINK);
    clean_all(rt, STUCK);
    clean(rt, "stuck-out");
}

#[test]
fn standard_output_that_fails(rt: HostRuntime) {
    prints_nowhere(&rt)
}

/// Has a write of the args' text fail after so many, of which each takes `most` bytes. Returns
/// whether it failed: what was taken is a prefix of the text, and all of it only where the status
/// is 0.
fn fails_to_print<R: Files + AllocGlobal + Abort>(
    rt: &R,
    args: &str,
    (most, writes): (usize, u64),
    wanted: &str,
) -> bool {
    let out = Limited::new(rt.alloc(), (most, writes), Stuck::Broken);
    let run = printed_into(rt, args, out);
    says(rt, is_taken(&run, wanted), &(args, most, writes));
    run.status != 0
}

/// Whether a run wrote what is wanted, and ended with status 0, or wrote a start of it and ended with 3.
fn is_taken(run: &Outcome, wanted: &str) -> bool {
    let taken = text(run.out.taken.as_slice());
    let complained = text(run.err.taken.as_slice());
    if run.status == 0 {
        return taken == wanted && complained.is_empty();
    }
    let is_start = wanted.starts_with(taken) && taken.len() < wanted.len();
    run.status == 3 && is_start && complained == NO_OUTPUT
}

/// Has each write of the args' text fail in turn, until none fails: how many failed.
fn failing_prints<R: Files + AllocGlobal + Abort>(
    rt: &R,
    args: &str,
    most: usize,
    wanted: &str,
) -> u64 {
    for writes in 0..2000 {
        if !fails_to_print(rt, args, (most, writes), wanted) {
            return writes;
        }
    }
    2000
}

static PRINTED: &str = "\
prints-in-place HOST_IN_PLACE
prints-host HOST
prints-library LIBRARY";

/// The args, and what they print.
static TEXTS: [(&str, Text); 6] = [
    (
        "pslink link prints-in-place prints-out",
        Text::SummaryInPlace,
    ),
    ("pslink map prints-host prints-library", Text::MapOfPair),
    ("pslink show prints-library", Text::ShownLibrary),
    ("pslink check prints-in-place", Text::ReportInPlace),
    ("pslink --help", Text::Help),
    ("pslink --version", Text::Version),
];

const LIST: &str = "pslink list prints-library prints-host";

const LISTED: &str = "prints-library: little-endian, 1536 bytes, library
prints-library: slot 02 UTIL     unit, 24 bytes
prints-host: little-endian, 1536 bytes, host
prints-host: slot 01 DEMO     host, 18 bytes
prints-host: slot 07 UTIL     wanted
";

/// Has each write of a list fail, which writes what it has of each file by itself.
fn fails_each_list<R: Files + AllocGlobal + Abort>(rt: &R) {
    let first = LISTED.find("prints-host").unwrap_or(0);
    let second = LISTED.len().saturating_sub(first);
    for most in [1, 7, 4096] {
        let failed = failing_prints(rt, LIST, most, LISTED);
        let writes = first.div_ceil(most).saturating_add(second.div_ceil(most));
        says(rt, failed == writes as u64, &(LIST, most));
    }
}

/// Has each write of each text fail.
fn fails_each_print<R: Files + AllocGlobal + Abort>(rt: &R) {
    save_all(rt, PRINTED);
    for (args, text) in &TEXTS {
        let wanted = text.text();
        for most in [1, 7, 4096] {
            let failed = failing_prints(rt, *args, most, wanted);
            let writes = wanted.len().div_ceil(most) as u64;
            says(rt, failed == writes, &(*args, most));
        }
    }
    fails_each_list(rt);
    clean_all(rt, PRINTED);
    clean(rt, "prints-out");
}

#[test]
fn each_write_of_a_text_fails(rt: HostRuntime) {
    fails_each_print(&rt)
}

/// The args, and the status that they end with.
static SILENT: [(&str, u8); 4] = [
    ("pslink link silent-host silent-out", 3),
    ("pslink map silent-host", 3),
    ("pslink show silent-host", 3),
    ("pslink frob", 2),
];

/// Runs the args with a standard error that does not take what it is given.
fn cannot_complain<R: Files + AllocGlobal + Abort>(rt: &R, args: &str, stuck: Stuck, wanted: u8) {
    let alloc = rt.alloc();
    let heap = Refusing::once(alloc, 0);
    let writers = (Limited::taking_all(alloc), Limited::stuck(alloc, stuck));
    let run = done_into(rt, &heap, args, writers);
    let is_right = run.status == wanted && run.out.taken.is_empty();
    says(rt, is_right, &(args, stuck))
}

/// Runs each row with each writer that is stuck.
fn complains_nowhere<R: Files + AllocGlobal + Abort>(rt: &R) {
    let _ = fs::remove_file(rt, "silent-host");
    for (args, wanted) in &SILENT {
        for stuck in [Stuck::Broken, Stuck::TakesNothing, Stuck::Interrupted] {
            cannot_complain(rt, *args, stuck, *wanted);
        }
    }
}

#[test]
fn standard_error_that_fails(rt: HostRuntime) {
    complains_nowhere(&rt)
}
