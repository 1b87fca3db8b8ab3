//! Files that cannot be opened, read or written.
use super::faulty::NO_FAULTS;
use super::inputs::{SUMMARY_IN_PLACE, SUMMARY_OF_PAIR, file_of, save_all};
use super::outcome::{clean, clean_all, done_faulty, holds, says};
use super::wanted::Text;
use std::fs;
use std::os::unix::fs::symlink;
use std::process::Abort;
use std::rt::Files;

/// Runs these args: what is said is that a file cannot be opened, and so many are opened to be
/// written.
fn complains<R: Files + AllocGlobal + Abort>(rt: &R, args: &str, complaint: &str, created: u64) {
    let (run, tried) = done_faulty(rt, NO_FAULTS, args);
    run.is(rt, args, 3, "", complaint);
    says(rt, tried == created, &args)
}

static OPENED: &str = "opened-host HOST_IN_PLACE";

const MISSING: &str = "pslink: cannot read opened-missing\n";

const NOT_READ: &str = "pslink: cannot read opened-folder\n";

const NOT_WRITTEN: &str = "pslink: cannot write opened-folder\n";

const IS_MISSING: &str = "pslink: cannot read opened-missing (no such file)\n";

const IS_BELOW_A_FILE: &str = "pslink: cannot read opened-host/below (no such file)\n";

const IS_A_FOLDER: &str = "pslink: cannot read opened-folder (a folder)\n";

const IS_FORBIDDEN: &str = "pslink: cannot read forbidden (no permission)\n";

const LEADS_NOWHERE: &str = "pslink: cannot read opened-loop (the system gives another reason)\n";

/// The args, what is said, and how many files are opened to be written. Where files are checked or
/// listed, the cause is said too.
static UNOPENED: [(&str, &str, u64); 13] = [
    ("pslink link opened-missing opened-out", MISSING, 0),
    (
        "pslink link opened-host opened-out opened-missing",
        MISSING,
        0,
    ),
    ("pslink map opened-host opened-missing", MISSING, 0),
    ("pslink show opened-missing", MISSING, 0),
    ("pslink link opened-host opened-folder", NOT_WRITTEN, 1),
    ("pslink link opened-folder opened-out", NOT_READ, 0),
    ("pslink check opened-missing", IS_MISSING, 0),
    ("pslink check opened-host/below", IS_BELOW_A_FILE, 0),
    ("pslink check opened-host opened-folder", IS_A_FOLDER, 0),
    ("pslink check opened-host forbidden", IS_FORBIDDEN, 0),
    ("pslink check opened-loop", LEADS_NOWHERE, 0),
    ("pslink list forbidden", IS_FORBIDDEN, 0),
    ("pslink list opened-loop", LEADS_NOWHERE, 0),
];

/// Runs each row.
fn opens_none<R: Files + AllocGlobal + Abort>(rt: &R) {
    clean(rt, "opened-missing opened-out");
    let _ = fs::create_dir(rt, "opened-folder");
    let _ = symlink(rt, "opened-loop", "opened-loop");
    save_all(rt, OPENED);
    for (args, complaint, created) in &UNOPENED {
        complains(rt, *args, *complaint, *created);
    }
    clean(rt, "opened-host opened-loop");
    let _ = fs::remove_dir(rt, "opened-folder");
}

#[test]
fn files_that_cannot_be_opened(rt: HostRuntime) {
    opens_none(&rt)
}

/// Has a read of the file that is opened as the `nth` fail, after so many. Returns whether it
/// failed: then nothing is printed, and the program tries to open no file to be written.
fn fails_to_read<R: Files + AllocGlobal + Abort>(
    rt: &R,
    args: &str,
    (nth, reads): (u64, u64),
    complaint: &str,
    wanted: &str,
) -> bool {
    let (run, created) = done_faulty(rt, (nth, reads, 3), args);
    if run.status == 0 {
        run.is(rt, (nth, reads), 0, wanted, "");
        return false;
    }
    run.is(rt, (nth, reads), 3, "", complaint);
    says(rt, created == 0, &(nth, reads));
    true
}

/// Has each read of that file fail in turn, until none fails: how many failed.
fn failing_reads<R: Files + AllocGlobal + Abort>(
    rt: &R,
    args: &str,
    nth: u64,
    complaint: &str,
    wanted: &str,
) -> u64 {
    for reads in 0..100 {
        if !fails_to_read(rt, args, (nth, reads), complaint, wanted) {
            return reads;
        }
    }
    100
}

const NO_HOST: &str = "pslink: cannot read reads-host\n";

const NO_LIBRARY: &str = "pslink: cannot read reads-library\n";

const LINK: &str = "pslink link reads-host reads-out reads-library";

const MAP: &str = "pslink map reads-host reads-library";

const SHOW: &str = "pslink show reads-library";

/// The args, which of the files that are opened fails, what is then said, and what is printed where
/// no read fails.
static READS: [(&str, u64, &str, Text); 5] = [
    (LINK, 1, NO_HOST, Text::SummaryOfPair),
    (LINK, 2, NO_LIBRARY, Text::SummaryOfPair),
    (MAP, 1, NO_HOST, Text::MapOfPair),
    (MAP, 2, NO_LIBRARY, Text::MapOfPair),
    (SHOW, 1, NO_LIBRARY, Text::ShownLibrary),
];

static READ: &str = "\
reads-host HOST
reads-library LIBRARY";

/// Has each read of each row fail.
fn fails_each_read<R: Files + AllocGlobal + Abort>(rt: &R) {
    save_all(rt, READ);
    for (args, nth, complained, wanted) in &READS {
        let failed = failing_reads(rt, *args, *nth, *complained, wanted.text());
        says(rt, failed == 5, args);
    }
    clean(rt, "reads-host reads-out reads-library");
}

#[test]
fn each_read_fails(rt: HostRuntime) {
    fails_each_read(&rt)
}

/// How long a file's whole blocks are that are written, and how much of the next block, with one
/// write more, which takes at most so many bytes of a block.
fn lengthened((whole, begun): (u64, u64), most: u64) -> (u64, u64) {
    let begun = begun.saturating_add(most).min(512);
    if begun == 512 {
        (whole.saturating_add(512), 0)
    } else {
        (whole, begun)
    }
}

/// Checks that OUT is the start of the linked file, of this length, once a write of it failed.
fn is_started<R: Files + AllocGlobal + Abort>(
    rt: &R,
    linked: &[u8],
    (whole, begun): (u64, u64),
    row: (u64, u64),
) {
    let is_right = match fs::read(rt, "writes-out") {
        Ok(made) => {
            let length = made.len() as u64;
            linked.starts_with(made.as_slice()) && length == whole.saturating_add(begun)
        }
        Err(_) => false,
    };
    says(rt, is_right, &row)
}

/// Has a write of OUT fail after so many, where more are needed. OUT is the `nth` file that is
/// opened, and a write takes so many bytes at most.
fn fails_to_write<R: Files + AllocGlobal + Abort>(
    rt: &R,
    args: &str,
    (nth, most, needed): (u64, usize, u64),
    (writes, length): (u64, (u64, u64)),
    printed: &str,
    linked: &[u8],
) {
    let row = (writes, needed);
    let (run, created) = done_faulty(rt, (nth, writes, most), args);
    says(rt, created == 1, &row);
    if writes == needed {
        run.is(rt, row, 0, printed, "");
        holds(rt, "writes-out", linked, args);
    } else {
        run.is(rt, row, 3, "", "pslink: cannot write writes-out\n");
        is_started(rt, linked, length, row);
    }
}

/// Has each write of OUT fail in turn, until none fails after so many as are needed.
fn failing_writes<R: Files + AllocGlobal + Abort>(
    rt: &R,
    args: &str,
    faults: (u64, usize, u64),
    printed: &str,
    linked: &[u8],
) {
    let (_, most, needed) = faults;
    let mut length = (0, 0);
    for writes in 0..=needed {
        fails_to_write(rt, args, faults, (writes, length), printed, linked);
        length = lengthened(length, most as u64);
    }
}

static WRITTEN: &str = "\
writes-in-place HOST_IN_PLACE
writes-host HOST
writes-library LIBRARY";

/// The args, as which file OUT is opened, how much a write takes, in how many writes, what is
/// printed, and the linked file.
static WRITES: [(&str, (u64, usize, u64), &str, &str); 2] = [
    (
        "pslink link writes-in-place writes-out",
        (2, 3, 513),
        SUMMARY_IN_PLACE,
        "LINKED_HOST_IN_PLACE",
    ),
    (
        "pslink link writes-host writes-out writes-library",
        (3, usize::MAX, 3),
        SUMMARY_OF_PAIR,
        "LINKED_PAIR",
    ),
];

static STALLS: &str = "stalls-host HOST_IN_PLACE";

static STALLED: &str = "pslink link stalls-host stalls-out";

/// Links to a file that takes no bytes.
fn writes_no_bytes<R: Files + AllocGlobal + Abort>(rt: &R) {
    save_all(rt, STALLS);
    let (run, _) = done_faulty(rt, (0, 0, 0), STALLED);
    run.is(rt, "stalls", 3, "", "pslink: cannot write stalls-out\n");
    holds(rt, "stalls-out", &[], STALLED);
    clean(rt, "stalls-host stalls-out");
}

#[test]
fn a_file_that_takes_no_bytes(rt: HostRuntime) {
    writes_no_bytes(&rt)
}

/// Has each write of each row fail.
fn fails_each_write<R: Files + AllocGlobal + Abort>(rt: &R) {
    save_all(rt, WRITTEN);
    for (args, faults, printed, image) in &WRITES {
        failing_writes(rt, *args, *faults, *printed, file_of(rt, *image).as_slice());
    }
    clean_all(rt, WRITTEN);
    clean(rt, "writes-out");
}

#[test]
fn each_write_of_a_link_fails(rt: HostRuntime) {
    fails_each_write(&rt)
}
