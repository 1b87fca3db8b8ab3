//! `link`: what is written and printed, and what becomes of OUT.
use super::faulty::NO_FAULTS;
use super::inputs::{SUMMARY_IN_PLACE, SUMMARY_OF_PAIR, save_all, save_text};
use super::outcome::{clean, clean_all, done_faulty, gives, holds, holds_image, says};
use std::fs;
use std::os::unix::fs::symlink;
use std::process::Abort;
use std::rt::Files;

const MISSING: &str = "pslink: refused 13 MissingUnit file 0 slot 7\n";

const SHORT: &str = "pslink: refused 1 ShortFile file 0\n";

const NO_END: &str = "pslink: refused 19 RecordsTruncated file 1 slot 7 record 2\n";

static FILES: &str = "\
link-in-place HOST_IN_PLACE
link-same HOST_IN_PLACE
link-host HOST
link-library LIBRARY
link-ending-host ENDING_HOST
link-ending ENDING_LIBRARY
link-cut CUT_LIBRARY";

const NOT_THERE: &str = "pslink: cannot read link-nowhere\n";

/// The arguments of a link that is refused or of which a file is not there, the status, and what is
/// said. OUT stays as before.
static REFUSED: [(&str, u8, &str); 5] = [
    ("pslink link link-host link-out", 1, MISSING),
    ("pslink link link-short link-out", 1, SHORT),
    ("pslink link link-ending-host link-out link-cut", 1, NO_END),
    (
        "pslink link link-host link-out link-library link-nowhere",
        3,
        NOT_THERE,
    ),
    (
        "pslink link link-nowhere link-out link-library",
        3,
        NOT_THERE,
    ),
];

/// The arguments of a link, what is printed, OUT, and what OUT then has.
static LINKED: [(&str, &str, &str, &str); 4] = [
    (
        "pslink link link-in-place link-new",
        SUMMARY_IN_PLACE,
        "link-new",
        "LINKED_HOST_IN_PLACE",
    ),
    (
        "pslink link link-same link-same",
        SUMMARY_IN_PLACE,
        "link-same",
        "LINKED_HOST_IN_PLACE",
    ),
    (
        "pslink link link-host link-out link-library",
        SUMMARY_OF_PAIR,
        "link-out",
        "LINKED_PAIR",
    ),
    (
        "pslink link link-ending-host link-ended link-ending",
        SUMMARY_OF_PAIR,
        "link-ended",
        "LINKED_PAIR",
    ),
];

/// Links each row.
fn links_files<R: Files + AllocGlobal + Abort>(rt: &R) {
    save_all(rt, FILES);
    save_text(rt, "link-short", "a host under 512 bytes");
    save_text(rt, "link-out", "as before");
    clean(rt, "link-new");
    for (args, status, complained) in &REFUSED {
        gives(rt, *args, *status, "", *complained);
        holds(rt, "link-out", b"as before", *args);
    }
    for (args, summary, out, image) in &LINKED {
        gives(rt, *args, 0, *summary, "");
        holds_image(rt, *out, *image, *args);
    }
    clean_all(rt, FILES);
    clean(rt, "link-new link-ended link-short link-out");
}

#[test]
fn links_and_leaves_out_where_it_refuses(rt: HostRuntime) {
    links_files(&rt)
}

/// A link whose OUT leads to its second library, and what is said of it.
static LED: &str = "pslink link led-host led-out led-other led-library";

static LED_FILES: &str = "\
led-host HOST
led-library LIBRARY
led-other LIBRARY";

static LED_OUT: &str = "led-out LIBRARY";

const LEADS_TO_LIBRARY: &str =
    "error: invalid value 'led-out' for '<OUT>': it is the library 'led-library'

Usage: pslink link [OPTIONS] -o <OUT> <HOST> [LIB]...
       pslink link [OPTIONS] <HOST> <OUT> [LIB]...

For more information, try '--help'.
";

const IS_LIBRARY: &str =
    "error: invalid value 'led-library' for '<OUT>': it is named as a library too

Usage: pslink link [OPTIONS] -o <OUT> <HOST> [LIB]...
       pslink link [OPTIONS] <HOST> <OUT> [LIB]...

For more information, try '--help'.
";

const SPELLS_LIBRARY: &str =
    "error: invalid value './led-library' for '<OUT>': it is the library 'led-library'

Usage: pslink link [OPTIONS] -o <OUT> <HOST> [LIB]...
       pslink link [OPTIONS] <HOST> <OUT> [LIB]...

For more information, try '--help'.
";

/// Links whose OUT is a library by its path, or by another spelling of it, and what is said of them.
static SPELLED: [(&str, &str); 2] = [
    (
        "pslink link led-host led-library led-other led-library",
        IS_LIBRARY,
    ),
    (
        "pslink link led-host ./led-library led-other led-library",
        SPELLS_LIBRARY,
    ),
];

/// A link whose option names a file that leads to its host, and what is said of it.
static LED_BY_OPTION: &str = "pslink link -o led-out led-host led-library";

/// A link whose OUT is the host, by its place after it: it is written.
static LED_BY_PLACE: &str = "pslink link led-host led-host led-library";

const LEADS_TO_HOST: &str =
    "error: invalid value 'led-out' for '--output <OUT>': it is the host 'led-host'

Usage: pslink link [OPTIONS] -o <OUT> <HOST> [LIB]...
       pslink link [OPTIONS] <HOST> <OUT> [LIB]...

For more information, try '--help'.
";

const IS_HOST: &str = "error: invalid value 'led-host' for '--output <OUT>': it is named as HOST too

Usage: pslink link [OPTIONS] -o <OUT> <HOST> [LIB]...
       pslink link [OPTIONS] <HOST> <OUT> [LIB]...

For more information, try '--help'.
";

const SPELLS_HOST: &str =
    "error: invalid value './led-host' for '--output <OUT>': it is the host 'led-host'

Usage: pslink link [OPTIONS] -o <OUT> <HOST> [LIB]...
       pslink link [OPTIONS] <HOST> <OUT> [LIB]...

For more information, try '--help'.
";

/// Links whose option names the host by its path, or by another spelling of it, and what is said of them.
static SPELLED_HOST: [(&str, &str); 2] = [
    (
        "pslink link led-host led-library --output led-host",
        IS_HOST,
    ),
    (
        "pslink link -o ./led-host led-host led-library",
        SPELLS_HOST,
    ),
];

/// The link is wrong usage, and no file is opened to be written.
fn overwrites_no_input<R: Files + AllocGlobal + Abort>(
    rt: &R,
    args: &str,
    complained: &str,
    row: &str,
) {
    let (run, created) = done_faulty(rt, NO_FAULTS, args);
    run.is(rt, row, 2, "", complained);
    says(rt, created == 0, &row);
    holds_image(rt, "led-library", "LIBRARY", row);
    holds_image(rt, "led-host", "HOST", row);
    clean(rt, "led-out");
}

/// A library and links to it are no OUT, and a copy of it is. So is the host, where the option names OUT.
fn takes_a_copy<R: Files + AllocGlobal + Abort>(rt: &R) {
    clean(rt, "led-out");
    save_all(rt, LED_FILES);
    for (args, complained) in &SPELLED {
        overwrites_no_input(rt, *args, *complained, *args);
    }
    for (args, complained) in &SPELLED_HOST {
        overwrites_no_input(rt, *args, *complained, *args);
    }
    let _ = fs::hard_link(rt, "led-library", "led-out");
    overwrites_no_input(rt, LED, LEADS_TO_LIBRARY, "a hard link");
    let _ = symlink(rt, "led-library", "led-out");
    overwrites_no_input(rt, LED, LEADS_TO_LIBRARY, "a symbolic link");
    let _ = fs::hard_link(rt, "led-host", "led-out");
    overwrites_no_input(rt, LED_BY_OPTION, LEADS_TO_HOST, "a hard link to the host");
    let _ = symlink(rt, "led-host", "led-out");
    overwrites_no_input(
        rt,
        LED_BY_OPTION,
        LEADS_TO_HOST,
        "a symbolic link to the host",
    );
    save_all(rt, LED_OUT);
    gives(rt, LED, 0, SUMMARY_OF_PAIR, "");
    holds_image(rt, "led-out", "LINKED_PAIR", "a copy");
    gives(rt, LED_BY_PLACE, 0, SUMMARY_OF_PAIR, "");
    holds_image(rt, "led-host", "LINKED_PAIR", "the host by its place");
    clean(rt, "led-host led-library led-other led-out");
}

#[test]
fn a_path_that_leads_to_an_input_is_no_out(rt: HostRuntime) {
    takes_a_copy(&rt)
}
