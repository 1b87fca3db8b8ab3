//! `link` with OUT by its option, with its map, its documents, and where its summary is printed.
use super::faulty::NO_FAULTS;
use super::inputs::{
    JSON_OF_PAIR, MAP_OF_PAIR, REFERENCES_OF_PAIR, SUMMARY_OF_PAIR, save_all, save_text,
};
use super::outcome::{clean, clean_all, done, done_faulty, gives, holds, holds_image, says};
use std::process::Abort;
use std::rt::Files;

pub const JSON_SUMMARY: &str = "{\"segments\":2,\"private_words\":4,\"blocks\":3}\n";

const MISSING: &str = "pslink: refused 13 MissingUnit file 0 slot 7\n";

const MISSING_JSON: &str =
    "{\"path\":\"mapped-host\",\"fault\":{\"number\":13,\"reason\":\"MissingUnit\",\"kind\":null,\"file\":0,\"slot\":7,\"record\":null,\"reference\":null,\"name\":\"UTIL    \",\"name_hex\":\"5554494C20202020\"}}\n";

/// The document of a link that is refused, whose OUT this is.
const MISSING_LINK_JSON: &str =
    "{\"path\":\"mapped-host\",\"out\":\"mapped-none\",\"fault\":{\"number\":13,\"reason\":\"MissingUnit\",\"kind\":null,\"file\":0,\"slot\":7,\"record\":null,\"reference\":null,\"name\":\"UTIL    \",\"name_hex\":\"5554494C20202020\"}}\n";

/// That of a link without `-o`, of which a library was taken for OUT.
const LIBRARY_AS_OUT_JSON: &str =
    "{\"path\":\"mapped-host\",\"out\":\"mapped-library\",\"fault\":{\"number\":13,\"reason\":\"MissingUnit\",\"kind\":null,\"file\":0,\"slot\":7,\"record\":null,\"reference\":null,\"name\":\"UTIL    \",\"name_hex\":\"5554494C20202020\"}}\n";

const SHORT: &str = "pslink: refused 1 ShortFile file 0\n";

const SHORT_JSON: &str =
    "{\"path\":\"mapped-short\",\"fault\":{\"number\":1,\"reason\":\"ShortFile\",\"kind\":null,\"file\":0,\"slot\":null,\"record\":null,\"reference\":null,\"name\":null,\"name_hex\":null}}\n";

const SHORT_LIBRARY: &str = "pslink: refused 1 ShortFile file 2\n";

const SHORT_LIBRARY_JSON: &str =
    "{\"path\":\"mapped-short\",\"fault\":{\"number\":1,\"reason\":\"ShortFile\",\"kind\":null,\"file\":2,\"slot\":null,\"record\":null,\"reference\":null,\"name\":null,\"name_hex\":null}}\n";

const SHORT_LIBRARY_LINK_JSON: &str =
    "{\"path\":\"mapped-short\",\"out\":\"to-output-\\\"none\",\"fault\":{\"number\":1,\"reason\":\"ShortFile\",\"kind\":null,\"file\":2,\"slot\":null,\"record\":null,\"reference\":null,\"name\":null,\"name_hex\":null}}\n";

static FILES: &str = "\
mapped-host HOST
mapped-library LIBRARY
mapped-cut CUT_LIBRARY";

/// The arguments of a link, what is printed on standard output and on standard error, and what the
/// file of its map then has. A path that begins with `to-output` leads to standard output.
static LINKED: [(&str, &str, &str, &str); 12] = [
    (
        "pslink link -o mapped-out mapped-host mapped-library",
        SUMMARY_OF_PAIR,
        "",
        "as before",
    ),
    (
        "pslink link mapped-host mapped-library --output=mapped-out -q",
        "",
        "",
        "as before",
    ),
    (
        "pslink link --quiet mapped-host mapped-out mapped-library",
        "",
        "",
        "as before",
    ),
    (
        "pslink link --json mapped-host -omapped-out mapped-library",
        JSON_SUMMARY,
        "",
        "as before",
    ),
    (
        "pslink link -q --json mapped-host mapped-out mapped-library",
        "",
        "",
        "as before",
    ),
    (
        "pslink link -o mapped-out --map mapped-map mapped-host mapped-library",
        SUMMARY_OF_PAIR,
        "",
        MAP_OF_PAIR,
    ),
    (
        "pslink link mapped-host mapped-out mapped-library --map=mapped-map",
        SUMMARY_OF_PAIR,
        "",
        MAP_OF_PAIR,
    ),
    (
        "pslink link --references mapped-host --map mapped-map -qo mapped-out mapped-library",
        "",
        "",
        REFERENCES_OF_PAIR,
    ),
    (
        "pslink link --json --references --map mapped-map -o mapped-out mapped-host mapped-library",
        JSON_SUMMARY,
        "",
        JSON_OF_PAIR,
    ),
    (
        "pslink link -o to-output-out --map mapped-map mapped-host mapped-library",
        "",
        SUMMARY_OF_PAIR,
        MAP_OF_PAIR,
    ),
    (
        "pslink link --json mapped-host mapped-library -o to-output-out",
        "",
        JSON_SUMMARY,
        "as before",
    ),
    (
        "pslink link mapped-host to-output-out mapped-library --map mapped-map",
        SUMMARY_OF_PAIR,
        "",
        MAP_OF_PAIR,
    ),
];

/// The linked file is at its path, and the map at that of the map.
fn is_linked<R: Files + AllocGlobal + Abort>(
    rt: &R,
    args: &str,
    (printed, complained, map): (&str, &str, &str),
) {
    clean(rt, "mapped-out to-output-out");
    save_text(rt, "mapped-map", "as before");
    let (run, _) = done_faulty(rt, NO_FAULTS, args);
    run.is(rt, args, 0, printed, complained);
    let out = if args.contains("to-output-out") {
        "to-output-out"
    } else {
        "mapped-out"
    };
    holds_image(rt, out, "LINKED_PAIR", args);
    holds(rt, "mapped-map", map.as_bytes(), args);
}

/// Links each row.
fn links_each<R: Files + AllocGlobal + Abort>(rt: &R) {
    save_all(rt, FILES);
    for (args, printed, complained, map) in &LINKED {
        is_linked(rt, *args, (*printed, *complained, *map));
    }
    clean_all(rt, FILES);
    clean(rt, "mapped-out to-output-out mapped-map");
}

#[test]
fn links_by_the_option_and_writes_its_map(rt: HostRuntime) {
    links_each(&rt)
}

/// The arguments of a command that is refused, its status, and what is printed on standard output and on
/// standard error. No file is opened to be written.
static REFUSED: [(&str, u8, &str, &str); 13] = [
    (
        "pslink link -o mapped-none --map mapped-none-map mapped-host",
        1,
        "",
        MISSING,
    ),
    (
        "pslink link --json -o mapped-none --map mapped-none-map mapped-host",
        1,
        MISSING_LINK_JSON,
        MISSING,
    ),
    (
        "pslink link -q --json --references --map mapped-none-map mapped-host mapped-none",
        1,
        MISSING_LINK_JSON,
        MISSING,
    ),
    (
        "pslink link --json mapped-host mapped-library",
        1,
        LIBRARY_AS_OUT_JSON,
        MISSING,
    ),
    ("pslink map --json mapped-host", 1, MISSING_JSON, MISSING),
    (
        "pslink map --references --json mapped-host",
        1,
        MISSING_JSON,
        MISSING,
    ),
    ("pslink show --json mapped-short", 1, SHORT_JSON, SHORT),
    ("pslink show mapped-short", 1, "", SHORT),
    (
        "pslink map mapped-host mapped-library mapped-short --json",
        1,
        SHORT_LIBRARY_JSON,
        SHORT_LIBRARY,
    ),
    (
        "pslink link mapped-host -o to-output-\"none mapped-library mapped-short --json",
        1,
        SHORT_LIBRARY_LINK_JSON,
        SHORT_LIBRARY,
    ),
    (
        "pslink link --json -o mapped-none mapped-absent",
        3,
        "",
        "pslink: cannot read mapped-absent\n",
    ),
    (
        "pslink map --json mapped-absent",
        3,
        "",
        "pslink: cannot read mapped-absent\n",
    ),
    (
        "pslink show --json mapped-absent",
        3,
        "",
        "pslink: cannot read mapped-absent\n",
    ),
];

/// Refuses each row.
fn refuses_each<R: Files + AllocGlobal + Abort>(rt: &R) {
    save_all(rt, FILES);
    save_text(rt, "mapped-short", "a file under 512 bytes");
    for (args, status, printed, complained) in &REFUSED {
        let (run, created) = done_faulty(rt, NO_FAULTS, *args);
        run.is(rt, *args, *status, *printed, *complained);
        says(rt, created == 0, args);
    }
    clean_all(rt, FILES);
    clean(rt, "mapped-short");
}

#[test]
fn writes_nothing_where_it_refuses(rt: HostRuntime) {
    refuses_each(&rt)
}

/// The arguments of a link whose map is a file of it, and the first line of what is said of it.
static MISUSED: &str = "\
pslink link -o a b --map a \
| error: invalid value 'a' for '--map <FILE>': it is named as another file too
pslink link --map b -o a b \
| error: invalid value 'b' for '--map <FILE>': it is named as another file too
pslink link b a c --map c \
| error: invalid value 'c' for '--map <FILE>': it is named as another file too
pslink link b a --map a \
| error: invalid value 'a' for '--map <FILE>': it is named as another file too
pslink link mapped-host -o a --map ./mapped-host \
| error: invalid value './mapped-host' for '--map <FILE>': it is the file 'mapped-host'
pslink link mapped-host mapped-library -o a --map ./mapped-library \
| error: invalid value './mapped-library' for '--map <FILE>': it is the file 'mapped-library'
pslink link b -o mapped-host --map ./mapped-host \
| error: invalid value './mapped-host' for '--map <FILE>': it is the file 'mapped-host'";

const USAGE: &str = "

Usage: pslink link [OPTIONS] -o <OUT> <HOST> [LIB]...
       pslink link [OPTIONS] <HOST> <OUT> [LIB]...

For more information, try '--help'.
";

const NO_MAP: &str = "error: the following required arguments were not provided:
  --map <FILE>

Usage: pslink link [OPTIONS] -o <OUT> <HOST> [LIB]...
       pslink link [OPTIONS] <HOST> <OUT> [LIB]...

For more information, try '--help'.
";

/// Each row is wrong usage, and the files stay as they are.
fn misuses_each<R: Files + AllocGlobal + Abort>(rt: &R) {
    save_all(rt, FILES);
    for row in MISUSED.lines() {
        let (args, complained) = row.split_once(" | ").expect(rt, row);
        done(rt, args).is_wrong_usage(rt, args, complained, USAGE);
    }
    gives(rt, "pslink link b a --references", 2, "", NO_MAP);
    holds_image(rt, "mapped-host", "HOST", "a map in its place");
    holds_image(rt, "mapped-library", "LIBRARY", "a map in its place");
    clean_all(rt, FILES);
}

#[test]
fn a_map_is_no_file_of_its_link(rt: HostRuntime) {
    misuses_each(&rt)
}

/// A link whose map cannot be written: what is said, and how many files are opened to be written. OUT is
/// whole.
static UNWRITTEN: [(&str, &str, u64); 2] = [
    (
        "pslink link -o mapped-out --map mapped-folder/map mapped-host mapped-library",
        "pslink: cannot write mapped-folder/map\n",
        2,
    ),
    (
        "pslink link -o mapped-out --map ./mapped-out mapped-host mapped-library",
        "pslink: cannot write ./mapped-out\n",
        1,
    ),
];

/// Links each row.
fn keeps_out<R: Files + AllocGlobal + Abort>(rt: &R) {
    save_all(rt, FILES);
    for (args, complained, wanted) in &UNWRITTEN {
        clean(rt, "mapped-out");
        let (run, created) = done_faulty(rt, NO_FAULTS, *args);
        run.is(rt, *args, 3, "", *complained);
        says(rt, created == *wanted, args);
        holds_image(rt, "mapped-out", "LINKED_PAIR", *args);
    }
    clean_all(rt, FILES);
    clean(rt, "mapped-out");
}

#[test]
fn out_stays_where_its_map_is_not_written(rt: HostRuntime) {
    keeps_out(&rt)
}
