//! `map` and `show`: their texts, and what they refuse.
use super::inputs::{HOST_SLOTS, file_of, save, save_all};
use super::outcome::{Outcome, clean, clean_all, done, done_with, gives, holds_image, says};
use super::wanted::Text;
use refusing::Refusing;
use std::fs;
use std::process::Abort;
use std::rt::Files;

/// The args of a map, the status and the two texts.
type Mapped<'a> = (&'a str, u8, Text, &'a str);

static MAP_FILES: &str = "\
map-host HOST
map-library LIBRARY
map-constant HOST_WITH_CONSTANT
map-linked LINKED_PAIR
map-both LIBRARY_OF_BOTH";

const NO_UNIT: &str = "pslink: refused 13 MissingUnit file 0 slot 7\n";

const NO_HOST: &str = "pslink: refused 4 NoHost file 0\n";

const LINKED: &str = "pslink: refused 14 NotAUnit kind 0 file 1 slot 7\n";

static MAPS: [Mapped<'static>; 7] = [
    ("pslink map map-host map-library", 0, Text::MapOfPair, ""),
    (
        "pslink map map-host map-library --references",
        0,
        Text::ReferencesOfPair,
        "",
    ),
    (
        "pslink map map-constant map-library",
        0,
        Text::MapWithConstant,
        "",
    ),
    // a unit that only a unit names
    (
        "pslink map map-host map-both",
        0,
        Text::MapOfAnAddedUnit,
        "",
    ),
    ("pslink map map-host", 1, Text::Nothing, NO_UNIT),
    ("pslink map map-linked map-host", 1, Text::Nothing, NO_HOST),
    ("pslink map map-host map-linked", 1, Text::Nothing, LINKED),
];

/// Maps each row, whose host stays as it is.
fn maps_files<R: Files + AllocGlobal + Abort>(rt: &R) {
    save_all(rt, MAP_FILES);
    for (args, status, printed, complained) in &MAPS {
        gives(rt, *args, *status, printed.text(), *complained);
    }
    holds_image(rt, "map-host", "HOST", "map");
    clean_all(rt, MAP_FILES);
}

#[test]
fn maps_a_host_with_its_libraries(rt: HostRuntime) {
    maps_files(&rt)
}

/// Shows the code file of this name.
fn shown<R: Files + AllocGlobal + Abort>(rt: &R, image: &str) -> Outcome {
    save(rt, "show-file", file_of(rt, image).as_slice());
    done(rt, "pslink show show-file")
}

const CUT: &str =
    "links 02\n0 PUBLREF COUNT    at 1\n1 PRIVREF STATE    words 4 at 4\n2 fault 19 RecordsTruncated\n";

const UNLISTED: &str = "links 02\n0 UNITREF AUX      at 2 unlisted\n1 EOFMARK next 0\n";

const NOWHERE: &str = "links 02\n0 UNITREF AUX      at unlisted\n1 EOFMARK next 0\n";

/// Files, and the two parts of their show.
static SHOWS: [(&str, &str, Text, &str); 8] = [
    ("a library", "LIBRARY", Text::ShownLibrary, ""),
    (
        "a big-endian library",
        "BIG_ENDIAN_LIBRARY",
        Text::ShownBigEndian,
        "",
    ),
    ("a linked file", "LINKED_PAIR", Text::ShownLinked, ""),
    (
        "a library without its last byte",
        "CUT_LIBRARY",
        Text::LibrarySlots,
        CUT,
    ),
    (
        "a library that is cut in its code",
        "LIBRARY_CUT_IN_CODE",
        Text::LibrarySlots,
        "links 02\nfault 16 Truncated\n",
    ),
    (
        "a unit that is there",
        "LIBRARY_OF_BOTH",
        Text::ShowOfBothUnits,
        "",
    ),
    (
        "a unit that is not there",
        "USING_LIBRARY",
        Text::LibrarySlots,
        UNLISTED,
    ),
    (
        "a unit that is not there, at no place",
        "NAMING_LIBRARY",
        Text::LibrarySlots,
        NOWHERE,
    ),
];

/// Files that are refused, and what is said of them.
static UNSHOWN: [(&str, &str, &str); 2] = [
    (
        "511 zeros",
        "SHORT_FILE",
        "pslink: refused 1 ShortFile file 0\n",
    ),
    (
        "mixed kinds",
        "MIXED_FILE",
        "pslink: refused 2 NoOrder file 0\n",
    ),
];

/// Shows each file, or is refused.
fn shows_files<R: Files + AllocGlobal + Abort>(rt: &R) {
    for (what, image, slots, links) in &SHOWS {
        shown(rt, *image).prints(rt, *what, slots.text(), *links);
    }
    for (what, image, complained) in &UNSHOWN {
        shown(rt, *image).is(rt, *what, 1, "", *complained);
    }
    clean(rt, "show-file");
}

#[test]
fn shows_what_a_file_has(rt: HostRuntime) {
    shows_files(&rt)
}

/// What the show of the host has after its slots, where the host is truncated to a length of 512 or
/// more.
fn links_of_cut_host(length: usize) -> &'static str {
    match length {
        0..=529 => "links 01\nfault 16 Truncated\n",
        530..=1039 => "links 01\n0 fault 19 RecordsTruncated\n",
        1040..=1055 => "links 01\n0 PUBLDEF COUNT    value 3\n1 fault 19 RecordsTruncated\n",
        _ => "links 01\n0 PUBLDEF COUNT    value 3\n1 EOFMARK next 8\n",
    }
}

/// Shows the host truncated to this length.
fn shows_cut<R: Files + AllocGlobal + Abort>(rt: &R, host: &[u8], length: usize) {
    let cut = host.get(..length).unwrap_or(&[]);
    says(rt, cut.len() == length, &length);
    save(rt, "show-host", cut);
    let shown = done(rt, "pslink show show-host");
    if length < 512 {
        shown.is(rt, length, 1, "", "pslink: refused 1 ShortFile file 0\n");
    } else {
        shown.prints(rt, length, HOST_SLOTS, links_of_cut_host(length));
    }
}

/// Shows the host cut to each length.
fn shows_each_length<R: Files + AllocGlobal + Abort>(rt: &R) {
    let host = file_of(rt, "HOST");
    let whole = host.as_slice();
    for length in 0..=whole.len() {
        shows_cut(rt, whole, length);
    }
    clean(rt, "show-host");
}

#[test]
fn shows_a_host_cut_to_each_length(rt: HostRuntime) {
    shows_each_length(&rt)
}

const TOO_LONG: &str = "pslink: long-file is longer than 67108864 bytes\n";

/// Lengths of a file of zeros; the status of its show and the two texts, and the status of its link
/// and what is said of it.
static LONG: [(u64, u8, Text, &str, u8, &str); 2] = [
    (67_108_864, 0, Text::ShownZeros, "", 1, NO_HOST),
    (67_108_865, 3, Text::Nothing, TOO_LONG, 3, TOO_LONG),
];

/// Shows the long file. There is room for the whole file from the start, and for no more than is
/// read.
fn shows_long<R: Files + AllocGlobal + Abort>(
    rt: &R,
    length: u64,
    status: u8,
    shown: &str,
    complained: &str,
) {
    let heap = Refusing::once(rt.alloc(), 0);
    let run = done_with(rt, &heap, "pslink show long-file");
    run.is(rt, length, status, shown, complained);
    says(rt, heap.allocations() == 1, &length);
    says(rt, heap.bytes() == 67_108_864, &length)
}

/// Shows and links a file of each length.
fn reads_longest<R: Files + AllocGlobal + Abort>(rt: &R) {
    let long = fs::create(rt, "long-file").expect(rt, "no file");
    for (length, status, shown, complained, link_status, refused) in &LONG {
        fs::OpenFile::set_len(&long, *length).expect(rt, "no length");
        shows_long(rt, *length, *status, shown.text(), *complained);
        gives(
            rt,
            "pslink link long-file long-out",
            *link_status,
            "",
            *refused,
        );
    }
    clean(rt, "long-file");
}

#[test]
fn the_longest_file_is_read_and_none_longer(rt: HostRuntime) {
    reads_longest(&rt)
}
