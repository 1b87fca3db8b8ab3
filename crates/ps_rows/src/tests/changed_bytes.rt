//! The base pair with each byte of the host's segment dictionary changed.
use super::answers::{LITTLE, links_pair};
use super::tables::{HOST_TEXTS, LIBRARY_TEXTS, LINKED_TEXTS};
use crate::code_file::CodeFile;
use crate::line::Line;
use std::alloc::Global;
use std::process::Abort;

/// What is answered for a changed byte.
enum Wanted {
    /// The base pair's linked file.
    Pair,
    /// The base pair's linked file with that byte changed.
    PairWithByte,
    /// The host segment alone, its unit's slot being empty.
    HostAlone,
    /// A refusal for the host's dictionary, by its number and name, at the slot if there is one.
    Refused(&'static str, Option<usize>),
}

use Wanted::{HostAlone, Pair, PairWithByte, Refused};

/// What is answered where the byte at a place of the host's dictionary is this one.
fn expected(place: usize, byte: u8) -> Wanted {
    match place {
        4..=7 => expected_of_host(place, byte),
        28..=31 | 224..=255 => Pair,
        0..=63 => expected_of_pair(place, byte),
        120..=127 => Refused("13 MissingUnit", Some(7)),
        192..=223 => expected_of_kind(place, byte),
        _ => PairWithByte,
    }
}

/// What is expected of a byte of the host segment's address and length.
fn expected_of_host(place: usize, byte: u8) -> Wanted {
    let fault = match (place, byte) {
        (4, 0) => "12 BadAddress",
        (4 | 5, _) | (7, 0x7F) => "16 Truncated",
        (6, 0) => return Refused("4 NoHost", None),
        (6, 0x80) | (7, 0x01) => "17 BadProcDict",
        _ => "11 BadLength",
    };
    Refused(fault, Some(1))
}

/// What is expected of a byte of the address and the length of an empty slot.
fn expected_of_pair(place: usize, byte: u8) -> Wanted {
    let slot = Some(place / 4);
    match (place % 4, byte) {
        (3, 0x80 | 0xFF) => Refused("11 BadLength", slot),
        (2 | 3, _) => Refused("12 BadAddress", slot),
        _ => Pair,
    }
}

/// What is expected of a byte of the kinds.
fn expected_of_kind(place: usize, byte: u8) -> Wanted {
    match (place, byte) {
        (194, 0) => Refused("4 NoHost", None),
        (194, _) => Refused("10 UnknownKind", Some(1)),
        (206, _) => HostAlone,
        _ if place % 2 == 1 => Refused("2 NoOrder", None),
        _ => Pair,
    }
}

/// The line that is answered.
fn answer(alloc: Global, wanted: Wanted) -> Line {
    let mut line = Line::new(alloc);
    match wanted {
        Pair | PairWithByte => line.word("segments 2 private words 4 blocks 3"),
        HostAlone => line.word("segments 1 private words 0 blocks 2"),
        Refused(fault, slot) => {
            line.word("refused ");
            line.word(fault);
            line.word(" file 0");
            if let Some(slot) = slot {
                line.number(" slot ", slot)
            }
        }
    }
    line
}

/// The file that is written where the byte at a place of the host's dictionary is this one, empty
/// where nothing is.
fn written(rt: &(impl Abort + AllocGlobal), wanted: &Wanted, place: usize, byte: u8) -> CodeFile {
    let mut linked = CodeFile::new(rt, LITTLE, LINKED_TEXTS);
    match wanted {
        Pair => (),
        PairWithByte => linked.put(rt, place, &[byte]),
        HostAlone => linked.change(rt, "word 1 4 10; slot 7 address 0 length 0; size 1024"),
        Refused(_, _) => linked.change(rt, "size 0"),
    }
    linked
}

/// Checks the answer where the byte at a place of the host's dictionary is this one.
fn check(rt: &(impl Abort + AllocGlobal), library: &[u8], place: usize, byte: u8) {
    let wanted = expected(place, byte);
    let linked = written(rt, &wanted, place, byte);
    let answer = answer(rt.alloc(), wanted).text(rt);
    let mut host = CodeFile::new(rt, LITTLE, HOST_TEXTS);
    host.put(rt, place, &[byte]);
    let mut what = Line::new(rt.alloc());
    what.number("byte ", place);
    what.number(" set to ", byte as usize);
    let what = what.text(rt);
    let files = (host.as_slice(), library);
    links_pair(rt, what.as_str(), files, linked.as_slice(), answer.as_str())
}

/// The bytes that each byte is changed to.
static BYTES: [u8; 5] = [0x00, 0x01, 0x7F, 0x80, 0xFF];

/// Checks the answers where the byte at a place of the host's dictionary, which is this one, is
/// another.
fn checks_each(rt: &(impl Abort + AllocGlobal), library: &[u8], place: usize, byte: u8) {
    for other in &BYTES {
        if *other != byte {
            check(rt, library, place, *other);
        }
    }
}

#[test]
fn each_byte_of_the_dictionary(rt: HostRuntime) {
    let host = CodeFile::new(&rt, LITTLE, HOST_TEXTS);
    let library = CodeFile::new(&rt, LITTLE, LIBRARY_TEXTS);
    for place in 0..512 {
        let byte = host.as_slice().get(place).expect(&rt, "a short host");
        checks_each(&rt, library.as_slice(), place, *byte);
    }
}
