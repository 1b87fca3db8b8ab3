//! More records and more libraries than a word counts.
use super::answers::{LITTLE, links};
use super::calls::Link;
use super::plan::linkage;
use super::tables::{HOST_TEXTS, LIBRARY_TEXTS};
use crate::code_file::{CodeFile, Information};
use crate::line::Line;
use crate::notation::{holds, holds_of};
use ps_linkinfo::{Body, LinkRecord, read_records};
use ps_resolve::{Allotment, Def, DefKind, Definitions};
use sample_files::Name;
use std::alloc::Global;
use std::process::Abort;

/// How many definitions there are, and how many private variables.
const NUMBERED: usize = 100_000;

/// A definition and a private variable of each number in turn, and an end mark. The values are the
/// numbers' last three digits; each fourth variable has a word.
fn numbered(alloc: Global) -> Line {
    let mut line = Line::new(alloc);
    for number in 0..NUMBERED {
        line.number("PUBLDEF N", number);
        line.number(" value ", number % 1000);
        line.number("; PRIVREF N", number);
        line.number(" words ", usize::from(number % 4 == 0));
        line.word(" at; ")
    }
    line.word("EOFMARK next 8");
    line
}

/// Checks the definition of a number, by its name and by its index.
fn is_defined(rt: &impl Abort, number: usize, (name, value): (Name, u16), found: &Definitions) {
    let wanted = Def {
        kind: DefKind::Public,
        value: (number % 1000) as u16,
    };
    let is_right = value == wanted.value && found.look(&name) == Some(wanted);
    assert!(rt; is_right && number < found.len());
    holds_of(rt, found.at(number) == (name, wanted), &number)
}

/// Checks what was read and built of a record; its private variable has this offset, if it has one.
/// Returns the next offset.
fn is_numbered(
    rt: &impl Abort,
    (rec, record): (usize, &LinkRecord<'_>),
    (definitions, allotment): (&Definitions, &Allotment),
    offset: u16,
) -> u16 {
    match record.body {
        Body::PublDef(value) => is_defined(rt, rec / 2, (record.name, value), definitions),
        Body::PrivRef { words, .. } => {
            holds_of(rt, allotment.offset(7, rec) == Some(offset), &rec);
            return offset.saturating_add(words);
        }
        _ => holds_of(rt, rec == 2 * NUMBERED, &rec),
    }
    offset
}

/// Checks what was read and built of each record.
fn are_numbered(
    rt: &impl Abort,
    records: &[LinkRecord<'_>],
    definitions: &Definitions,
    allotment: &Allotment,
) {
    let mut offset = 8;
    for record in records.iter().enumerate() {
        offset = is_numbered(rt, record, (definitions, allotment), offset);
    }
    let counted = (records.len(), definitions.len(), allotment.words(), offset);
    holds_of(rt, counted == (200_001, NUMBERED, 25_000, 25_008), &counted)
}

#[test]
fn records_of_a_hundred_thousand_names(rt: HostRuntime) {
    let text = numbered(rt.alloc()).text(&rt);
    let information = Information::new(&rt, LITTLE, text.as_str());
    let bytes = information.as_slice();
    let segment = linkage(1, 7, LITTLE, bytes);
    let built = Definitions::build(rt.alloc(), &segment).ok();
    let definitions = built.expect(&rt, "no definitions");
    let built = Allotment::build(rt.alloc(), 8, &[segment]).ok();
    let allotment = built.expect(&rt, "no variables");
    let records = read_records(rt.alloc(), LITTLE, bytes).expect(&rt, "no records");
    are_numbered(&rt, records.as_slice(), &definitions, &allotment)
}

/// The map of the base pair where the library is the last of 65,537.
const MAP_OF_MANY: &str = "segment 01 DEMO     file 0 entry 01 block 1 length 18
segment 07 UTIL     file 65537 entry 02 block 2 length 24
public COUNT    value 3
private 07 STATE    offset 8 words 4
next 12 data 18 blocks 3
";

/// Checks the map of these files.
fn has_map(rt: &(impl Abort + AllocGlobal), host: &[u8], libraries: &[&[u8]]) {
    let link = Link {
        host,
        libraries,
        linked: &[],
    };
    let map = link.map_text(rt.alloc()).expect(rt, "no map");
    holds(rt, map.as_slice() == MAP_OF_MANY.as_bytes(), "another map")
}

#[test]
fn libraries_past_the_number_of_a_word(rt: HostRuntime) {
    let host = CodeFile::new(&rt, LITTLE, HOST_TEXTS);
    let library = CodeFile::new(&rt, LITTLE, LIBRARY_TEXTS);
    let zeros = [0; 512];
    let libraries = Vec::from_elem(rt.alloc(), zeros.as_slice(), 65_536);
    let mut libraries = libraries.expect(&rt, "no memory");
    libraries.push(library.as_slice()).expect(&rt, "no memory");
    has_map(&rt, host.as_slice(), libraries.as_slice());
    // and a short one behind it
    libraries.push(&[]).expect(&rt, "no memory");
    let link = Link {
        host: host.as_slice(),
        libraries: libraries.as_slice(),
        linked: &[],
    };
    let wanted = "refused 1 ShortFile file 65538";
    links(&rt, "a short library", &link, wanted)
}
