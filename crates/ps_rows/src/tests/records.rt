//! Link information as `read_records` reads it.
use super::allocations::{Allocating, makes_no_allocation, refuses_each_allocation};
use super::answers::{LITTLE, OUT_OF_MEMORY};
use super::record_rows::Reader;
use super::rows::check_all;
use crate::code_file::Information;
use crate::line::Line;
use crate::notation::holds_of;
use ps_linkinfo::{Body, LinkRecord, ReadStop, Refs, read_records};
use ps_words::Order;
use sample_files::base::LIBRARY_RECORDS;
use std::alloc::{Allocator, Global};
use std::process::Abort;

/// What the base library's link information is read as.
pub(crate) const BASE_RECORDS: &str =
    "PUBLREF COUNT    at 1; PRIVREF STATE    words 4 at 4; EOFMARK next 0";

fn list(line: &mut Line, references: &Refs<'_>) {
    line.word(" at");
    for i in 0..references.len() {
        line.number(" ", references.get(i) as usize);
    }
}

/// Adds a record as text.
pub(crate) fn describe(line: &mut Line, record: &LinkRecord<'_>) {
    match &record.body {
        Body::UnitRef(references) => {
            named(line, "UNITREF ", record);
            list(line, references)
        }
        Body::PublRef(references) => {
            named(line, "PUBLREF ", record);
            list(line, references)
        }
        Body::PrivRef { words, refs } => {
            named(line, "PRIVREF ", record);
            line.number(" words ", (*words) as usize);
            list(line, refs)
        }
        Body::PublDef(value) => defined(line, "PUBLDEF ", record, *value),
        Body::ConstDef(value) => defined(line, "CONSTDEF ", record, *value),
        Body::Eof(next) => line.number("EOFMARK next ", (*next) as usize),
    }
}

/// Adds the kind of a record, and its name.
fn named(line: &mut Line, kind: &str, record: &LinkRecord<'_>) {
    line.word(kind);
    line.name(&record.name)
}

/// Adds a definition, with its value.
fn defined(line: &mut Line, kind: &str, record: &LinkRecord<'_>, value: u16) {
    named(line, kind, record);
    line.number(" value ", value as usize)
}

/// The records, or why there are none, as text made on `alloc`; the list itself grows on `heap`.
pub(crate) fn read<A: Allocator + Copy>(
    alloc: Global,
    heap: A,
    order: Order,
    bytes: &[u8],
) -> Line {
    let mut line = Line::new(alloc);
    match read_records(heap, order, bytes) {
        Ok(records) => add_records(&mut line, records.as_slice()),
        Err(ReadStop::Refused { rec, reason }) => {
            line.value("", &reason);
            line.number(" at record ", rec)
        }
        Err(ReadStop::Memory) => line.word(OUT_OF_MEMORY),
    }
    line
}

fn add_records(line: &mut Line, records: &[LinkRecord<'_>]) {
    let mut mark = "";
    for record in records {
        line.word(mark);
        describe(line, record);
        mark = "; ";
    }
}

static ROWS: &str =
    "PUBLREF COUNT at 1; PRIVREF STATE words 4 at 4; EOFMARK next 0 | 80 | PUBLREF COUNT    at 1; \
PRIVREF STATE    words 4 at 4; EOFMARK next 0
PUBLREF COUNT at 1; PRIVREF STATE words 4 at 4; EOFMARK next 0 | 79 | RecordsTruncated at record 2
PUBLREF COUNT at 1; PRIVREF STATE words 4 at 4; EOFMARK next 0 | 64 | RecordsTruncated at record 2
PUBLREF COUNT at 1; PRIVREF STATE words 4 at 4; EOFMARK next 0 | 31 | RecordsTruncated at record 0
PUBLREF COUNT at 1; PRIVREF STATE words 4 at 4; EOFMARK next 0 | 0 | RecordsTruncated at record 0
UNITREF UTIL at 1; PUBLREF COUNT at 2 4; PRIVREF STATE words 4 at 6; PUBLDEF COUNT value 3; \
CONSTDEF DEMO value 9; EOFMARK next 7 | 144 | UNITREF UTIL     at 1; PUBLREF COUNT    at 2 4; \
PRIVREF STATE    words 4 at 6; PUBLDEF COUNT    value 3; CONSTDEF DEMO     value 9; EOFMARK next 7
PUBLREF COUNT at; EOFMARK next 0 | 32 | PUBLREF COUNT    at; EOFMARK next 0
PUBLREF COUNT at 1 2 3 4 5 6 7 8; EOFMARK next 0 | 48 | PUBLREF COUNT    at 1 2 3 4 5 6 7 8; \
EOFMARK next 0
PUBLREF COUNT at 1 2 3 4 5 6 7 8 9; EOFMARK next 0 | 64 | PUBLREF COUNT    at 1 2 3 4 5 6 7 8 9; \
EOFMARK next 0
# a type 99 behind the end mark is not read
EOFMARK next 0; TYPE 99 COUNT 0 0 0 | 32 | EOFMARK next 0";

#[test]
fn records_in_either_byte_order(rt: HostRuntime) {
    check_all(&rt, &Reader::List, ROWS)
}

/// A record of references 0, 1, 2 and so on, as many as it can have, and an end mark, as text
/// between these texts.
pub(crate) fn every_reference(alloc: Global, before: &str, behind: &str) -> Line {
    let mut line = Line::new(alloc);
    line.word(before);
    line.word("PUBLREF COUNT    at");
    for reference in 0..65_535 {
        line.number(" ", reference);
    }
    line.word(behind);
    line
}

#[test]
fn as_many_references_as_a_record_can_have(rt: HostRuntime) {
    let text = every_reference(rt.alloc(), "", "; EOFMARK next 0").text(&rt);
    let text = text.as_str();
    let information = Information::new(&rt, LITTLE, text);
    let records = read_records(rt.alloc(), LITTLE, information.as_slice());
    let records = records.expect(&rt, "no records");
    let size = records.first().expect(&rt, "no record").size();
    holds_of(&rt, size == 131_088, &size);
    Reader::List.reads_in_either_order(&rt, (text, 131_104), text);
    Reader::List.reads_in_either_order(&rt, (text, 131_087), "RecordsTruncated at record 0")
}

/// `read_records` on these little-endian bytes.
#[derive(Clone, Copy)]
struct ReadRecords<'a> {
    bytes: &'a [u8],
}

impl<'a> Allocating for ReadRecords<'a> {
    fn answer<A: Allocator + Copy>(&self, alloc: Global, heap: A) -> Line {
        read(alloc, heap, LITTLE, self.bytes)
    }
}

#[test]
fn each_allocation_refused_and_a_claimed_list_that_is_not_there(rt: HostRuntime) {
    let information = Information::new(&rt, LITTLE, LIBRARY_RECORDS);
    let call = ReadRecords {
        bytes: information.as_slice(),
    };
    refuses_each_allocation(&rt, "the base library", &call, BASE_RECORDS);
    let information = Information::new(&rt, LITTLE, "TYPE 3 COUNT 2 65535 0");
    let call = ReadRecords {
        bytes: information.as_slice(),
    };
    makes_no_allocation(&rt, "a claim", &call, "RecordsTruncated at record 0")
}
