//! Link information as `Records` walks it.
use super::record_rows::Reader;
use super::records::describe;
use super::rows::check_all;
use crate::line::Line;
use ps_linkinfo::{LinkRecord, Records};
use ps_words::{Order, Reason};
use std::alloc::Global;

/// Five items as text, each with a record's size and with how many bytes the records up to it take;
/// a fault takes none, and is given once.
pub(crate) fn walk(alloc: Global, order: Order, bytes: &[u8]) -> Line {
    let mut records = Records::new(order, bytes);
    let mut line = Line::new(alloc);
    line.number("", records.used());
    for _ in 0..5 {
        line.word("; ");
        add_item(&mut line, records.next());
        line.number(", ", records.used());
    }
    line
}

/// Adds an item, with the record's size.
fn add_item(line: &mut Line, item: Option<Result<LinkRecord<'_>, Reason>>) {
    match item {
        Some(Ok(record)) => {
            describe(line, &record);
            line.number(" of ", record.size())
        }
        Some(Err(reason)) => line.value("", &reason),
        None => line.word("none"),
    }
}

static WALKS: &str = "PUBLREF COUNT at 1; PRIVREF STATE words 4 at 4; EOFMARK next 0 | 80 | 0; \
PUBLREF COUNT    at 1 of 32, 32; PRIVREF STATE    words 4 at 4 of 32, 64; \
EOFMARK next 0 of 16, 80; none, 80; none, 80
PUBLREF COUNT at 1; PRIVREF STATE words 4 at 4; EOFMARK next 0 | 79 | 0; \
PUBLREF COUNT    at 1 of 32, 32; PRIVREF STATE    words 4 at 4 of 32, 64; \
RecordsTruncated, 64; none, 64; none, 64
PUBLREF COUNT at 1; PRIVREF STATE words 4 at 4; EOFMARK next 0 | 0 | 0; \
RecordsTruncated, 0; none, 0; none, 0; none, 0; none, 0
PUBLREF COUNT at; EOFMARK next 0 | 32 | 0; PUBLREF COUNT    at of 16, 16; \
EOFMARK next 0 of 16, 32; none, 32; none, 32; none, 32
PUBLREF COUNT at 1 2 3 4 5 6 7 8; EOFMARK next 0 | 48 | 0; \
PUBLREF COUNT    at 1 2 3 4 5 6 7 8 of 32, 32; EOFMARK next 0 of 16, 48; \
none, 48; none, 48; none, 48
PUBLREF COUNT at 1 2 3 4 5 6 7 8 9; EOFMARK next 0 | 64 | 0; \
PUBLREF COUNT    at 1 2 3 4 5 6 7 8 9 of 48, 48; EOFMARK next 0 of 16, 64; \
none, 64; none, 64; none, 64";

#[test]
fn records_one_by_one(rt: HostRuntime) {
    check_all(&rt, &Reader::Walk, WALKS)
}
