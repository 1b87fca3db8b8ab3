//! Link information as `LinkInformation` reads it: its records by index, what they come to, and
//! which names are hashed.
use super::answers::{LITTLE, is};
use super::record_rows::Reader;
use super::records::describe;
use super::rows::check_all;
use crate::code_file::CodeFile;
use crate::line::Line;
use ps_linkinfo::{LinkInformation, LinkRecord};
use ps_words::Order;
use std::alloc::Global;
use std::hash::{DefaultHasher, Hasher};

/// The names that are hashed of the rows below, of eight bytes each.
static HASHED: [&str; 3] = ["", "STATE   ", "LIMIT   COUNT   "];

/// The state of a hash that has taken in these names.
fn digest_of(names: &str) -> u64 {
    let mut digest = DefaultHasher::new();
    for name in names.as_bytes().chunks(8) {
        digest.write(name);
    }
    digest.finish()
}

/// Adds which names are hashed.
fn add_hashed(line: &mut Line, information: &LinkInformation<'_>) {
    let digest = information.digest().finish();
    for names in &HASHED {
        if digest == digest_of(*names) {
            line.word(" hashed '");
            line.word(*names);
            line.word("'");
        }
    }
}

/// What link information comes to, which names are hashed, and each record with its index, as text. It
/// comes to its records, definitions, privates, publics, units and references, and its end mark's value.
fn describe_all(alloc: Global, information: &LinkInformation<'_>) -> Line {
    let mut line = Line::new(alloc);
    let counts = [
        information.len(),
        information.definitions(),
        information.privates(),
        information.publics(),
        information.units(),
        information.references(),
        usize::from(information.next()),
    ];
    line.value("", &counts);
    add_hashed(&mut line, information);
    if information.is_empty() {
        line.word(" empty");
    }
    for (index, record) in information.records() {
        add_record(&mut line, index, &record);
    }
    line
}

/// Adds a record and its index.
fn add_record(line: &mut Line, index: usize, record: &LinkRecord<'_>) {
    line.number(" ", index);
    line.word(" ");
    describe(line, record);
    line.word(";")
}

/// What these bytes are read as, or why they are not.
pub(crate) fn read(alloc: Global, order: Order, bytes: &[u8]) -> Line {
    match LinkInformation::read(order, bytes) {
        Ok(information) => describe_all(alloc, &information),
        Err(fault) => {
            let mut line = Line::new(alloc);
            line.value("", &fault);
            line
        }
    }
}

static ROWS: &str = "PUBLREF COUNT at 1; PRIVREF STATE words 4 at 4; EOFMARK next 0 | 80 \
| [3, 0, 1, 1, 0, 2, 0] hashed 'STATE   ' 0 PUBLREF COUNT    at 1; \
1 PRIVREF STATE    words 4 at 4; 2 EOFMARK next 0;
PUBLREF COUNT at 1; PRIVREF STATE words 4 at 4; EOFMARK next 0 | 79 \
| ReadFault { rec: 2, reason: RecordsTruncated }
PUBLREF COUNT at 1; PRIVREF STATE words 4 at 4; EOFMARK next 0 | 64 \
| ReadFault { rec: 2, reason: RecordsTruncated }
PUBLREF COUNT at 1; PRIVREF STATE words 4 at 4; EOFMARK next 0 | 63 \
| ReadFault { rec: 1, reason: RecordsTruncated }
PUBLREF COUNT at 1; PRIVREF STATE words 4 at 4; EOFMARK next 0 | 31 \
| ReadFault { rec: 0, reason: RecordsTruncated }
PUBLREF COUNT at 1; PRIVREF STATE words 4 at 4; EOFMARK next 0 | 0 \
| ReadFault { rec: 0, reason: RecordsTruncated }
PRIVREF STATE words 4 at 4; TYPE 11 COUNT 2 0 0 | 48 \
| ReadFault { rec: 1, reason: SeparateRecord }";

/// Records that are filled up with words 65535, and one of no type behind the end mark: from byte 64
/// on a list, the end mark and the last record.
const WORDS_IN_FULL: &str = "records 0; TYPE 8 LIMIT 9 65535 65535; TYPE 7 COUNT 259 65535 65535; \
TYPE 1 UTIL 1 0 65535; TYPE 3 STATE 2 1 65535; at 64 0700FFFFFFFFFFFFFFFFFFFFFFFFFFFF; \
at 80 00000000000000000000080100000000; at 96 434F554E542020206300000000000000; size 112";

const WORDS_IN_FULL_READ: &str = "[5, 2, 0, 1, 1, 1, 264] hashed 'LIMIT   COUNT   ' \
0 CONSTDEF LIMIT    value 9; 1 PUBLDEF COUNT    value 259; 2 UNITREF UTIL     at; \
3 PUBLREF STATE    at 7; 4 EOFMARK next 264;";

#[test]
fn records_counts_and_names(rt: HostRuntime) {
    let none = describe_all(rt.alloc(), &LinkInformation::none());
    is(
        &rt,
        "no records",
        none,
        "[0, 0, 0, 0, 0, 0, 0] hashed '' empty",
    );
    let full = CodeFile::of(&rt, LITTLE, "", WORDS_IN_FULL);
    Reader::Index.reads(&rt, LITTLE, full.as_slice(), WORDS_IN_FULL_READ);
    check_all(&rt, &Reader::Index, ROWS)
}
