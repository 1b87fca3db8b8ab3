//! What is read of each slot of a host, also after the first fault.

use super::answers::{is, text_of_fault};
use super::calls::Link;
use super::rows::{Row, changes, check_all, field};
use super::tables::{Check, base_named};
use crate::line::Line;
use ps_codefile::dictionary_layout::SLOTS;
use ps_resolve::{Absent, EntryAt, Reading, Request, Requester, SlotReading, read};
use std::alloc::Global;
use std::process::Abort;

/// What a row shows, the changes of the host and of the library, what is read of each slot and how
/// many segments there are, and the first fault.
static ROWS: &str = "a unit that only a unit names | - | - | slot 1 has file 0 entry 1; \
slot 7 wants a unit; slot 7 has file 1 entry 2; \
slot 8 is requested by file 1 slot 7 record 0; slot 8 adds file 1 entry 3; segments 3 | no fault
a requested name that is blank | - | slot 3 name - kind 3 address 3 length 24; \
records 2; UNITREF - at 2; EOFMARK next 0 | slot 1 has file 0 entry 1; \
slot 7 wants a unit; slot 7 has file 1 entry 2; \
slot 8 is requested by file 1 slot 7 record 0; slot 8 has no library; segments 2 \
| refused 13 MissingUnit file 1 slot 7 record 0
a unit that was read after a fault | slot 1 length 17 | records 2; EOFMARK next 0 \
| slot 1 has BadLength from file 0 entry 1; slot 7 wants a unit; slot 7 has file 1 entry 2; \
segments 1 \
| refused 11 BadLength file 0 slot 1
a refused unit that names another one | - | slot 2 length 23 | slot 1 has file 0 entry 1; \
slot 7 wants a unit; slot 7 has BadLength from file 1 entry 2; \
segments 1 | refused 11 BadLength file 1 slot 7
an added unit that is refused | - | slot 3 length 23 | slot 1 has file 0 entry 1; \
slot 7 wants a unit; slot 7 has file 1 entry 2; \
slot 8 is requested by file 1 slot 7 record 0; slot 8 has BadLength from file 1 entry 3; \
segments 2 \
| refused 11 BadLength file 1 slot 8
a name after one that is missing | - | records 2; UNITREF NOBODY at; UNITREF AUX at 2; \
EOFMARK next 0 | slot 1 has file 0 entry 1; slot 7 wants a unit; slot 7 has file 1 entry 2; \
slot 8 is requested by file 1 slot 7 record 0; slot 8 has no library; \
slot 9 is requested by file 1 slot 7 record 1; slot 9 is not looked for; segments 2 \
| refused 13 MissingUnit file 1 slot 7 record 0
a library that cannot be opened | - | size 511 | slot 1 has file 0 entry 1; \
slot 7 wants a unit; slot 7 has no library; segments 1 | refused 1 ShortFile file 1
a slot with nothing in it | slot 7 name - kind 0 address 0 length 0 | - \
| slot 1 has file 0 entry 1; segments 1 | no fault
a host of no bytes | size 0 | - | segments 0 | refused 1 ShortFile file 0";

const BIG_ROW: &str = "a big-endian host and its library | - | - | slot 1 has file 0 entry 1; \
slot 7 wants a unit; slot 7 has file 1 entry 2; segments 2 | no fault";

/// The same of a host that wants two units.
static ROWS_OF_TWO: &str =
    "a slot after one that is refused | - | slot 2 length 23 | slot 1 has file 0 entry 1; \
slot 7 wants a unit; slot 7 has BadLength from file 1 entry 2; slot 8 wants a unit; \
slot 8 has file 1 entry 3; \
segments 2 | refused 11 BadLength file 1 slot 7
two slots that are refused | - | slot 2 length 23; slot 3 length 23 \
| slot 1 has file 0 entry 1; slot 7 wants a unit; slot 7 has BadLength from file 1 entry 2; \
slot 8 wants a unit; \
slot 8 has BadLength from file 1 entry 3; segments 1 | refused 11 BadLength file 1 slot 7
no host segment | slot 1 name - kind 0 address 0 length 0 | - \
| slot 7 wants a unit; slot 7 has file 1 entry 2; slot 8 wants a unit; \
slot 8 has file 1 entry 3; segments 2 | refused 4 NoHost file 0";

const ROW_OF_TWO_LIBRARIES: &str = "a library after one that cannot be opened | - | size 511 \
| slot 1 has file 0 entry 1; slot 7 wants a unit; slot 7 has file 2 entry 2; segments 2 \
| refused 1 ShortFile file 1";

/// Adds who requests the unit of a slot.
fn add_request(line: &mut Line, slot: u8, request: Option<Request>) {
    if let Some(request) = request {
        line.number("slot ", slot as usize);
        match request.requester {
            Requester::Slot => line.word(" wants a unit"),
            Requester::Record(place) => {
                line.number(" is requested by file ", place.segment.file);
                line.number(" slot ", place.segment.slot as usize);
                line.number(" record ", place.rec)
            }
        }
        line.word("; ")
    }
}

/// Adds where a segment comes from, if it comes from somewhere.
fn add_source(line: &mut Line, source: Option<EntryAt>) {
    if let Some(at) = source {
        line.number(" file ", at.file);
        line.number(" entry ", at.index as usize)
    }
}

/// Adds the segment of a slot, or why there is none, and where it comes from.
fn add_segment(line: &mut Line, slot: u8, read: &SlotReading) {
    if let Some(found) = read.segment {
        line.number("slot ", slot as usize);
        match found {
            Ok(segment) => line.word(if segment.added() { " adds" } else { " has" }),
            Err(Absent::Refused(fault)) => {
                line.value(" has ", &fault.reason);
                line.word(" from")
            }
            Err(Absent::Missing) => line.word(" has no library"),
            Err(Absent::Unplaced) => line.word(" has no slot"),
            Err(Absent::NotLookedFor) => line.word(" is not looked for"),
        }
        add_source(line, read.source);
        line.word("; ")
    }
}

/// What was read of each slot, and how many segments there are.
fn describe(alloc: Global, reading: &Reading) -> Line {
    let mut line = Line::new(alloc);
    if let Ok(host) = reading.host() {
        for slot in 0..SLOTS {
            let read = host.slot(slot);
            add_request(&mut line, slot, read.request);
            add_segment(&mut line, slot, &read);
        }
    }
    line.number("segments ", reading.segments().len());
    line
}

/// What is read of a link.
#[derive(Clone, Copy)]
struct ReadCheck<'a> {
    what: &'a str,
    slots: &'a str,
    fault: &'a str,
}

impl<'a> Check for ReadCheck<'a> {
    fn check<R: Abort + AllocGlobal>(&self, rt: &R, link: &Link<'_>) {
        let reading = read(link.host, link.libraries);
        is(rt, self.what, describe(rt.alloc(), &reading), self.slots);
        let fault = text_of_fault(rt.alloc(), reading.fault());
        is(rt, self.what, fault, self.fault)
    }
}

/// The link of these files.
struct ReadingRows<'a> {
    files: &'a str,
}

impl<'a> Row for ReadingRows<'a> {
    fn check<R: Abort + AllocGlobal>(&self, rt: &R, row: &str) {
        let (what, rest) = field(rt, row);
        let (host, rest) = changes(rt, rest);
        let (library, rest) = changes(rt, rest);
        let (slots, fault) = field(rt, rest);
        let check = ReadCheck { what, slots, fault };
        base_named(rt, self.files).check(rt, (host, library, ""), &check)
    }
}

#[test]
fn each_slot_is_read(rt: HostRuntime) {
    check_all(&rt, &ReadingRows { files: "used-unit" }, ROWS);
    check_all(&rt, &ReadingRows { files: "big pair" }, BIG_ROW);
    check_all(&rt, &ReadingRows { files: "two-units" }, ROWS_OF_TWO);
    check_all(
        &rt,
        &ReadingRows {
            files: "before-another",
        },
        ROW_OF_TWO_LIBRARIES,
    )
}
