//! The map of a link and the show of a code file, as text.
use super::allocations::{Allocating, makes_no_allocation, refuses_each_allocation};
use super::answers::{LITTLE, text_of_error};
use super::calls::Link;
use super::records::every_reference;
use super::rows::{Row, changes, check_all, field};
use super::tables::{Check, HOST_TEXTS, LIBRARY_TEXTS, base_named};
use super::writers::FAILS;
use super::writing::{NO_WRITE, Writing, writes, writes_long_text, writes_text};
use crate::code_file::CodeFile;
use crate::line::Line;
use ps_linkfile::{LinkError, show_text};
use ps_words::Order;
use std::alloc::{Allocator, Global};
use std::process::Abort;

/// What a show of the base library says of its slots before slot 3 and behind it.
const SLOTS_BEFORE: &str = "slot 00          kind 0 address 0 length 0 text 0
slot 01          kind 0 address 0 length 0 text 0
slot 02 UTIL     kind 3 address 1 length 24 text 0
";

const SLOTS_BEHIND: &str = "
slot 04          kind 0 address 0 length 0 text 0
slot 05          kind 0 address 0 length 0 text 0
slot 06          kind 0 address 0 length 0 text 0
slot 07          kind 0 address 0 length 0 text 0
slot 08          kind 0 address 0 length 0 text 0
slot 09          kind 0 address 0 length 0 text 0
slot 10          kind 0 address 0 length 0 text 0
slot 11          kind 0 address 0 length 0 text 0
slot 12          kind 0 address 0 length 0 text 0
slot 13          kind 0 address 0 length 0 text 0
slot 14          kind 0 address 0 length 0 text 0
slot 15          kind 0 address 0 length 0 text 0
";

/// A slot with nothing in it.
const EMPTY: &str = "         kind 0 address 0 length 0 text 0";

/// An answer as text: the text itself, or the error's.
fn text_of<A: Allocator + Copy>(alloc: Global, answer: Result<Vec<u8, A>, LinkError>) -> Line {
    match answer {
        Ok(bytes) => Line::of(alloc, str::from_utf8(bytes.as_slice()).unwrap_or("no text")),
        Err(error) => text_of_error(alloc, error),
    }
}

/// `map_text` of these files.
#[derive(Clone, Copy)]
pub(crate) struct Map<'a> {
    pub link: Link<'a>,
}

impl<'a> Allocating for Map<'a> {
    fn answer<A: Allocator + Copy>(&self, alloc: Global, heap: A) -> Line {
        text_of(alloc, self.link.map_text(heap))
    }
}

/// `show_text` of this file.
#[derive(Clone, Copy)]
pub(crate) struct Show<'a> {
    pub file: &'a [u8],
}

impl<'a> Allocating for Show<'a> {
    fn answer<A: Allocator + Copy>(&self, alloc: Global, heap: A) -> Line {
        text_of(alloc, show_text(heap, self.file))
    }
}

/// Files, changes of the host, and the lines of the map of their link.
static MAPS: &str = "\
pair | - | segment 01 DEMO     file 0 entry 01 block 1 length 18;\
segment 07 UTIL     file 1 entry 02 block 2 length 24;public COUNT    value 3;\
private 07 STATE    offset 8 words 4;next 12 data 18 blocks 3
used-unit | - | segment 01 DEMO     file 0 entry 01 block 1 length 18;\
segment 07 UTIL     file 1 entry 02 block 2 length 24;\
segment 08 AUX      file 1 entry 03 block 3 length 24 added;public COUNT    value 3;\
private 08 STATE    offset 8 words 4;next 12 data 18 blocks 4
two-units | - | segment 01 DEMO     file 0 entry 01 block 1 length 18;\
segment 07 UTIL     file 1 entry 02 block 2 length 24;\
segment 08 AUX      file 1 entry 03 block 3 length 24;public COUNT    value 3;\
private 07 STATE    offset 8 words 4;private 08 STATE    offset 12 words 4;\
next 16 data 26 blocks 4
pair | records 2; PUBLDEF COUNT value 3; CONSTDEF LIMIT value 9; EOFMARK next 8 \
| segment 01 DEMO     file 0 entry 01 block 1 length 18;\
segment 07 UTIL     file 1 entry 02 block 2 length 24;public COUNT    value 3;\
constant LIMIT    value 9;private 07 STATE    offset 8 words 4;next 12 data 18 blocks 3";

/// The map of a link.
#[derive(Clone, Copy)]
struct MapCheck<'a> {
    text: &'a str,
}

impl<'a> Check for MapCheck<'a> {
    /// As a text and written.
    fn check<R: Abort + AllocGlobal>(&self, rt: &R, link: &Link<'_>) {
        let call = Map { link: *link };
        refuses_each_allocation(rt, "a map", &call, self.text);
        writes_text(rt, &call, self.text)
    }
}

/// The map of a link.
struct MapRows;

impl Row for MapRows {
    fn check<R: Abort + AllocGlobal>(&self, rt: &R, row: &str) {
        let (files, rest) = field(rt, row);
        let (host, lines) = changes(rt, rest);
        let mut line = Line::new(rt.alloc());
        line.lines(lines);
        let text = line.text(rt);
        let check = MapCheck {
            text: text.as_str(),
        };
        base_named(rt, files).check(rt, (host, "", ""), &check)
    }
}

#[test]
fn maps_of_pairs(rt: HostRuntime) {
    check_all(&rt, &MapRows, MAPS)
}

/// What slot 3 is said to have, the names of the texts of a library and its changes, which truncate
/// it, and the lines of its link information.
static SHOWS: &str = "\
|LIBRARY||links 02;0 PUBLREF COUNT    at 1;1 PRIVREF STATE    words 4 at 4;2 EOFMARK next 0
|LIBRARY|size 1103|links 02;0 PUBLREF COUNT    at 1;1 PRIVREF STATE    words 4 at 4;\
2 fault 19 RecordsTruncated
|LIBRARY|size 535|links 02;fault 16 Truncated";

/// What a show of a library begins with, whose byte order and whose slot 3 are these.
fn before_links(alloc: Global, order: Order, third: &str) -> Line {
    let mut line = Line::new(alloc);
    line.word(match order {
        Order::Little => "order little\n",
        Order::Big => "order big\n",
    });
    line.word(SLOTS_BEFORE);
    line.word("slot 03 ");
    line.word(if third.is_empty() { EMPTY } else { third });
    line.word(SLOTS_BEHIND);
    line
}

/// The show of a library of this byte order.
#[derive(Drop)]
struct ShowRows {
    order: Order,
}

impl Row for ShowRows {
    /// As a text and written.
    fn check<R: Abort + AllocGlobal>(&self, rt: &R, row: &str) {
        let (third, rest) = row.split_once('|').expect(rt, row);
        let (names, rest) = rest.split_once('|').expect(rt, row);
        let (changes, links) = rest.split_once('|').expect(rt, row);
        let file = CodeFile::of(rt, self.order, names, changes);
        let call = Show {
            file: file.as_slice(),
        };
        let mut line = before_links(rt.alloc(), self.order, third);
        line.lines(links);
        let text = line.text(rt);
        refuses_each_allocation(rt, row, &call, text.as_str());
        writes_text(rt, &call, text.as_str())
    }
}

/// Checks the show of each row, of a library of this byte order.
pub(crate) fn shows_each(rt: &(impl Abort + AllocGlobal), order: Order, rows: &str) {
    check_all(rt, &ShowRows { order }, rows)
}

#[test]
fn shows_of_a_library(rt: HostRuntime) {
    shows_each(&rt, LITTLE, SHOWS)
}

/// What the show of a record of as many references as one can have has before it and after it.
const LINKS: &str = "links 02\n0 ";

const LAST_LINK: &str = "\n1 EOFMARK next 0\n";

/// The show is written in many pieces, to writers that fail and stall.
#[test]
fn a_long_show(rt: HostRuntime) {
    let alloc = rt.alloc();
    let changes = every_reference(alloc, "size 132128; records 2; ", "; EOFMARK next 0");
    let changes = changes.text(&rt);
    let library = CodeFile::of(&rt, LITTLE, LIBRARY_TEXTS, changes.as_str());
    let mut before = before_links(alloc, LITTLE, "");
    before.word(LINKS);
    let before = before.text(&rt);
    let text = every_reference(alloc, before.as_str(), LAST_LINK).text(&rt);
    let call = Show {
        file: library.as_slice(),
    };
    writes_long_text(&rt, &call, text.as_str())
}

/// Checks that a text is refused without memory, and that nothing is written.
fn refuses_text<T: Allocating + Writing>(rt: &(impl Abort + AllocGlobal), call: &T, refused: &str) {
    makes_no_allocation(rt, refused, call, refused);
    let writer = (512, usize::MAX, FAILS);
    writes(rt, (call, &[]), writer, refused, NO_WRITE)
}

#[test]
fn maps_and_shows_that_are_refused(rt: HostRuntime) {
    let host = CodeFile::new(&rt, LITTLE, HOST_TEXTS);
    let link = host.alone();
    refuses_text(&rt, &Map { link }, "refused 13 MissingUnit file 0 slot 7");
    // a file that has no byte order, whole and cut
    let mixed = CodeFile::of(&rt, LITTLE, "", "size 512; at 192 0101");
    let file = mixed.as_slice();
    refuses_text(&rt, &Show { file }, "refused 2 NoOrder file 0");
    let file = file.get(..511).unwrap_or(&[]);
    refuses_text(&rt, &Show { file }, "refused 1 ShortFile file 0")
}
