//! What `Dict` answers of the base files, in either byte order.
ghost use Rattle.std.specs.Prelude.{◌<◌};

use super::answers::is;
use super::rows::{Row, changes, check_all, fields};
use super::tables::{HOST_TEXTS, LIBRARY_TEXTS};
use crate::code_file::{Changes, CodeFile, Information};
use crate::line::Line;
use crate::notation::{holds, holds_of};
use ps_codefile::dictionary_layout::SLOTS;
use ps_codefile::{Dict, Entry, Role};
use ps_words::{Order, Reason};
use sample_files::base::{HOST_RECORDS, UTIL, UTIL_ENTRY, demo_code, util_code};
use std::alloc::Global;
use std::process::Abort;

/// Adds a slot to the text unless it is empty, how long its code is, and what follows it.
fn add_slot(line: &mut Line, dictionary: &Dict<'_>, slot: u8)
    requires { slot < SLOTS }
{
    let role = dictionary.role(slot);
    if role != Ok(Role::Empty) {
        line.number(" ", slot as usize);
        add_entry(line, &dictionary.entry(slot), role)
    }
    if dictionary.filled(slot) {
        match dictionary.code(slot) {
            Ok(code) => line.number(" code ", code.len()),
            Err(reason) => line.value(" code ", &reason),
        }
        line.number(" after ", dictionary.after(slot).len());
        line.word(";")
    }
}

/// Adds an entry and its role.
fn add_entry(line: &mut Line, entry: &Entry, role: Result<Role, Reason>) {
    line.word(" ");
    line.name(&entry.name);
    line.value(" ", &role);
    line.number(" kind ", entry.kind as usize);
    line.number(" address ", entry.address as usize);
    line.number(" length ", entry.length as usize)
}

/// The slots of a dictionary that are not empty, or why there is none, as text.
fn describe(alloc: Global, answer: Result<Dict<'_>, Reason>, order: Order) -> Line {
    let mut line = Line::new(alloc);
    match answer {
        Ok(dictionary) => {
            line.word(if dictionary.order() == order {
                "slots"
            } else {
                "another order"
            });
            for slot in 0..SLOTS {
                add_slot(&mut line, &dictionary, slot);
            }
        }
        Err(reason) => line.value("", &reason),
    }
    line
}

/// Whether a file is read as a host, or beside a host, or beside one of the other byte order; the
/// texts that it is made of; changes; and its slots, or why it is not read.
static FILES: &str = "\
host | HOST HAS_UNIT | - | slots 1 DEMO     Ok(Host) kind 1 address 1 length 18 code 18 after 1536; \
7 UTIL     Ok(Unit) kind 3 address 3 length 24 code 24 after 512;
library | LIBRARY | slot 3 name TOOLS kind 0 address 1 length 5 \
| slots 2 UTIL     Ok(Unit) kind 3 address 1 length 24 code 24 after 512; \
3 TOOLS    Ok(Plain) kind 0 address 1 length 5 code 5 after 512;
# zeros have each byte order
library | NO_NAMES | - | slots
turned | LIBRARY | - | OrderMismatch
library | LIBRARY | size 511 | ShortFile
# a unit whose name is eight zero bytes is not wanted
host | HOST | slot 7 address 1; at 120 0000000000000000 \
| slots 1 DEMO     Ok(Host) kind 1 address 1 length 18 code 18 after 512;
host | HOST | slot 7 address 1 | slots 1 DEMO     Ok(Host) kind 1 address 1 length 18 code 18 after 512; \
7 UTIL     Ok(Wanted) kind 3 address 1 length 0
# the first and the last kind of a later release
library | LIBRARY | slot 2 kind 5 \
| slots 2 UTIL     Err(Intrinsic) kind 5 address 1 length 24 code 24 after 512;
library | LIBRARY | slot 2 kind 7 \
| slots 2 UTIL     Err(Intrinsic) kind 7 address 1 length 24 code 24 after 512;
# two bytes are too few for a host segment and for a unit
host | HOST | slot 1 length 2 \
| slots 1 DEMO     Ok(Host) kind 1 address 1 length 2 code BadLength after 512; \
7 UTIL     Ok(Wanted) kind 3 address 0 length 0
library | LIBRARY | slot 2 length 2 \
| slots 2 UTIL     Ok(Unit) kind 3 address 1 length 2 code BadLength after 512;";

/// The slots of a file, in either byte order.
struct FileRows;

impl Row for FileRows {
    fn check<R: Abort + AllocGlobal>(&self, rt: &R, row: &str) {
        let (kind, texts, rest) = fields(rt, row);
        let (changed, wanted) = changes(rt, rest);
        let file = (kind, texts, changed);
        has_slots(rt, (Order::Little, Order::Big), file, wanted);
        has_slots(rt, (Order::Big, Order::Little), file, wanted)
    }
}

/// Checks the slots of a file or a host of the first of these byte orders; the second is the other
/// one.
fn has_slots(
    rt: &(impl Abort + AllocGlobal),
    (order, other): (Order, Order),
    (kind, texts, changed): (&str, &str, Changes<'_>),
    wanted: &str,
) {
    let own = if kind == "turned" { other } else { order };
    let file = CodeFile::of(rt, own, texts, changed);
    let answer = if kind == "host" {
        Dict::read(file.as_slice())
    } else {
        Dict::read_beside(file.as_slice(), order)
    };
    is(rt, changed, describe(rt.alloc(), answer, order), wanted)
}

#[test]
fn files_in_either_byte_order(rt: HostRuntime) {
    check_all(&rt, &FileRows, FILES)
}

/// The entry of a slot without a segment.
const EMPTY: Entry = Entry {
    address: 0,
    length: 0,
    name: [b' '; 8],
    kind: 0,
    text: 0,
};

/// Checks what the base host's dictionary gives of its slots and of the tail, and the host segment's
/// link information.
fn gives_the_host_s_parts(rt: &impl Abort, dictionary: &Dict<'_>, information: &[u8]) {
    holds(rt, dictionary.names()[7] == UTIL, "the unit's name");
    holds(rt, dictionary.entry(15) == EMPTY, "an empty slot");
    let tail = dictionary.tail();
    holds(rt, tail.len() == 256, "the tail's length");
    holds(rt, tail.get(44) == Some(&0x2A), "the tail");
    holds(
        rt,
        dictionary.after(1).starts_with(information),
        "the link information",
    )
}

/// Checks the code of a slot.
fn has_code(rt: &impl Abort, dictionary: &Dict<'_>, slot: u8, code: &[u8])
    requires { slot < SLOTS }
{
    holds_of(rt, dictionary.code(slot) == Ok(code), &slot)
}

/// Checks the parts of the base host, and the code of the base library, in a byte order.
fn files_have_their_parts(rt: &(impl Abort + AllocGlobal), order: Order) {
    let host = CodeFile::new(rt, order, HOST_TEXTS);
    let information = Information::new(rt, order, HOST_RECORDS);
    let host = Dict::read(host.as_slice()).expect(rt, "no host");
    gives_the_host_s_parts(rt, &host, information.as_slice());
    has_code(rt, &host, 1, &demo_code(order));
    let library = CodeFile::new(rt, order, LIBRARY_TEXTS);
    let library = Dict::read_beside(library.as_slice(), order).expect(rt, "no library");
    has_code(rt, &library, 2, &util_code(order, UTIL_ENTRY))
}

#[test]
fn parts_of_the_base_files(rt: HostRuntime) {
    files_have_their_parts(&rt, Order::Little);
    files_have_their_parts(&rt, Order::Big)
}
