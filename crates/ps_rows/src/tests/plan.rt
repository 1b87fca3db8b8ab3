//! The calls that a plan is made by, each by itself.
use super::allocations::{Allocating, refuses_each_allocation};
use super::answers::{OUT_OF_MEMORY, is};
use super::calls::Link;
use super::rows::{Row, changes, check_all, field, fields};
use super::tables::{Check, base_named};
use crate::code_file::Information;
use crate::line::Line;
use crate::notation::{holds, holds_of};
use ps_resolve::{Allotment, Definitions, Linkage, Plan, Private, Source, Stop};
use ps_words::{Edit, Order};
use sample_files::Name;
use sample_files::base::{COUNT, DEMO_SLOT, STATE, UTIL_SLOT};
use std::alloc::{Allocator, Global};
use std::process::Abort;

/// A name that the base host does not define.
const LIMIT: Name = *b"LIMIT   ";

/// Why nothing was built, as text.
pub(crate) fn text_of_stop(alloc: Global, stop: &Stop) -> Line {
    let mut line = Line::new(alloc);
    match stop {
        Stop::Refused(fault) => line.shown(fault),
        Stop::Memory => line.word(OUT_OF_MEMORY),
    }
    line
}

/// Definitions by index, and those of three names, as text.
fn describe_definitions<A: Allocator + Copy>(alloc: Global, definitions: &Definitions<A>) -> Line {
    let mut line = Line::new(alloc);
    for i in 0..definitions.len() {
        let (name, definition) = definitions.at(i);
        line.name(&name);
        line.word(" ");
        line.value("", &definition);
        line.word("; ");
    }
    look(&mut line, definitions, &COUNT);
    line.word(", ");
    look(&mut line, definitions, &STATE);
    line.word(", ");
    look(&mut line, definitions, &LIMIT);
    line
}

/// Adds what a name is defined as.
fn look<A: Allocator + Copy>(line: &mut Line, definitions: &Definitions<A>, name: &Name) {
    match definitions.look(name) {
        Some(definition) => line.value("", &definition),
        None => line.word("none"),
    }
}

/// The slots and records of which the offset is looked up.
static PLACES: [(u8, usize); 5] = [(7, 1), (7, 0), (7, 2), (6, 1), (8, 1)];

/// Private variables by index, and the offsets of some records, as text.
fn describe_allotment<A: Allocator + Copy>(alloc: Global, allotment: &Allotment<A>) -> Line {
    let mut line = Line::new(alloc);
    for private in allotment.privates() {
        add_private(&mut line, private);
    }
    add_offsets(&mut line, allotment);
    line.number("words ", allotment.words() as usize);
    line.number(" next ", allotment.next_free() as usize);
    line
}

/// Adds the offset of each place.
fn add_offsets<A: Allocator + Copy>(line: &mut Line, allotment: &Allotment<A>) {
    for (slot, rec) in &PLACES {
        line.value("", &allotment.offset(*slot, *rec));
        line.word(" ");
    }
}

fn add_private(line: &mut Line, private: &Private) {
    line.number("slot ", private.slot as usize);
    line.number(" record ", private.rec);
    line.word(" ");
    line.name(&private.name);
    line.number(" offset ", private.offset as usize);
    line.number(" words ", private.words as usize);
    line.word("; ")
}

/// A call that builds from the link information of one segment.
#[derive(Clone, Copy)]
enum Build<'a> {
    Definitions(Linkage<'a>),
    /// From this offset on.
    Allotment(u16, Linkage<'a>),
}

impl<'a> Allocating for Build<'a> {
    fn answer<A: Allocator + Copy>(&self, alloc: Global, heap: A) -> Line {
        match self {
            Build::Definitions(host) => match Definitions::build(heap, host) {
                Ok(definitions) => describe_definitions(alloc, &definitions),
                Err(stop) => text_of_stop(alloc, &stop),
            },
            Build::Allotment(next, segment) => match Allotment::build(heap, *next, &[*segment]) {
                Ok(allotment) => describe_allotment(alloc, &allotment),
                Err(stop) => text_of_stop(alloc, &stop),
            },
        }
    }
}

/// What is built of the records of a segment: the definitions of the host, or the private variables
/// of another segment from an offset on; the records; and the answer.
static BUILT: &str = "\
definitions | PUBLDEF COUNT value 3; EOFMARK next 8 | COUNT    Def { kind: Public, value: 3 }; \
Def { kind: Public, value: 3 }, none, none
definitions | PUBLDEF COUNT value 3; PUBLREF STATE at; CONSTDEF LIMIT value 9; EOFMARK next 8 \
| COUNT    Def { kind: Public, value: 3 }; LIMIT    Def { kind: Constant, value: 9 }; \
Def { kind: Public, value: 3 }, none, Def { kind: Constant, value: 9 }
definitions | PUBLDEF COUNT value 3; CONSTDEF COUNT value 4; EOFMARK next 8 \
| refused 24 DoubledDefinition file 0 slot 1 record 1
8 | PUBLREF COUNT at 1; PRIVREF STATE words 4 at 4; EOFMARK next 0 \
| slot 7 record 1 STATE    offset 8 words 4; Some(8) None None None None words 4 next 12
8 | PRIVREF STATE words 4 at 4; PRIVREF TOTAL words 2 at 8; EOFMARK next 0 \
| slot 7 record 0 STATE    offset 8 words 4; slot 7 record 1 TOTAL    offset 12 words 2; \
Some(12) Some(8) None None None words 6 next 14
32764 | PUBLREF COUNT at 1; PRIVREF STATE words 4 at 4; EOFMARK next 0 \
| refused 26 NoRoom file 1 slot 7 record 1
8 | PRIVREF STATE words 4 at; PRIVREF STATE words 4 at; EOFMARK next 0 \
| refused 25 DoubledPrivate file 1 slot 7 record 1";

/// What is built, in either byte order.
struct BuildRows;

impl Row for BuildRows {
    fn check<R: Abort + AllocGlobal>(&self, rt: &R, row: &str) {
        let (what, records, answer) = fields(rt, row);
        builds(rt, Order::Little, (what, records), answer);
        builds(rt, Order::Big, (what, records), answer)
    }
}

/// Checks what is built of a segment in this byte order, with each allocation refused in turn.
fn builds(
    rt: &(impl Abort + AllocGlobal),
    order: Order,
    (what, records): (&str, &str),
    answer: &str,
) {
    let information = Information::new(rt, order, records);
    let bytes = information.as_slice();
    let call = match what {
        "definitions" => Build::Definitions(linkage(0, DEMO_SLOT, order, bytes)),
        next => Build::Allotment(
            next.parse().expect(rt, next),
            linkage(1, UTIL_SLOT, order, bytes),
        ),
    };
    refuses_each_allocation(rt, records, &call, answer)
}

pub(crate) fn linkage(file: usize, slot: u8, order: Order, bytes: &[u8]) -> Linkage<'_> {
    Linkage {
        file,
        slot,
        order,
        bytes,
    }
}

#[test]
fn definitions_and_private_variables(rt: HostRuntime) {
    check_all(&rt, &BuildRows, BUILT)
}

/// Adds a segment of a plan, with whether it was linked already or was added, and with its edits.
fn describe_segment(line: &mut Line, source: &Source<'_>, edits: &[Edit]) {
    line.number("slot ", source.slot as usize);
    line.word(match (source.linked, source.added) {
        (false, _) => " plain",
        (true, true) => " added",
        (true, false) => "",
    });
    line.number(" file ", source.file);
    line.number(" entry ", source.index as usize);
    line.number(" length ", source.code.len());
    line.word(":");
    add_edits(line, edits);
    line.word("; ")
}

/// Adds edits, or how many they are where they are many.
fn add_edits(line: &mut Line, edits: &[Edit]) {
    if edits.len() > 9 {
        line.number(" ", edits.len());
        line.word(" edits")
    } else {
        for edit in edits {
            line.value(" ", edit);
        }
    }
}

/// The segments of a plan with their edits, and the numbers of the linked file, as text.
pub(crate) fn describe<A: Allocator + Copy>(alloc: Global, plan: &Plan<'_, A>) -> Line {
    let mut line = Line::new(alloc);
    for (k, source) in plan.sources().iter().enumerate() {
        describe_segment(&mut line, source, plan.edits(k));
    }
    line.number("definitions ", plan.definitions().len());
    line.number(" privates ", plan.allotment().privates().len());
    line.number(" words ", plan.private_words() as usize);
    line.number(" next ", plan.next_free() as usize);
    line.number(" data ", plan.data_size() as usize);
    line
}

/// Files, changes of the host, and the plan of their link.
static PLANS: &str = "\
pair | - | slot 1 file 0 entry 1 length 18: \
Word { value: 18, place: 4 } Byte { value: 1, place: 16 }; \
slot 7 file 1 entry 2 length 24: \
Big { value: 3, place: 1 } Big { value: 10, place: 4 } Byte { value: 7, place: 22 }; \
definitions 1 privates 1 words 4 next 12 data 18
big pair | - | slot 1 file 0 entry 1 length 18: \
Word { value: 18, place: 4 } Byte { value: 1, place: 16 }; \
slot 7 file 1 entry 2 length 24: \
Big { value: 3, place: 1 } Big { value: 10, place: 4 } Byte { value: 7, place: 22 }; \
definitions 1 privates 1 words 4 next 12 data 18
in-place | records 2; PUBLDEF COUNT value 3; EOFMARK next 40000 \
| slot 1 file 0 entry 1 length 18: Word { value: 10, place: 4 } Byte { value: 1, place: 16 }; \
slot 7 file 0 entry 7 length 24: Big { value: 3, place: 1 } Byte { value: 7, place: 22 }; \
definitions 1 privates 0 words 0 next 40000 data 10
big in-place | records 2; PUBLDEF COUNT value 3; EOFMARK next 40000 \
| slot 1 file 0 entry 1 length 18: Word { value: 10, place: 4 } Byte { value: 1, place: 16 }; \
slot 7 file 0 entry 7 length 24: Big { value: 3, place: 1 } Byte { value: 7, place: 22 }; \
definitions 1 privates 0 words 0 next 40000 data 10
pair | size 1541; slot 8 address 3 length 5; code 3 0 0102030405 \
| slot 1 file 0 entry 1 length 18: Word { value: 18, place: 4 } Byte { value: 1, place: 16 }; \
slot 7 file 1 entry 2 length 24: \
Big { value: 3, place: 1 } Big { value: 10, place: 4 } Byte { value: 7, place: 22 }; \
slot 8 plain file 0 entry 8 length 5:; \
definitions 1 privates 1 words 4 next 12 data 18
used-unit | - | slot 1 file 0 entry 1 length 18: Word { value: 18, place: 4 } Byte { value: 1, place: 16 }; \
slot 7 file 1 entry 2 length 24: Byte { value: 8, place: 2 } Byte { value: 7, place: 22 }; \
slot 8 added file 1 entry 3 length 24: \
Big { value: 3, place: 1 } Big { value: 10, place: 4 } Byte { value: 8, place: 22 }; \
definitions 1 privates 1 words 4 next 12 data 18";

/// Checks a plan, and that it has the byte order, the names and the tail of the linked file.
fn is_plan(
    rt: &(impl Abort + AllocGlobal),
    plan: &Plan<'_>,
    order: Order,
    text: &str,
    linked: &[u8],
) {
    is(rt, "a plan", describe(rt.alloc(), plan), text);
    holds(rt, plan.order() == order, text);
    has_at(rt, linked, 64, plan.names().as_flattened());
    has_at(rt, linked, 256, plan.tail())
}

/// Checks what a file has at a place.
fn has_at(rt: &impl Abort, file: &[u8], place: usize, bytes: &[u8]) {
    let found = file.get(place..place.saturating_add(bytes.len()));
    holds_of(rt, found == Some(bytes), &place)
}

/// A plan: its byte order, and itself as text.
#[derive(Clone, Copy)]
struct PlanCheck<'a> {
    order: Order,
    text: &'a str,
}

impl<'a> Check for PlanCheck<'a> {
    fn check<R: Abort + AllocGlobal>(&self, rt: &R, link: &Link<'_>) {
        match link.resolve(rt.alloc()) {
            Ok(plan) => is_plan(rt, &plan, self.order, self.text, link.linked),
            Err(_) => holds(rt, false, "no plan"),
        }
    }
}

/// The plan of a link.
struct PlanRows;

impl Row for PlanRows {
    fn check<R: Abort + AllocGlobal>(&self, rt: &R, row: &str) {
        let (files, rest) = field(rt, row);
        let (host, text) = changes(rt, rest);
        let base = base_named(rt, files);
        let plan = PlanCheck {
            order: base.order,
            text,
        };
        base.check(rt, (host, "", ""), &plan)
    }
}

#[test]
fn plans(rt: HostRuntime) {
    check_all(&rt, &PlanRows, PLANS)
}
