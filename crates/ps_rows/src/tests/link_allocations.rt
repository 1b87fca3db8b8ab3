//! `link` and its parts where memory is wanting, and how often it is requested.
use super::allocations::{Allocating, refused_allocations};
use super::answers::{is, text_of};
use super::calls::{Link, prepared, tell_to, write_to};
use super::plan::{describe, text_of_stop};
use super::rows::{Row, check_all, field, fields};
use super::tables::{Check, base_named};
use super::writers::{Full, Room};
use crate::line::Line;
use crate::notation::{holds_of, number_of};
use ps_linkfile::{LinkError, Linked, Summary};
use refusing::Refusing;
use std::alloc::{Allocator, Global};
use std::process::Abort;

impl Link<'_> {
    /// A writer with room for the linked file, which takes no memory.
    fn room(&self, alloc: Global) -> Room {
        Room::new(alloc, (self.linked.len(), usize::MAX, Full::Stalls))
    }

    /// Checks an answer, and what was written.
    fn has(
        &self,
        rt: &(impl Abort + AllocGlobal),
        answer: Result<Summary, LinkError>,
        written: &[u8],
        wanted: &str,
    ) {
        is(
            rt,
            wanted,
            self.text_of(rt.alloc(), answer, written),
            wanted,
        )
    }

    /// An answer as text, where no other bytes were written than it says.
    fn text_of(&self, alloc: Global, answer: Result<Summary, LinkError>, written: &[u8]) -> Line {
        let wanted = if answer.is_ok() { self.linked } else { &[] };
        if written != wanted {
            return Line::of(alloc, "other bytes were written");
        }
        text_of(alloc, answer)
    }
}

impl<'a> Allocating for Link<'a> {
    fn answer<A: Allocator + Copy>(&self, alloc: Global, heap: A) -> Line {
        let mut out = self.room(alloc);
        let answer = self.link_to(heap, &mut out);
        self.text_of(alloc, answer, out.written())
    }
}

/// `resolve` with the files of a link.
#[derive(Clone, Copy)]
struct Resolve<'a> {
    /// The files; what they are linked to is not looked at.
    pub link: Link<'a>,
}

impl<'a> Allocating for Resolve<'a> {
    fn answer<A: Allocator + Copy>(&self, alloc: Global, heap: A) -> Line {
        match self.link.resolve(heap) {
            Ok(plan) => describe(alloc, &plan),
            Err(stop) => text_of_stop(alloc, &stop),
        }
    }
}

/// `prepare` with the files of a link, and the linked file written from it.
#[derive(Clone, Copy)]
struct Prepare<'a> {
    link: Link<'a>,
}

impl<'a> Allocating for Prepare<'a> {
    fn answer<A: Allocator + Copy>(&self, alloc: Global, heap: A) -> Line {
        let mut out = self.link.room(alloc);
        let answer = match self.link.prepare(heap) {
            Ok(linked) => write_to(&linked, &mut out),
            Err(error) => Err(error),
        };
        self.link.text_of(alloc, answer, out.written())
    }
}

/// Checks what is answered and written where a prepared link is written to a writer of each kind.
fn writes_to_each<A: Allocator + Copy>(
    rt: &(impl Abort + AllocGlobal),
    link: &Link<'_>,
    linked: &Linked<'_, A>,
    summary: &str,
) {
    let alloc = rt.alloc();
    let mut room = link.room(alloc);
    let answer = write_to(linked, &mut room);
    link.has(rt, answer, room.written(), summary);
    let mut list = Vec::new(alloc);
    let answer = write_to(linked, &mut list);
    link.has(rt, answer, list.as_slice(), summary);
    let (answer, told) = tell_to(linked, link.room(alloc));
    link.has(rt, answer, told.into_inner().written(), summary)
}

/// Checks that preparing a link makes so many allocations, of so many bytes in all, and that
/// writing it, however often, makes none.
fn writing_grows_nothing(
    rt: &(impl Abort + AllocGlobal),
    link: &Link<'_>,
    asked: (u64, u64),
    summary: &str,
) {
    let heap = Refusing::once(rt.alloc(), 0);
    let linked = prepared(rt, link, &heap);
    has_grown(rt, &heap, asked);
    writes_to_each(rt, link, &linked, summary);
    has_grown(rt, &heap, asked)
}

/// Checks how many allocations there were on a heap, and of how many bytes.
fn has_grown(rt: &impl Abort, heap: &Refusing<Global>, asked: (u64, u64)) {
    let grown = (heap.allocations(), heap.bytes());
    holds_of(rt, grown == asked, &grown)
}

/// Checks that the map of a link takes memory for its plan and for its text alone. The text has 128
/// to 255 bytes; its room grows to twice as much at least, so seven times at most, and requests
/// four times as many bytes at most.
fn a_map_grows_by_its_text(
    rt: &(impl Abort + AllocGlobal),
    link: &Link<'_>,
    (allocations, bytes): (u64, u64),
) {
    let heap = Refusing::once(rt.alloc(), 0);
    let heap = &heap;
    let text = link.map_text(heap).expect(rt, "unexpected error");
    let grown = heap.allocations().saturating_sub(allocations);
    let asked = heap.bytes().saturating_sub(bytes);
    let length = text.len() as u64;
    let is_right = (128..256).contains(&length)
        && (1..8).contains(&grown)
        && (length..=length.saturating_mul(4)).contains(&asked);
    holds_of(rt, is_right, &(length, grown, asked))
}

/// A link of unchanged files: how many allocations its plan makes and of how many bytes, the plan,
/// and the program's line.
#[derive(Clone, Copy)]
struct Planned<'a> {
    asked: (u64, u64),
    plan: &'a str,
    summary: &'a str,
}

impl<'a> Check for Planned<'a> {
    /// The answers of `resolve` and of `prepare` with each allocation refused in turn, that both
    /// make so many, and that a linked file is written without any.
    fn check<R: Abort + AllocGlobal>(&self, rt: &R, link: &Link<'_>) {
        let planning = refused_allocations(rt, "resolve", &Resolve { link: *link }, self.plan);
        let preparing = refused_allocations(rt, "prepare", &Prepare { link: *link }, self.summary);
        let (allocations, _) = self.asked;
        let is_right = (planning, preparing) == (allocations, allocations);
        holds_of(rt, is_right, &(planning, preparing));
        writing_grows_nothing(rt, link, self.asked, self.summary);
        a_map_grows_by_its_text(rt, link, self.asked)
    }
}

/// The table of definitions takes four allocations of 244 bytes, since the kit's has nine places at
/// least: of 8 bytes for a hash and its place, 8 for a name and 4 for a definition, and a group of
/// 64. The list of lists of edits takes 64. For each segment to be linked a table takes 4 bytes for
/// each of its code's 18, 24 or 530, and a list 16 for each edit that there is room for: one for
/// each reference and two more. A private variable takes 24 bytes. Names are compared only where a
/// segment has two private variables or more.
static PLANS: &str = "\
pair | 10 596 | slot 1 file 0 entry 1 length 18: \
Word { value: 18, place: 4 } Byte { value: 1, place: 16 }; \
slot 7 file 1 entry 2 length 24: \
Big { value: 3, place: 1 } Big { value: 10, place: 4 } Byte { value: 7, place: 22 }; \
definitions 1 privates 1 words 4 next 12 data 18 | segments 2 private words 4 blocks 3
long-unit | 9 2580 | slot 1 file 0 entry 1 length 18: \
Word { value: 10, place: 4 } Byte { value: 1, place: 16 }; \
slot 7 file 1 entry 2 length 530: Big { value: 258, place: 511 } Byte { value: 7, place: 528 }; \
definitions 1 privates 0 words 0 next 8 data 10 | segments 2 private words 0 blocks 4
in-place | 9 556 | slot 1 file 0 entry 1 length 18: \
Word { value: 10, place: 4 } Byte { value: 1, place: 16 }; \
slot 7 file 0 entry 7 length 24: Big { value: 3, place: 1 } Byte { value: 7, place: 22 }; \
definitions 1 privates 0 words 0 next 8 data 10 | segments 2 private words 0 blocks 3";

/// Files, how many allocations their plan makes and of how many bytes, the plan, and the program's
/// line.
struct PlanRows;

impl Row for PlanRows {
    fn check<R: Abort + AllocGlobal>(&self, rt: &R, row: &str) {
        let (files, rest) = field(rt, row);
        let (asked, plan, summary) = fields(rt, rest);
        let (allocations, bytes) = asked.split_once(' ').expect(rt, asked);
        let check = Planned {
            asked: (
                number_of(rt, allocations) as u64,
                number_of(rt, bytes) as u64,
            ),
            plan,
            summary,
        };
        base_named(rt, files).check(rt, ("", "", ""), &check)
    }
}

#[test]
fn writing_takes_no_memory(rt: HostRuntime) {
    check_all(&rt, &PlanRows, PLANS)
}
