//! What a writer is given of a linked file, a map or a show, where it takes all or little, stalls
//! or fails.
ghost use Rattle.std.specs.Prelude.{◌<◌};

use super::answers::{LITTLE, is, text_of, text_of_error};
use super::calls::{Link, prepared, tell_to, write_map, write_show, write_to};
use super::failing_texts::fail_at_each_write;
use super::rows::{Row, check_all};
use super::tables::{Check, IN_PLACE_TEXTS, base_named};
use super::texts::{Map, Show};
use super::writers::Full::{Fails, Stalls};
use super::writers::{Broken, Counts, FAILS, Full, Room, Writer, room_for};
use crate::code_file::CodeFile;
use crate::line::Line;
use crate::notation::{ends, holds, holds_of, number, number_of};
use ps_linkfile::{LinkError, Linked, Summary};
use ps_writing::{Counting, ToldWriter, WriteFault};
use refusing::Refusing;
use std::alloc::Global;
use std::io;
use std::io::{ErrorKind, Write};
use std::process::Abort;
use std::str::SplitWhitespace;

/// What is written in pieces.
pub(crate) trait Writing {
    /// Writes it, and returns the summary of a linked file.
    fn write<W: Write>(&self, alloc: Global, out: &mut W) -> Result<Option<Summary>, LinkError>;
}

impl<'a> Writing for Link<'a> {
    fn write<W: Write>(&self, alloc: Global, out: &mut W) -> Result<Option<Summary>, LinkError> {
        Ok(Some(self.link_to(alloc, out)?))
    }
}

impl<'a> Writing for Linked<'a> {
    fn write<W: Write>(&self, _alloc: Global, out: &mut W) -> Result<Option<Summary>, LinkError> {
        Ok(Some(write_to(self, out)?))
    }
}

impl<'a> Writing for Show<'a> {
    fn write<W: Write>(&self, _alloc: Global, out: &mut W) -> Result<Option<Summary>, LinkError> {
        without_summary(write_show(self.file, out))
    }
}

impl<'a> Writing for Map<'a> {
    fn write<W: Write>(&self, alloc: Global, out: &mut W) -> Result<Option<Summary>, LinkError> {
        match self.link.prepare(alloc) {
            Ok(linked) => without_summary(write_map(&linked, out)),
            Err(error) => Err(error),
        }
    }
}

/// An answer that has no summary.
fn without_summary(answer: Result<(), LinkError>) -> Result<Option<Summary>, LinkError> {
    match answer {
        Ok(()) => Ok(None),
        Err(error) => Err(error),
    }
}

/// Checks the answer of a call and what a writer was given: the prefix of these bytes for which it
/// has room, and no flush. Returns how many writes of each kind there were.
fn was_given(
    rt: &(impl Abort + AllocGlobal),
    answered: Result<Option<Summary>, LinkError>,
    out: &Room,
    (bytes, (room, _, _)): (&[u8], Writer),
    answer: &str,
) -> Counts {
    let alloc = rt.alloc();
    let line = match answered {
        Ok(Some(summary)) => text_of(alloc, Ok(summary)),
        Ok(None) => Line::of(alloc, WRITTEN),
        Err(error) => text_of_error(alloc, error),
    };
    is(rt, answer, line, answer);
    let written = out.written() == bytes.get(..room).unwrap_or(bytes);
    holds_of(rt, written && out.flushes == 0, &room);
    out.counts()
}

/// Writes these bytes into a writer, and checks the answer and what the writer was given. Returns
/// how many writes of each kind there were.
fn counts_where_written<T: Writing>(
    rt: &(impl Abort + AllocGlobal),
    (call, bytes): (&T, &[u8]),
    writer: Writer,
    answer: &str,
) -> Counts {
    let mut out = room_for(rt, writer);
    let answered = call.write(rt.alloc(), &mut out);
    was_given(rt, answered, &out, (bytes, writer), answer)
}

/// Writes these bytes into a writer, and checks the answer and what the writer was given, in as
/// many writes of each kind.
pub(crate) fn writes<T: Writing>(
    rt: &(impl Abort + AllocGlobal),
    written: (&T, &[u8]),
    writer: Writer,
    answer: &str,
    counts: Counts,
) {
    let counted = counts_where_written(rt, written, writer, answer);
    holds_of(rt, counted == counts, &counted)
}

/// Writes a linked file to a writer that counts as it does itself, and compares its counts.
fn tells(
    rt: &(impl Abort + AllocGlobal),
    (linked, file): (&Linked<'_>, &[u8]),
    writer: Writer,
    answer: &str,
    counts: Counts,
) {
    let (answered, out) = tell_to(linked, room_for(rt, writer));
    let told = counts_of(&out);
    let out = out.into_inner();
    let counted = was_given(rt, answered.map(Some), &out, (file, writer), answer);
    holds_of(rt, told == counts && counted == counts, &told)
}

/// What a writer that counts has counted.
fn counts_of<W: Write>(out: &Counting<W>) -> Counts {
    [out.writes(), out.errors(), out.stalls(), out.shorts()]
}

/// No write at all.
pub(crate) const NO_WRITE: Counts = [0, 0, 0, 0];

/// The answer where a text is written.
const WRITTEN: &str = "written";

/// Answers of a writer with no room left.
const FAILED: &str = "device error Interrupted";

const STALLED: &str = "stalled";

const ALL: usize = usize::MAX;

/// Writers to which three blocks are written, each a line: their room, how much a write takes at
/// most, and what they do where there is no room; the answer; and how many writes of each kind there
/// are. A write that failed is not repeated.
static WRITERS: &str = "\
1536 512 fails written 3 0 0 0
1536 513 fails written 3 0 0 0
1536 all fails written 3 0 0 0
1536 all stalls written 3 0 0 0
1536 511 fails written 6 0 0 3
1536 256 fails written 6 0 0 3
1536 1 fails written 1536 0 0 1533
0 all fails failed 1 1 0 0
0 all stalls stalled 1 0 1 1
1 all fails failed 2 1 0 1
1 all stalls stalled 2 0 1 2
100 all fails failed 2 1 0 1
100 all stalls stalled 2 0 1 2
511 all fails failed 2 1 0 1
511 all stalls stalled 2 0 1 2
512 all fails failed 2 1 0 0
512 all stalls stalled 2 0 1 1
513 all fails failed 3 1 0 1
513 all stalls stalled 3 0 1 2
1024 all fails failed 3 1 0 0
1024 all stalls stalled 3 0 1 1
1025 all fails failed 4 1 0 1
1025 all stalls stalled 4 0 1 2
1535 all fails failed 4 1 0 1
1535 all stalls stalled 4 0 1 2";

/// The writer of a row.
fn writer_of(rt: &impl Abort, words: &mut SplitWhitespace<'_>) -> Writer {
    let room = number(rt, words);
    let per_write = words.next().unwrap_or("no number");
    let per_write = if per_write == "all" {
        ALL
    } else {
        number_of(rt, per_write)
    };
    (room, per_write, full_of(rt, words))
}

/// What a writer of a row does where it has no room.
fn full_of(rt: &impl Abort, words: &mut SplitWhitespace<'_>) -> Full {
    match words.next().unwrap_or("no word") {
        "fails" => FAILS,
        word => {
            holds(rt, word == "stalls", word);
            Stalls
        }
    }
}

/// The answer of a row, which is this one where the writer takes all.
fn answer_in<'a>(rt: &impl Abort, words: &mut SplitWhitespace<'_>, written: &'a str) -> &'a str {
    match words.next().unwrap_or("no answer") {
        "written" => written,
        "failed" => FAILED,
        word => {
            holds(rt, word == "stalled", word);
            STALLED
        }
    }
}

/// How many writes of each kind a row has.
fn counts_in(rt: &impl Abort, words: &mut SplitWhitespace<'_>) -> Counts {
    [
        number(rt, words) as u64,
        number(rt, words) as u64,
        number(rt, words) as u64,
        number(rt, words) as u64,
    ]
}

/// Writes a linked file into a writer by each call.
fn writes_by_each_call(
    rt: &(impl Abort + AllocGlobal),
    files: &Link<'_>,
    linked: &Linked<'_>,
    (writer, answer, counts): (Writer, &str, Counts),
) {
    let file = files.linked;
    writes(rt, (files, file), writer, answer, counts);
    writes(rt, (linked, file), writer, answer, counts);
    tells(rt, (linked, file), writer, answer, counts)
}

/// Writes a linked file of three blocks into the writer of a row.
fn writes_to(
    rt: &(impl Abort + AllocGlobal),
    files: &Link<'_>,
    linked: &Linked<'_>,
    (row, summary): (&str, &str),
) {
    let mut words = row.split_whitespace();
    let writer = writer_of(rt, &mut words);
    let answer = answer_in(rt, &mut words, summary);
    let counts = counts_in(rt, &mut words);
    ends(rt, &mut words, row);
    writes_by_each_call(rt, files, linked, (writer, answer, counts))
}

/// Writes it into each writer.
fn writes_to_each(
    rt: &(impl Abort + AllocGlobal),
    files: &Link<'_>,
    linked: &Linked<'_>,
    summary: &str,
) {
    for row in WRITERS.lines() {
        writes_to(rt, files, linked, (row, summary));
    }
}

/// Writes it into a writer of each room that is too little, which stalls and which fails: there is
/// a write for each block that it takes any of, and one for which it has no room.
fn writes_to_any_room(rt: &(impl Abort + AllocGlobal), files: &Link<'_>, linked: &Linked<'_>) {
    for room in 0..1536 {
        let writes_made = (room as u64 + 511) / 512 + 1;
        let shorts = if room % 512 == 0 { 0 } else { 1 };
        let wanted = [writes_made, 1, 0, shorts];
        writes_by_each_call(rt, files, linked, ((room, ALL, FAILS), FAILED, wanted));
        let wanted = [writes_made, 0, 1, shorts + 1];
        writes_by_each_call(rt, files, linked, ((room, ALL, Stalls), STALLED, wanted));
    }
}

/// What is checked where a linked file is written.
#[derive(Clone, Copy)]
enum WriteCheck {
    /// The summary, of each writer.
    Each(&'static str),
    /// The summary, and the answers of writers of any room.
    AnyRoom(&'static str),
    /// The failures of each text of its files, at each write.
    Texts,
    /// The errors of the writers.
    Errors,
}

impl Check for WriteCheck {
    fn check<R: Abort + AllocGlobal>(&self, rt: &R, link: &Link<'_>) {
        let linked = prepared(rt, link, rt.alloc());
        match *self {
            WriteCheck::Each(summary) => writes_to_each(rt, link, &linked, summary),
            WriteCheck::AnyRoom(summary) => {
                writes_to_each(rt, link, &linked, summary);
                writes_to_any_room(rt, link, &linked)
            }
            WriteCheck::Texts => fail_at_each_write(rt, link),
            WriteCheck::Errors => give_each_error(rt, link, &linked),
        }
    }
}

/// Writes what files are linked to.
fn writes_file(rt: &(impl Abort + AllocGlobal), files: &str, check: WriteCheck) {
    base_named(rt, files).check(rt, ("", "", ""), &check)
}

#[test]
fn writers_of_linked_files(rt: HostRuntime) {
    let in_place = "segments 2 private words 0 blocks 3";
    writes_file(&rt, "in-place", WriteCheck::Each(in_place));
    let pair = "segments 2 private words 4 blocks 3";
    writes_file(&rt, "pair", WriteCheck::AnyRoom(pair))
}

/// Writes this short text into writers that take all or little, stall or fail. No write is made
/// after one that failed.
pub(crate) fn writes_text<T: Writing>(rt: &(impl Abort + AllocGlobal), call: &T, text: &str) {
    let written = (call, text.as_bytes());
    writes_all(rt, written, 1);
    writes_all(rt, written, 7);
    writes_all(rt, written, ALL);
    writes_part(rt, written, 0, 0);
    writes_part(rt, written, 1, 1);
    writes_part(rt, written, text.len().saturating_sub(1), 1)
}

/// Writes a text, so many bytes at most by each write.
fn writes_all<T: Writing>(rt: &(impl Abort + AllocGlobal), written: (&T, &[u8]), per_write: usize)
    requires { 0 < per_write }
{
    let (_, text) = written;
    let count = text.len().div_ceil(per_write) as u64;
    let wanted = [count, 0, 0, count.saturating_sub(1)];
    writes(rt, written, (text.len(), per_write, FAILS), WRITTEN, wanted)
}

/// Writes a text into writers that take so many of its bytes alone, by as many writes that take
/// fewer than there are.
fn writes_part<T: Writing>(
    rt: &(impl Abort + AllocGlobal),
    written: (&T, &[u8]),
    room: usize,
    shorts: u64,
) {
    let writes_made = shorts.saturating_add(1);
    let wanted = [writes_made, 1, 0, shorts];
    writes(rt, written, (room, ALL, FAILS), FAILED, wanted);
    let wanted = [writes_made, 0, 1, writes_made];
    writes(rt, written, (room, ALL, Stalls), STALLED, wanted)
}

/// How many halves of a long text a writer has room for, what it does then, the answer, and how
/// many writes fail and stall.
static HALVES: &str = "\
2 fails written 0 0
0 fails failed 1 0
0 stalls stalled 0 1
1 fails failed 1 0
1 stalls stalled 0 1";

/// What is written as a long text.
#[derive(Drop)]
struct HalfRows<'a, T: Writing> {
    call: &'a T,
    text: &'a [u8],
}

impl<'a, T: Writing> Row for HalfRows<'a, T> {
    /// Writes it into the writer of a row.
    fn check<R: Abort + AllocGlobal>(&self, rt: &R, row: &str) {
        let mut words = row.split_whitespace();
        let room = self.text.len().saturating_mul(number(rt, &mut words)) / 2;
        let writer = (room, ALL, full_of(rt, &mut words));
        let answer = answer_in(rt, &mut words, WRITTEN);
        let written = (self.call, self.text);
        let [_, failures, stalls, _] = counts_where_written(rt, written, writer, answer);
        let wanted = (number(rt, &mut words) as u64, number(rt, &mut words) as u64);
        holds(rt, (failures, stalls) == wanted, row);
        ends(rt, &mut words, row)
    }
}

/// Writes this text, of many pieces, into writers that take all, half or none of it. One write
/// fails or stalls, and none is made after it, which would fail or stall too.
pub(crate) fn writes_long_text<T: Writing>(rt: &(impl Abort + AllocGlobal), call: &T, text: &str) {
    let text = text.as_bytes();
    check_all(rt, &HalfRows { call, text }, HALVES)
}

/// Single writes to a writer that counts, each a line: the writer, the bytes, how many of them it
/// takes, and what is counted. A dash is no bytes, and a write that fails.
static SINGLE: &str = "\
3 3 fails abc 3 1 0 0 0
3 2 fails abc 2 1 0 0 1
0 3 stalls abc 0 1 0 1 1
0 3 fails abc - 1 1 0 0
0 3 fails - 0 1 0 0 0";

/// A single write.
struct SingleRows;

impl Row for SingleRows {
    fn check<R: Abort + AllocGlobal>(&self, rt: &R, row: &str) {
        let mut words = row.split_whitespace();
        let writer = writer_of(rt, &mut words);
        let bytes = words.next().unwrap_or("no bytes");
        let bytes = if bytes == "-" { "" } else { bytes };
        writes_once(rt, (writer, bytes), &mut words, row);
        ends(rt, &mut words, row)
    }
}

/// Writes these bytes into a writer that counts, and checks how many it takes and what it counts.
fn writes_once(
    rt: &(impl Abort + AllocGlobal),
    (writer, bytes): (Writer, &str),
    words: &mut SplitWhitespace<'_>,
    row: &str,
) {
    let mut out = Counting::new(room_for(rt, writer));
    has_counts(rt, &out, NO_WRITE);
    let taken = out.told_write(bytes.as_bytes()).ok();
    let wanted = match words.next().unwrap_or("no number") {
        "-" => None,
        word => Some(number_of(rt, word)),
    };
    holds(rt, taken == wanted, row);
    has_counts(rt, &out, counts_in(rt, words))
}

#[test]
fn one_told_write(rt: HostRuntime) {
    check_all(&rt, &SingleRows, SINGLE)
}

/// Checks what a writer that counts has counted.
fn has_counts<W: Write>(rt: &impl Abort, out: &Counting<W>, wanted: Counts) {
    holds_of(rt, counts_of(out) == wanted, &wanted)
}

/// A plain write to a writer that counts is not counted, and is handed on whole, in one write; so
/// is a flush.
#[test]
fn plain_writes_are_not_counted(rt: HostRuntime) {
    let bytes = Vec::from_elem(rt.alloc(), 0xD7, 100_000).expect(&rt, "unexpected error");
    let mut out = Counting::new(room_for(&rt, (100_000, ALL, Stalls)));
    takes(&rt, &mut out, bytes.as_slice(), 100_000);
    takes(&rt, &mut out, b"more", 0);
    is_not_flushed(&rt, &mut out, NO_WRITE);
    let inner = out.into_inner();
    holds_of(&rt, inner.counts() == [2, 0, 1, 1], &inner.counts());
    holds_of(&rt, inner.flushes == 1, &inner.flushes);
    holds(&rt, inner.written() == bytes.as_slice(), "other bytes")
}

/// Checks how many of these bytes a writer takes.
fn takes(rt: &impl Abort, out: &mut impl Write, bytes: &[u8], count: usize) {
    holds_of(rt, out.write(bytes).ok() == Some(count), &count)
}

/// Checks that a flush fails, and what the writer has counted.
fn is_not_flushed<W: Write>(rt: &impl Abort, out: &mut Counting<W>, counts: Counts) {
    holds(rt, out.flush().is_err(), "a flush");
    has_counts(rt, out, counts)
}

#[test]
fn each_text_fails_once_and_stops(rt: HostRuntime) {
    writes_file(&rt, "pair", WriteCheck::Texts)
}

/// Every way in which a write fails here.
static WAYS: [Broken; 6] = [
    Broken::Of(ErrorKind::Interrupted),
    Broken::Of(ErrorKind::WouldBlock),
    Broken::Of(ErrorKind::BrokenPipe),
    Broken::Of(ErrorKind::WriteZero),
    Broken::OfSystem(28),
    Broken::Torn,
];

/// An error's kind, number and text.
fn described(alloc: Global, error: &io::Error) -> Line {
    let mut line = Line::new(alloc);
    line.value("", &error.kind());
    line.value(" ", &error.raw_os_error());
    line.word(" ");
    line.shown(error);
    line
}

/// Checks that an error is that of this writer.
fn is_error(rt: &(impl Abort + AllocGlobal), error: Option<LinkError>, way: Broken) {
    let alloc = rt.alloc();
    match error {
        Some(LinkError::Write(WriteFault::Device(error))) => {
            let wanted = described(alloc, &way.error()).text(rt);
            let wanted = wanted.as_str();
            is(rt, wanted, described(alloc, &error), wanted);
        }
        _ => holds(rt, false, "no error of the write"),
    }
}

/// Checks that a call gives the error of a writer.
fn gives_error<T: Writing>(rt: &(impl Abort + AllocGlobal), call: &T, way: Broken) {
    let mut out = room_for(rt, (0, ALL, Fails(way)));
    is_error(rt, call.write(rt.alloc(), &mut out).err(), way)
}

/// Checks the same of a writer that counts.
fn tells_error(rt: &(impl Abort + AllocGlobal), linked: &Linked<'_>, way: Broken) {
    let (answer, mut out) = tell_to(linked, room_for(rt, (0, ALL, Fails(way))));
    is_error(rt, answer.err(), way);
    is_not_flushed(rt, &mut out, [1, 1, 0, 0])
}

#[test]
fn the_error_of_the_write_comes_back(rt: HostRuntime) {
    writes_file(&rt, "in-place", WriteCheck::Errors)
}

/// Checks that each call gives the error of each writer.
fn give_each_error(rt: &(impl Abort + AllocGlobal), files: &Link<'_>, linked: &Linked<'_>) {
    for way in &WAYS {
        gives_error(rt, files, *way);
        gives_error(rt, linked, *way);
        tells_error(rt, linked, *way);
    }
}

#[test]
fn texts_of_write_faults(rt: HostRuntime) {
    let mut line = Line::new(rt.alloc());
    line.shown(&WriteFault::Device(Broken::Torn.error()));
    line.word(", ");
    line.shown(&WriteFault::Stalled);
    line.word(", ");
    line.shown(&LinkError::Write(WriteFault::Stalled));
    let wanted = "the tape is torn, the writer takes no more bytes, the writer takes no more bytes";
    is(&rt, "faults of writes", line, wanted)
}

/// A list whose memory is refused takes no byte.
#[test]
fn a_list_that_cannot_grow(rt: HostRuntime) {
    let alloc = rt.alloc();
    let host = CodeFile::new(&rt, LITTLE, IN_PLACE_TEXTS);
    let heap = Refusing::once(alloc, 1);
    let mut list = Vec::new(&heap);
    let answer = host.alone().link_to(alloc, &mut list);
    let wanted = "device error OutOfMemory";
    is(&rt, wanted, text_of(alloc, answer), wanted);
    holds(&rt, list.is_empty(), wanted)
}
