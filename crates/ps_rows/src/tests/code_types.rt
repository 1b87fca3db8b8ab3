//! What a file is for and its byte order, in a line that a program compares.
use super::answers::{OUT_OF_MEMORY, is};
use super::calls::Link;
use super::rows::{Row, changes, check_all, field};
use super::tables::{Check, base_named};
use crate::line::Line;
use ps_texts::{HostText, NamedFiles, TextKind, Unmade, text_of};
use ps_writing::in_memory;
use std::alloc::Global;
use std::process::Abort;

/// What a row shows, the files of `tables.rt`, the changes of the host, and the line of its file.
static ROWS: &str = "\
a host that wants a unit | pair | - | host little
a host that has its unit | in-place | - | host little
a big-endian host | big pair | - | host big
a library | library-alone | - | library little
a big-endian library | big library-alone | - | library big
a library of two units | libraries-joined | - | library little
a linked file | linked-host-alone | - | linked little
a big-endian linked file | big linked-host-alone | - | linked big
a library with a linked segment | library-alone | slot 3 name OTHER kind 0 address 1 length 24 \
| mixed little
a big-endian library with a linked segment | big library-alone \
| slot 3 name OTHER kind 0 address 1 length 24 | mixed big
# each file that is no code file as it ought to be: without a byte, short, with kinds in both orders, with
# names that cannot be read, all zeros, with bytes that are exchanged in pairs, and of a later release
a file without a byte | library-alone | size 0 | other
a file of 511 bytes | library-alone | size 511 | other
kinds in both orders | library-alone | at 193 01 | other
names that cannot be read | library-alone | fill 64 128 01 | other
a file of zeros | library-alone | fill 0 1536 00 | other
a library whose bytes are exchanged in pairs | big library-alone \
| code 1 18 0001; code 1 22 0102 | other
a library of release III.0 | library-alone | at 260 0260 | other";

/// The line of the type of the host's file, or why there is none.
fn line_of(alloc: Global, files: &NamedFiles<'_>) -> Line {
    let mut line = Line::new(alloc);
    match text_of(alloc, TextKind::OfHost(HostText::CodeType), files) {
        Ok(text) => match in_memory(alloc, &text) {
            Ok(bytes) => line.name(bytes.as_slice()),
            Err(_) => line.word(OUT_OF_MEMORY),
        },
        Err(Unmade::Refused(refusal)) => line.shown(&refusal.fault),
        Err(Unmade::Memory) => line.word(OUT_OF_MEMORY),
    }
    line
}

/// What a row shows, and the line of the host's file.
#[derive(Clone, Copy)]
struct Typed<'a> {
    what: &'a str,
    words: &'a str,
}

impl Check for Typed<'_> {
    fn check<R: Abort + AllocGlobal>(&self, rt: &R, link: &Link<'_>) {
        let files = NamedFiles {
            host_path: "",
            paths: &[],
            host: link.host,
            libs: link.libraries,
        };
        let mut wanted = Line::new(rt.alloc());
        wanted.lines(self.words);
        let wanted = wanted.text(rt);
        is(rt, self.what, line_of(rt.alloc(), &files), wanted.as_str())
    }
}

/// A row of the types of files.
#[derive(Clone, Copy)]
struct TypeRow;

impl Row for TypeRow {
    fn check<R: Abort + AllocGlobal>(&self, rt: &R, row: &str) {
        let (what, rest) = field(rt, row);
        let (base, rest) = field(rt, rest);
        let (host, words) = changes(rt, rest);
        base_named(rt, base).check(rt, (host, "", ""), &Typed { what, words })
    }
}

#[test]
fn types_of_files(rt: HostRuntime) {
    check_all(&rt, &TypeRow, ROWS)
}
