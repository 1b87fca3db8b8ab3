//! The names of the units that a link takes from libraries, and of those that a file has.
use super::answers::{OUT_OF_MEMORY, is};
use super::calls::Link;
use super::rows::{Row, changes, check_all, field};
use super::tables::{Check, base_named};
use crate::line::Line;
use ps_texts::{HostText, NamedFiles, TextKind, Unmade, text_of};
use ps_writing::in_memory;
use std::alloc::Global;
use std::process::Abort;

/// What a row shows, the files of `tables.rt`, the changes of the host and of the first library, and
/// the names that a link of them takes, or the fault.
static WANTED: &str = "\
the unit of a slot, which the library has | pair | - | - | UTIL    .
the unit of a slot, which no library has | host-alone | - | - | UTIL    .
the units of two slots | two-units | - | - | UTIL    AUX     .
a unit that a record alone requests | used-unit | - | - | UTIL    AUX     .
a unit that is missing, and that a slot wants and the unit of another slot uses | used-unit \
| slot 8 name AUX kind 3 | slot 3 length 0 | UTIL    AUX     .
two slots that want one unit | two-units | slot 8 name UTIL | - | UTIL    .
a unit in place that is refused, and that a record requests | in-place | slot 7 length 23; \
records 2; PUBLDEF COUNT value 3; UNITREF UTIL at; EOFMARK next 8 | - | .
a linked file | linked-host-alone | - | - | .
a host in which no name can be read | pair | fill 64 128 01 | - | .
a short file | pair | size 511 | - | refused 1 ShortFile file 0
kinds in both orders | pair | at 193 01 | - | refused 2 NoOrder file 0";

/// Rows of the same form, with the names of the units whose code the host has.
static HAD: &str = "\
a unit in place | in-place | - | - | UTIL    .
a host without one | pair | - | - | .
a linked file | linked-host-alone | - | - | .
a file in which no name can be read | in-place | fill 64 128 01 | - | .
a short file | in-place | size 511 | - | refused 1 ShortFile file 0
kinds in both orders | in-place | at 193 01 | - | refused 2 NoOrder file 0";

/// The names of units of these files as text, with a full stop behind them, or the fault.
fn names_of(alloc: Global, kind: TextKind, files: &NamedFiles<'_>) -> Line {
    let mut line = Line::new(alloc);
    match text_of(alloc, kind, files) {
        Ok(text) => match in_memory(alloc, &text) {
            Ok(bytes) => {
                line.name(bytes.as_slice());
                line.word(".");
            }
            Err(_) => line.word(OUT_OF_MEMORY),
        },
        Err(Unmade::Refused(refusal)) => line.shown(&refusal.fault),
        Err(Unmade::Memory) => line.word(OUT_OF_MEMORY),
    }
    line
}

/// What a row shows, which names it is about, and these.
#[derive(Clone, Copy)]
struct Names<'a> {
    what: &'a str,
    kind: TextKind,
    names: &'a str,
}

impl Check for Names<'_> {
    fn check<R: Abort + AllocGlobal>(&self, rt: &R, link: &Link<'_>) {
        let files = NamedFiles {
            host_path: "",
            paths: &[],
            host: link.host,
            libs: link.libraries,
        };
        let line = names_of(rt.alloc(), self.kind, &files);
        is(rt, self.what, line, self.names)
    }
}

/// The names that rows are about.
#[derive(Clone, Copy)]
struct NameRows {
    kind: TextKind,
}

impl Row for NameRows {
    fn check<R: Abort + AllocGlobal>(&self, rt: &R, row: &str) {
        let (what, rest) = field(rt, row);
        let (base, rest) = field(rt, rest);
        let (host, rest) = changes(rt, rest);
        let (library, names) = changes(rt, rest);
        let kind = self.kind;
        base_named(rt, base).check(rt, (host, library, ""), &Names { what, kind, names })
    }
}

#[test]
fn names_of_units(rt: HostRuntime) {
    let kind = TextKind::Wanted;
    check_all(&rt, &NameRows { kind }, WANTED);
    let kind = TextKind::OfHost(HostText::Had);
    check_all(&rt, &NameRows { kind }, HAD)
}
