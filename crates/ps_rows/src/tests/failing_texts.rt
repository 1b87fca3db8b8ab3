//! Each text of files, written to writers of which the n-th write fails.
use super::calls::Link;
use crate::notation::{holds, holds_of};
use ps_texts::{
    FilesText, Form, HostText, LinkText, ListForm, NamedFiles, NamedText, ReportText, TextKind,
    text_of,
};
use ps_writing::{WriteFault, in_memory, write_text};
use std::io;
use std::io::Write;
use std::process::Abort;

/// Each text that there is, in each form.
static KINDS: [TextKind; 16] = [
    TextKind::OfLink(LinkText::Map, Form::Lines),
    TextKind::OfLink(LinkText::Map, Form::Json),
    TextKind::OfLink(LinkText::References, Form::Lines),
    TextKind::OfLink(LinkText::References, Form::Json),
    TextKind::OfHost(HostText::Show(Form::Lines)),
    TextKind::OfHost(HostText::Show(Form::Json)),
    TextKind::Named(NamedText::OfReport(ReportText::Whole, Form::Lines)),
    TextKind::Named(NamedText::OfReport(ReportText::Whole, Form::Json)),
    TextKind::Named(NamedText::OfReport(ReportText::Findings, Form::Lines)),
    TextKind::Named(NamedText::OfReport(ReportText::Findings, Form::Json)),
    TextKind::Named(NamedText::List(ListForm::Lines)),
    TextKind::Named(NamedText::List(ListForm::Json)),
    TextKind::Named(NamedText::List(ListForm::Units)),
    TextKind::Wanted,
    TextKind::OfHost(HostText::Had),
    TextKind::OfHost(HostText::CodeType),
];

/// How many bytes a write takes at most: few, so that a text takes many writes, or all.
static MOST: [usize; 2] = [61, 100_000];

/// A writer of which each write takes so many bytes at most, and one fails: it stalls, or returns an
/// error. Later writes take all again.
#[derive(Drop)]
struct Failing {
    bytes: Vec<u8>,
    most: usize,
    /// How many writes succeed before the one that fails.
    before: usize,
    stalls: bool,
    writes: usize,
}

impl Write for Failing {
    fn write(&mut self, buf: &[u8]) -> io::Result<usize> {
        let number = self.writes;
        self.writes = number.saturating_add(1);
        if number == self.before {
            if self.stalls {
                return Ok(0);
            }
            return Err(io::Error::from(io::ErrorKind::Interrupted));
        }
        let taken = buf.get(..self.most).unwrap_or(buf);
        match self.bytes.extend_from_slice(taken) {
            Ok(_) => Ok(taken.len()),
            Err(_) => Err(io::Error::from(io::ErrorKind::OutOfMemory)),
        }
    }

    fn flush(&mut self) -> io::Result<()> {
        Ok(())
    }
}

/// The fault is that of the write that failed.
fn is_fault_of(fault: &WriteFault, stalls: bool) -> bool {
    match fault {
        WriteFault::Stalled => stalls,
        WriteFault::Device(error) => !stalls && error.kind() == io::ErrorKind::Interrupted,
    }
}

/// Writes a text to a writer, and checks the answer and what was written: all of it, or where a write
/// failed what was taken before, and no write after it. Returns whether all was written.
fn is_written(
    rt: &(impl Abort + AllocGlobal),
    text: &FilesText<'_>,
    bytes: &[u8],
    (most, before, stalls): (usize, usize, bool),
) -> bool {
    let mut out = Failing {
        bytes: Vec::new(rt.alloc()),
        most,
        before,
        stalls,
        writes: 0,
    };
    let answer = write_text(text, &mut out);
    let whole = out.bytes.as_slice() == bytes;
    match answer {
        Ok(()) => {
            holds_of(rt, whole && out.writes <= before, &before);
            true
        }
        Err(fault) => {
            let begins = bytes.starts_with(out.bytes.as_slice());
            let once = out.writes == before.saturating_add(1);
            holds_of(rt, begins && once && is_fault_of(&fault, stalls), &before);
            false
        }
    }
}

/// Lets each write of a text fail, one after another, until all of it is written.
fn fails_at_each(
    rt: &(impl Abort + AllocGlobal),
    text: &FilesText<'_>,
    bytes: &[u8],
    (most, stalls): (usize, bool),
) {
    for before in 0..bytes.len().saturating_add(2) {
        if is_written(rt, text, bytes, (most, before, stalls)) {
            return;
        }
    }
    holds(rt, false, "never written")
}

/// Lets each write of the text of a kind fail.
fn fails_of_kind(rt: &(impl Abort + AllocGlobal), files: &NamedFiles<'_>, kind: TextKind) {
    let alloc = rt.alloc();
    let Ok(text) = text_of(alloc, kind, files) else {
        return holds(rt, false, "a text is refused");
    };
    let Ok(bytes) = in_memory(alloc, &text) else {
        return holds(rt, false, "out of memory");
    };
    for most in &MOST {
        fails_at_each(rt, &text, bytes.as_slice(), (*most, false));
        fails_at_each(rt, &text, bytes.as_slice(), (*most, true));
    }
}

/// Lets each write of each text of these files fail.
pub(crate) fn fail_at_each_write(rt: &(impl Abort + AllocGlobal), link: &Link<'_>) {
    let files = NamedFiles {
        host_path: "host.code",
        paths: &["library.code"],
        host: link.host,
        libs: link.libraries,
    };
    for kind in &KINDS {
        fails_of_kind(rt, &files, *kind);
    }
}
