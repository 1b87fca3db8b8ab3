//! Answers as text.
use super::calls::Link;
use crate::line::Line;
use crate::notation::holds;
use ps_linkfile::{LinkError, Summary};
use ps_words::{Fault, Order};
use ps_writing::WriteFault;
use std::alloc::Global;
use std::process::Abort;

/// The byte order of most inputs.
pub(crate) const LITTLE: Order = Order::Little;

/// The answer of each call whose allocation is refused.
pub(crate) const OUT_OF_MEMORY: &str = "out of memory";

/// Checks a text, for which there was memory.
pub(crate) fn is(rt: &impl Abort, what: &str, line: Line, wanted: &str) {
    let text = line.text(rt);
    assert!(rt; text.as_str() == wanted, "{what}: {text}");
}

/// A link's answer: the program's line for a Summary, or the text of an error.
pub(crate) fn text_of(alloc: Global, answer: Result<Summary, LinkError>) -> Line {
    match answer {
        Ok(summary) => {
            let mut line = Line::new(alloc);
            line.number("segments ", summary.segments);
            line.number(" private words ", summary.private_words as usize);
            line.number(" blocks ", summary.blocks);
            line
        }
        Err(error) => text_of_error(alloc, error),
    }
}

/// A fault, if there is one.
pub(crate) fn text_of_fault(alloc: Global, fault: Option<Fault>) -> Line {
    let mut line = Line::new(alloc);
    match fault {
        None => line.word("no fault"),
        Some(fault) => line.shown(&fault),
    }
    line
}

/// An error: its text, or a word for each of a writer.
pub(crate) fn text_of_error(alloc: Global, error: LinkError) -> Line {
    let mut line = Line::new(alloc);
    match error {
        LinkError::Write(WriteFault::Device(error)) => line.value("device error ", &error.kind()),
        LinkError::Write(WriteFault::Stalled) => line.word("stalled"),
        error => line.shown(&error),
    }
    line
}

/// Checks the summary of a link and the file, which is written to a list of bytes, or the error,
/// before which nothing is written.
pub(crate) fn links(rt: &(impl Abort + AllocGlobal), what: &str, files: &Link<'_>, answer: &str) {
    let alloc = rt.alloc();
    let mut out = Vec::new(alloc);
    let answered = files.link_to(alloc, &mut out);
    is(rt, what, text_of(alloc, answered), answer);
    holds(rt, out.as_slice() == files.linked, what)
}

/// Links a host and one library, and compares the answer.
pub(crate) fn links_pair(
    rt: &(impl Abort + AllocGlobal),
    what: &str,
    (host, library): (&[u8], &[u8]),
    linked: &[u8],
    answer: &str,
) {
    let files = Link {
        host,
        libraries: &[library],
        linked,
    };
    links(rt, what, &files, answer)
}
