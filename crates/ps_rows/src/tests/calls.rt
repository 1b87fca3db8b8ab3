//! A link of files, and the calls that make and write it. They have no clauses, so the proof of a
//! test has nothing of what the linker promises.
use crate::code_file::CodeFile;
use ps_linkfile::{LinkError, LinkMap, Linked, Show, ShownFile, Summary, link, map_text, prepare};
use ps_resolve::{Plan, Stop, resolve};
use ps_writing::{Counting, Form, write_text};
use std::alloc::Allocator;
use std::io::Write;
use std::process::Abort;

/// The files of a link; the linked file is empty where it is refused.
#[derive(Clone, Copy)]
pub(crate) struct Link<'a> {
    pub host: &'a [u8],
    pub libraries: &'a [&'a [u8]],
    pub linked: &'a [u8],
}

impl<'a> Link<'a> {
    /// `link` with these files.
    pub(crate) fn link_to<A: Allocator + Copy, W: Write>(
        &self,
        alloc: A,
        out: &mut W,
    ) -> Result<Summary, LinkError> {
        link(alloc, self.host, self.libraries, out)
    }

    /// `prepare` with these files.
    pub(crate) fn prepare<A: Allocator + Copy>(
        &self,
        alloc: A,
    ) -> Result<Linked<'a, A>, LinkError> {
        prepare(alloc, self.host, self.libraries)
    }

    /// `map_text` of these files.
    pub(crate) fn map_text<A: Allocator + Copy>(&self, alloc: A) -> Result<Vec<u8, A>, LinkError> {
        map_text(alloc, self.host, self.libraries)
    }

    /// `resolve` with these files.
    pub(crate) fn resolve<A: Allocator + Copy>(&self, alloc: A) -> Result<Plan<'a, A>, Stop> {
        resolve(alloc, self.host, self.libraries)
    }
}

impl CodeFile {
    /// The link of this host without a library.
    pub(crate) fn alone(&self) -> Link<'_> {
        Link {
            host: self.as_slice(),
            libraries: &[],
            linked: &[],
        }
    }
}

/// A link of these files, which is not refused.
pub(crate) fn prepared<'a, A: Allocator + Copy>(
    rt: &impl Abort,
    link: &Link<'a>,
    alloc: A,
) -> Linked<'a, A> {
    link.prepare(alloc).expect(rt, "unexpected error")
}

/// Writes a linked file.
pub(crate) fn write_to<A: Allocator + Copy, W: Write>(
    linked: &Linked<'_, A>,
    out: &mut W,
) -> Result<Summary, LinkError> {
    linked.write(out).map_err(LinkError::Write)
}

/// Writes the map of a link.
pub(crate) fn write_map<W: Write>(linked: &Linked<'_>, out: &mut W) -> Result<(), LinkError> {
    let form = Form::Lines;
    write_text(&LinkMap { form, linked }, out).map_err(LinkError::Write)
}

/// Writes the show of a file.
pub(crate) fn write_show<W: Write>(file: &[u8], out: &mut W) -> Result<(), LinkError> {
    let form = Form::Lines;
    match ShownFile::read(file) {
        Ok(file) => write_text(&Show { form, file: &file }, out).map_err(LinkError::Write),
        Err(fault) => Err(LinkError::Refused(fault)),
    }
}

/// Writes a linked file to a writer that counts, and returns that writer too.
pub(crate) fn tell_to<A: Allocator + Copy, W: Write + Drop>(
    linked: &Linked<'_, A>,
    out: W,
) -> (Result<Summary, LinkError>, Counting<W>) {
    let mut out = Counting::new(out);
    let answer = linked.write_told(&mut out).map_err(LinkError::Write);
    (answer, out)
}
