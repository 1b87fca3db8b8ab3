//! The records that pslink does not link: of native code, and of separate procedures. A check names
//! all of them, since whoever has the files wants to know all that is missing, and not the first.
ghost use Rattle.std.specs.Prelude.{◌≡◌};

use crate::record_head::RecordHead;
use ps_check_segments::{NamedFiles, ReadSegment, SegmentPart, Source};
use ps_codefile::dictionary_layout::SLOTS;
use ps_filetype::ShownName;
use ps_linkinfo::Records;
use ps_linkinfo::record_layout::RECORD_LEN;
use ps_warnings::Place;
use ps_words::{Name, Order, Reason};
use std::alloc::{AllocError, Allocator};
use std::fmt::{self, Formatter, Write};

/// A report has a line for each of so many of the records at most.
const MOST_LINES: usize = 16;

/// A record that pslink does not link. Its text is where it is and what it is, as
/// `UTIL.CODE, segment UTIL, record 1: EXTPROC FWRITERE`.
#[derive(Clone, Copy)]
pub struct UnsupportedRecord<'a> {
    /// The file, the segment, and the index of the record in the link information of the segment.
    pub place: Place<'a>,
    /// The word for its type, as `EXTPROC`.
    pub kind: &'static str,
    /// Its name, padded with blanks.
    pub name: Name,
    /// The format of its references, where it is for that alone that they are not resolved.
    pub format: Option<u16>,
}

impl fmt::Display for UnsupportedRecord<'_> {
    fn fmt<W: Write>(&self, f: &mut Formatter<W>) -> fmt::Result {
        let (place, kind) = (self.place, self.kind);
        let name = ShownName(self.name);
        write!(f, "{place}: {kind} {name}")?;
        match self.format {
            Some(format) => write!(f, ", of format {format}"),
            None => Ok(()),
        }
    }
}

/// Records that pslink does not link. Their text is lines, each with its end: one for each of the
/// first 16, and one that says how many more there are.
#[derive(Clone, Copy)]
pub struct UnsupportedLines<'r, 'a>(
    /// The records, in the order of their slots.
    pub &'r [UnsupportedRecord<'a>],
);

impl fmt::Display for UnsupportedLines<'_, '_> {
    fn fmt<W: Write>(&self, f: &mut Formatter<W>) -> fmt::Result {
        for record in self.0.iter().take(MOST_LINES) {
            writeln!(f, "not linked: {record}")?;
        }
        match self.0.len().checked_sub(MOST_LINES) {
            None | Some(0) => Ok(()),
            Some(1) => f.write_str("not linked: 1 more record\n"),
            Some(more) => writeln!(f, "not linked: {more} more records"),
        }
    }
}

/// The link information of a segment that is linked, with its place.
#[derive(Clone, Copy)]
struct SegmentLinks<'a> {
    path: &'a str,
    segment: Name,
    order: Order,
    bytes: &'a [u8],
}

impl<'a> SegmentLinks<'a> {
    /// The link information of a segment whose references are resolved and whose code is there.
    /// Source: UCSD Pascal II.0 manual, code file format.
    fn of(files: &NamedFiles<'a>, segment: &ReadSegment<'a>) -> Option<Self> {
        if !segment.part.is_unit() && !matches!(segment.part, SegmentPart::Host) {
            return None;
        }
        let Ok(
            Source {
                at,
                order,
                code: Ok(_),
                ..
            },
        ) = segment.source
        else {
            return None;
        };
        if SLOTS <= at.index {
            return None;
        }
        Some(SegmentLinks {
            path: files.path(at.file),
            segment: segment.name,
            order,
            bytes: files.dict(at.file)?.after(at.index),
        })
    }

    /// The record of this index, which pslink does not link.
    fn unsupported(&self, rec: usize, head: &RecordHead) -> Option<UnsupportedRecord<'a>> {
        Some(UnsupportedRecord {
            place: Place {
                path: self.path,
                segment: Some(self.segment),
                rec: Some(rec),
            },
            kind: head.kind_word()?,
            name: head.name,
            format: if head.is_of_linked_type() {
                Some(head.format)
            } else {
                None
            },
        })
    }
}

/// A record on the way through link information.
#[derive(Clone, Copy)]
enum Step {
    /// A record that can be read, of so many bytes.
    Linked(usize),
    /// A record that pslink does not link.
    Unsupported(RecordHead),
}

/// The first record of these bytes; `None` of the end mark, of a record that is damaged, and where
/// there is none.
/// Source: the published II.0 Linker source.
fn first_step(order: Order, bytes: &[u8]) -> Option<Step> {
    let mut records = Records::new(order, bytes);
    match records.next()? {
        Ok(record) if record.is_eof() => None,
        Ok(record) => Some(Step::Linked(record.size())),
        Err(Reason::NativeRecord | Reason::SeparateRecord) => {
            Some(Step::Unsupported(RecordHead::first_in(order, bytes)?))
        }
        Err(_) => None,
    }
}

/// Adds the records of this link information that pslink does not link, up to its end mark or to the
/// first record that is damaged.
fn add_unsupported<'a, A: Allocator>(
    found: &mut Vec<UnsupportedRecord<'a>, A>,
    links: &SegmentLinks<'a>,
) -> Result<(), AllocError> {
    let mut rest = links.bytes;
    for rec in 0..links.bytes.len() / RECORD_LEN {
        let Some(step) = first_step(links.order, rest) else {
            return Ok(());
        };
        let size = match step {
            Step::Linked(size) => size,
            Step::Unsupported(head) => {
                if let Some(record) = links.unsupported(rec, &head) {
                    found.push(record)?;
                }
                head.size()
            }
        };
        rest = rest.get(size..).unwrap_or(&[]);
    }
    Ok(())
}

/// The records of these segments that pslink does not link, in the order of the segments and of the
/// records. Those of a segment end at the first record that is damaged. Returns an error where memory
/// was refused.
pub fn unsupported_records<'a, A: Allocator + Copy>(
    alloc: A,
    files: &NamedFiles<'a>,
    list: &[ReadSegment<'a>],
) -> Result<Vec<UnsupportedRecord<'a>, A>, AllocError> {
    let mut found = Vec::new(alloc);
    for segment in list {
        if let Some(links) = SegmentLinks::of(files, segment) {
            add_unsupported(&mut found, &links)?;
        }
    }
    Ok(found)
}
