ghost use Rattle.std.specs.Prelude.{◌≡◌, [], List, true, IfSome, ◌&&◌, None, false, is_some, ◌==◌};
ghost use Rattle.std.specs.Option.{option_map, option_map_or};
ghost use Rattle.ps_linkinfo.specs.declared.record.LinkRecord.{LinkRecord as Record};
ghost use Rattle.ps_codefile.specs.Roles.{needs_linking as needs_linking_spec};
ghost use Rattle.ps_reading.specs.KnownSegments.{has_records_at, HasRecordsAt};

use crate::locations::{EntryAt, SegmentAt};
use ps_codefile::{ProcedureDictionary, Role};
use ps_linkinfo::LinkInformation;
use ps_words::{Name, Order, blocks_of};
use std::marker::Model;

/// What only a segment has whose references are resolved.
/// Source: UCSD Pascal II.0 manual, code file format, and the published II.0 Linker source.
#[derive(Drop)]
pub struct Resolvable<'s, 'a> {
    /// The procedure dictionary of its code, which has no fault.
    pub procedures: ProcedureDictionary<'a>,
    /// The link information of the segment, read whole.
    pub records: &'s LinkInformation<'a>,
}

/// A segment of the linked file, as the files have it: a view of them, and no copy.
///
/// A link has a table of sixteen, so its small fields are together, and what follows from others is
/// not kept.
/// Source: UCSD Pascal II.0 manual, code file format, and the published II.0 Linker source.
#[derive(Drop)]
pub struct Segment<'a> {
    /// The slot of the segment in the host and in the linked file, 0 to 15.
    pub slot: u8,
    /// The slot of its entry in its file, 0 to 15.
    pub index: u8,
    /// The references of the segment are resolved; the code of one that is linked already is copied
    /// as it is.
    pub linked: bool,
    /// The segment was added in an empty slot of the host, for a unit that only a UNITREF record
    /// names; its role is that of a wanted unit.
    pub added: bool,
    /// What the slot is for; never `Empty`.
    pub(crate) role: Role,
    /// The byte order of its file.
    pub(crate) order: Order,
    /// The host's name of its slot, or that of the unit that was added there.
    pub(crate) name: Name,
    /// The block of its file, from 0, in which its code begins.
    pub(crate) address: u16,
    /// The file that has the code: 0 for the host, k for the k-th library.
    pub file: usize,
    /// The code, as the file has it.
    pub code: &'a [u8],
    /// The link information; none of a segment that is linked already.
    pub(crate) records: LinkInformation<'a>,
}

impl<'a> Model for Segment<'a> {
    ghost use Rattle.std.specs.Prelude.{◌≡◌, length};
    ghost use Rattle.ps_reading.specs.Sources.{Segment as SegmentOfLink, block_behind, tables_of};
    ghost use Rattle.ps_reading.specs.KnownSegments.{IsKept};

    ghost Value = { SegmentOfLink };

    ghost view = { λ s. record { slot = s.slot; name = s.name; role = s.role; added = s.added; file = s.file; index = s.index; code = s.code.now; tables = tables_of s.order s.code.now s.linked; block = block_behind s.address (length s.code.now) s.linked; records = s.records } };

    ghost invariant = { λ s. IsKept s.linked s.role s.order s.code.now s.records };
}

impl<'a> Segment<'a> {
    /// The slot of the segment in the host, 0 to 15.
    /// Source: UCSD Pascal II.0 manual, code file format.
    pub fn slot(&self) -> u8
        ensures { result ≡ self.now.slot }
    {
        self.slot
    }

    /// The host's name of its slot, or that of the unit that was added there.
    /// Source: UCSD Pascal II.0 manual, code file format.
    pub fn name(&self) -> Name
        ensures { result ≡ self.now.name }
    {
        self.name
    }

    /// What its slot is for; never `Empty`. An added unit has the role of a wanted one.
    pub fn role(&self) -> Role
        ensures { result ≡ self.now.role }
    {
        self.role
    }

    /// The segment was added in an empty slot, for a UNITREF.
    pub fn added(&self) -> bool
        ensures { result ≡ self.now.added }
    {
        self.added
    }

    /// The file that its code comes from: 0 for the host, k for the k-th library, from 1.
    pub fn file(&self) -> usize
        ensures { result ≡ self.now.file }
    {
        self.file
    }

    /// The slot of its entry in that file, 0 to 15.
    pub fn index(&self) -> u8
        ensures { result ≡ self.now.index }
    {
        self.index
    }

    /// The code of the segment, as the file has it.
    /// Source: UCSD Pascal II.0 manual, code file format.
    pub fn code(&self) -> &'a [u8]
        ensures { result.now ≡ self.now.code }
    {
        self.code
    }

    /// The block of its file, from 0, in which its link information begins; 0 for a segment that
    /// is linked already.
    fn block(&self) -> usize
        ensures { result ≡ self.now.block }
    {
        if !self.linked {
            return 0;
        }
        self.address as usize + blocks_of(self.code.len())
    }

    /// The link information; `None` for a segment that is linked already, which has none.
    /// Source: the published II.0 Linker source.
    pub fn records(&self) -> Option<&LinkInformation<'a>>
        ensures linked { is_some result ≡ needs_linking_spec self.now.role }
        ensures records { option_map_or (λ r. r.now) result [] ≡ self.now.records }
    {
        if !self.linked {
            return None;
        }
        Some(&self.records)
    }

    /// What only a segment has whose references are resolved; `None` for one that is linked
    /// already, and so has no records.
    pub fn resolvable(&self) -> Option<Resolvable<'_, 'a>>
        ensures linked { is_some result ≡ needs_linking_spec self.now.role }
        ensures records { option_map_or (λ c. c.records.now) result [] ≡ self.now.records }
        ensures tables { option_map (λ c. c.procedures) result ≡ self.now.tables }
    {
        if !self.linked {
            return None;
        }
        Some(Resolvable {
            procedures: ProcedureDictionary::known(self.order, self.code),
            records: &self.records,
        })
    }

    /// The segment, as one that was added.
    pub(crate) fn into_added(self) -> Segment<'a>
        ensures { result ≡ record self.entry { added = true } }
    {
        Segment {
            added: true,
            ..self
        }
    }

    /// A copy, which borrows the same files.
    pub fn copy(&self) -> Segment<'a>
        ensures { result ≡ self.now }
    {
        Segment {
            records: self.records.copy(),
            ..*self
        }
    }

    /// Where the segment is: its file, and its slot in the host.
    pub fn place(&self) -> SegmentAt
        ensures { result ≡ record { file = self.now.file; slot = self.now.slot } }
    {
        SegmentAt {
            file: self.file,
            slot: self.slot,
        }
    }

    /// The entry that the segment comes from.
    pub(crate) fn entry(&self) -> EntryAt
        ensures { result ≡ record { file = self.now.file; index = self.now.index } }
    {
        EntryAt {
            file: self.file,
            index: self.index,
        }
    }

    /// The link information of the segment begins in this block of this file.
    fn has_records_at(&self, file: usize, block: usize) -> bool
        ensures { result ≡ (needs_linking_spec self.now.role && self.now.file == file
            && self.now.block == block) }
    {
        self.linked && self.file == file && self.block() == block
    }

    /// Whether one of these segments has references to resolve, as this one has, and its link
    /// information begins in the same block of the same file. Both then have the same records.
    #[tactic(auto, using(crate::proofs::SharedRecords::found))]
    pub fn shares_with(&self, segments: &[Segment<'a>]) -> bool
        ensures linked { result ≡ true → needs_linking_spec self.now.role ≡ true }
        ensures records { result ≡ true
            → (records : List Record)
            × HasRecordsAt segments.now self.now.file self.now.block records }
        ensures own { result ≡ false → (needs_linking_spec self.now.role
            && has_records_at self.now.file self.now.block segments.now) ≡ false }
    {
        self.role.needs_linking() && records_at(segments, self.file, self.block()).is_some()
    }
}

/// The link information that begins in this block of this file, where a linked one of the segments
/// has it.
pub(crate) fn records_at<'a>(
    segments: &[Segment<'a>],
    file: usize,
    block: usize,
) -> Option<LinkInformation<'a>>
    ensures records { IfSome result (HasRecordsAt segments.now file block) }
    ensures none { result ≡ None → has_records_at file block segments.now ≡ false }
{
    for segment in segments {
        if segment.has_records_at(file, block) {
            return Some(segment.records.copy());
        }
    }
    None
}
