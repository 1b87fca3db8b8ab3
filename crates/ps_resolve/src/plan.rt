ghost use Rattle.std.specs.Prelude.{◌≡◌, ◌<◌, length, slice_get, Some};
ghost use Rattle.ps_codefile.specs.Dictionary.{tail_of};

use crate::allotment::Allotment;
use crate::definitions::Definitions;
use crate::links::Links;
use arrayvec::ArrayVec;
use ps_codefile::dictionary_layout::{SLOT_COUNT, TAIL};
use ps_reading::Segment as Source;
use ps_words::{BLOCK_SIZE, Edit, Name, Order};
use std::alloc::{Allocator, Global};
use std::marker::Model;

/// A plan of a link: its segments, and what is stored in the code of each.
///
/// A plan holds views of the inputs, and no copy of them.
#[derive(Drop)]
pub struct Plan<'a, A: Allocator + Copy = Global> {
    pub(crate) host: &'a [u8],
    pub(crate) names: [Name; SLOT_COUNT],
    pub(crate) sources: ArrayVec<Source<'a>, SLOT_COUNT>,
    pub(crate) links: Links<A>,
}

impl<'a, A: Allocator + Copy> Model for Plan<'a, A> {
    ghost use Rattle.std.specs.Prelude.{◌≡◌, ◌≤◌, length};
    ghost use Rattle.ps_resolve.specs.Plans.{Planned};

    ghost Value = { Planned };

    ghost view = { λ p. record { order = p.links.order; host = p.host.now; names = p.names; sources = p.sources.items; edits = p.links.edits; definitions = p.links.definitions; privates = p.links.privates; next_free = p.links.next_free; private_words = p.links.private_words; data_size = p.links.data_size } };

    ghost invariant = { λ p. (length p.links.edits ≡ length p.sources.items) × (512 ≤ length p.host.now) };
}

impl<'a, A: Allocator + Copy> Plan<'a, A> {
    /// The byte order of the host, which that of the linked file is.
    /// Source: UCSD Pascal II.0 manual, code file format.
    pub fn order(&self) -> Order
        ensures { result ≡ self.now.order }
    {
        self.links.order
    }

    /// The names of all slots of the linked file, of eight bytes each: the host's, and in the slot
    /// of an added unit that unit's.
    /// Source: UCSD Pascal II.0 manual, code file format.
    pub fn names(&self) -> &[Name; SLOT_COUNT]
        ensures { result.now ≡ self.now.names }
    {
        &self.names
    }

    /// The tail of the host's segment dictionary, its bytes 256 to 511.
    /// Source: UCSD Pascal II.0 manual, code file format.
    pub fn tail(&self) -> &'a [u8]
        ensures { result.now ≡ tail_of self.now.host }
    {
        &self.host[TAIL..BLOCK_SIZE]
    }

    /// The segments of the linked file, by slot ascending, as the files have them.
    pub fn sources(&self) -> &[Source<'a>]
        ensures sources { result.now ≡ self.now.sources }
        ensures count { length result.now ≡ length self.now.edits }
    {
        self.sources.as_slice()
    }

    /// What is stored in the code of the k-th source, from 0, which exists: by place ascending,
    /// apart from one another and inside the code, each BIG value at most `MAX_OPERAND`.
    ///
    /// A linked segment has the Byte edit of its number and one edit for each of its references,
    /// the host's segment the Word edit of its data size too, also where they change nothing. A
    /// segment that is linked already has none.
    pub fn edits(&self, k: usize) -> &[Edit]
        requires { k < length self.now.edits }
        ensures { slice_get self.now.edits k ≡ Some result.now }
    {
        self.links.edits[k].as_slice()
    }

    /// The definitions of the host's segment.
    pub fn definitions(&self) -> &Definitions<A>
        ensures { result.now ≡ self.now.definitions }
    {
        &self.links.definitions
    }

    /// The private variables of all segments.
    pub fn allotment(&self) -> &Allotment<A>
        ensures privates { result.now.privates ≡ self.now.privates }
        ensures words { result.now.words ≡ self.now.private_words }
        ensures next_free { result.now.next_free ≡ self.now.next_free }
    {
        &self.links.allotment
    }

    /// How many words all private variables take, 0 to `MAX_NEXT_FREE`.
    pub fn private_words(&self) -> u16
        ensures { result ≡ self.now.private_words }
    {
        self.links.allotment.words()
    }

    /// The base offset in words, 0 to `MAX_WORD`, after the last private variable: the one that the
    /// end mark of the host's link information gives where there is none.
    /// Source: the published II.0 Linker source.
    pub fn next_free(&self) -> u16
        ensures { result ≡ self.now.next_free }
    {
        self.links.allotment.next_free()
    }

    /// The data size of the host's outer block in the linked file, in bytes, 0 to `MAX_DATA_SIZE`.
    /// Source: UCSD Pascal II.0 manual, code file format.
    pub fn data_size(&self) -> u16
        ensures { result ≡ self.now.data_size }
    {
        self.links.data_size
    }
}
