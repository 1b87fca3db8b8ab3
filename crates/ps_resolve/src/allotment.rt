ghost use Rattle.std.specs.Prelude.{◌≡◌, ◌<◌, ◌≤◌, ◌+◌, ◌++◌, ◌∷◌, [], IfOk, IfErr, OnOk, Some, None, length, map, unwrap_or, ⊤};
ghost use Rattle.ps_reading.specs.KnownSegments.{AscendFrom};
ghost use Rattle.ps_resolve.specs.Offsets.{FollowOn, offset_listed};
ghost use Rattle.ps_resolve.specs.Privates.{words_in, allotted_privates, private_words, private_fault, all_allotted, all_words, first_private_fault, owner_of, owner_of_linkage, allotment_of, unallotted_fault, unfit_fault, Owner};
ghost use Rattle.ps_resolve.specs.Stops.{IsStop};
ghost use Rattle.ps_resolve.specs.Builders.{HaveDistinctPrivates, HaveRoom, StopsPrivates, requested_of, all_requested, AreByRecord, words_of_all};

use crate::linkage::{Linkage, Stop};
use crate::namesakes::first_duplicate_private;
use ps_linkinfo::{Body, LinkInformation};
use ps_reading::{Segment, SegmentAt};
use ps_words::{MAX_OPERAND, MAX_WORD, Name, Reason};
use std::alloc::{Allocator, Global};
use std::marker::Model;

/// The greatest base offset in words that may be free after a private: one that a BIG operand can
/// hold.
pub const MAX_NEXT_FREE: usize = MAX_OPERAND as usize;

/// A private variable of a segment, which its PRIVREF record requests. A link may have millions, so
/// its fields are by their widths, and it takes 24 bytes.
///
/// Source: the published II.0 Linker source, the link record PRIVREF.
#[derive(Clone, Copy, Debug, PartialEq, Eq)]
pub struct Private {
    /// The index, from 0, of its record in the segment's link information.
    pub rec: usize,
    /// The base offset of the private in words, 0 to `MAX_NEXT_FREE`.
    pub offset: u16,
    /// How many words it takes, 0 to `MAX_NEXT_FREE`.
    pub words: u16,
    /// The name of the private, which no other private of its segment has.
    pub name: Name,
    /// The slot of its segment in the host's segment dictionary, 0 to 15.
    pub slot: u8,
}

/// How many words a private of a record takes, where its kind requests one.
pub(crate) fn words_of_private(body: &Body) -> Option<u16>
    ensures { result ≡ words_in body.now }
{
    match body {
        Body::PrivRef { words, .. } => Some(*words),
        _ => None,
    }
}

/// Appends a private of the segment that is there, and returns the next free offset. Refuses that of
/// the record `duplicate`, and one that ends past `MAX_NEXT_FREE`.
fn append<A: Allocator + Copy>(
    place: SegmentAt,
    duplicate: Option<usize>,
    private: Private,
    privates: &mut Vec<Private, A>,
) -> Result<u16, Stop>
    ensures privates { OnOk result (privates.new.items ≡ privates.old.items ++ private ∷ []) }
    ensures end { IfOk result (λ end. end ≡ private.offset + private.words) }
    ensures other { OnOk result (duplicate ≡ Some private.rec → ⊥) }
    ensures fits { OnOk result (private.offset + private.words ≤ MAX_NEXT_FREE) }
    ensures stop { IfErr result (IsStop ⊤
        (unfit_fault place.file place.slot duplicate private)) }
{
    let at = place.record(private.rec);
    if duplicate == Some(private.rec) {
        return Err(Stop::in_record(at, Reason::DoubledPrivate));
    }
    if private.offset as usize + private.words as usize > MAX_NEXT_FREE {
        return Err(Stop::in_record(at, Reason::NoRoom));
    }
    privates.push(private)?;
    Ok(private.offset + private.words)
}

/// Allots the privates of a segment from `next` on, and returns the next free offset.
#[tactic(auto, using(crate::proofs::Duplicates::positive, crate::proofs::AllottedPrivates::privates_counted))]
pub(crate) fn allot<A: Allocator + Copy>(
    alloc: A,
    place: SegmentAt,
    records: &LinkInformation,
    next: u16,
    privates: &mut Vec<Private, A>,
) -> Result<u16, Stop>
    ensures privates { IfOk result (λ _. privates.new.items
        ≡ privates.old.items ++ allotted_privates place.slot 0 next records.now) }
    ensures end { IfOk result (λ end. end ≡ next + private_words records.now) }
    ensures once { IfOk result (λ _. private_fault 0 next [] records.now ≡ None) }
    ensures stop { IfErr result (IsStop
        (0 < length (allotted_privates place.slot 0 next records.now))
        (unallotted_fault place.file place.slot next records.now)) }
{
    if records.privates() == 0 {
        return Ok(next);
    }
    let duplicate = first_duplicate_private(alloc, records)?;
    privates.reserve_exact(records.privates())?;
    let mut free = next;
    for (rec, record) in records.records() {
        if let Some(words) = words_of_private(&record.body) {
            let private = Private {
                rec,
                offset: free,
                words,
                name: record.name,
                slot: place.slot,
            };
            free = append(place, duplicate, private, privates)?;
        }
    }
    Ok(free)
}

/// The private variables of all linked segments, one after another, in the order of the segments'
/// slots and then of the records.
#[derive(Drop)]
pub struct Allotment<A: Allocator = Global> {
    privates: Vec<Private, A>,
    words: u16,
    next_free: u16,
}

impl<A: Allocator> Model for Allotment<A> {
    ghost use Rattle.ps_resolve.specs.Offsets.{RiseFrom};
    ghost use Rattle.ps_resolve.specs.Privates.{Allotted};

    ghost Value = { Allotted };

    ghost view = { λ a. record { privates = a.privates.items; words = a.words; next_free = a.next_free } };

    ghost invariant = { λ a. RiseFrom 0 0 a.privates.items };
}

/// A segment that privates are allotted to.
pub(crate) trait RequestsPrivates {
    /// The place of the owner, and its records.
    ghost owner: { Self → Owner };

    /// Where the owner's segment is.
    fn place(&self) -> SegmentAt
        ensures { result ≡ (owner self.now).0 };

    /// The link information of the owner; `None` where it is linked already, so that it has no
    /// records.
    fn records(&self) -> Option<LinkInformation<'_>>
        ensures { unwrap_or result [] ≡ (owner self.now).1 };
}

impl<'a> RequestsPrivates for Linkage<'a> {
    ghost owner = { owner_of_linkage };

    fn place(&self) -> SegmentAt {
        self.place()
    }

    fn records(&self) -> Option<LinkInformation<'_>> {
        Some(LinkInformation::up_to_fault(self.order, self.bytes))
    }
}

impl<'a> RequestsPrivates for Segment<'a> {
    ghost owner = { owner_of };

    fn place(&self) -> SegmentAt {
        self.place()
    }

    fn records(&self) -> Option<LinkInformation<'_>> {
        self.resolvable()
            .map(|resolvable| resolvable.records.copy())
    }
}

/// The privates of all segments, and the next free offset.
#[tactic(auto, using(std::proofs::lemmas::Result::err_from_is_err_and, crate::proofs::AllottedPrivates::stopped_in, ps_reading::proofs::NextItems::drop_at))]
fn allot_all<A: Allocator + Copy, S: RequestsPrivates>(
    alloc: A,
    next: u16,
    segments: &[S],
) -> Result<(Vec<Private, A>, u16), Stop>
    ensures privates { IfOk result (λ a. a.0.items
        ≡ all_allotted next (map S.owner segments.now)) }
    ensures end { IfOk result (λ a. a.1 ≡ next + all_words (map S.owner segments.now)) }
    ensures once { IfOk result (λ _. first_private_fault next (map S.owner segments.now) ≡ None) }
    ensures stop { IfErr result (IsStop
        (0 < length (all_allotted next (map S.owner segments.now)))
        (first_private_fault next (map S.owner segments.now))) }
{
    let mut privates = Vec::new(alloc);
    let mut end = next;
    for segment in segments {
        if let Some(records) = segment.records() {
            end = allot(alloc, segment.place(), &records, end, &mut privates)?;
        }
    }
    Ok((privates, end))
}

impl<A: Allocator + Copy> Allotment<A> {
    /// Allots the private variables that the PRIVREF records of the segments request, the first of
    /// them at the base offset `next`, in words. The slots of the segments rise strictly.
    ///
    /// The link information has to read without a fault: up to the first fault its records are
    /// taken. Refuses, at the first private where one of them is, `DoubledPrivate` where an earlier
    /// one of its segment has its name, and then `NoRoom` where the offset after it is over
    /// `MAX_NEXT_FREE`, with the file and the slot of its segment. Returns `Memory` only where
    /// memory was refused, and there is a private.
    pub fn build(alloc: A, next: u16, segments: &[Linkage]) -> Result<Self, Stop>
        requires { AscendFrom 0 (map (λ s. s.slot) segments.now) }
        ensures names { IfOk result (λ _. HaveDistinctPrivates
            (map owner_of_linkage segments.now)) }
        ensures room { IfOk result (λ _. HaveRoom next (map owner_of_linkage segments.now)) }
        ensures refused { IfErr result (StopsPrivates next (map owner_of_linkage segments.now)) }
        ensures requested { IfOk result (λ a. map requested_of a.privates
            ≡ all_requested (map owner_of_linkage segments.now)) }
        ensures rising { IfOk result (λ a. AreByRecord a.privates) }
        ensures follow { IfOk result (λ a. FollowOn next a.privates) }
        ensures total { IfOk result (λ a. a.words ≡ words_of_all a.privates) }
        ensures end { IfOk result (λ a. a.next_free ≡ next + words_of_all a.privates) }
        ensures found { IfOk result (λ a. a
            ≡ allotment_of next (map owner_of_linkage segments.now)) }
        ensures once { IfOk result (λ _. first_private_fault next
            (map owner_of_linkage segments.now) ≡ None) }
        ensures stop { IfErr result (IsStop
            (0 < length (all_allotted next (map owner_of_linkage segments.now)))
            (first_private_fault next (map owner_of_linkage segments.now))) }
    {
        Allotment::of_segments(alloc, next, segments)
    }

    /// The privates of these segments, for `build`.
    #[tactic(auto, using(crate::proofs::PrivatesRise::rise))]
    pub(crate) fn of_segments<S: RequestsPrivates>(
        alloc: A,
        next: u16,
        segments: &[S],
    ) -> Result<Self, Stop>
        requires { AscendFrom 0 (map (λ s. s.0.slot) (map S.owner segments.now)) }
        ensures found { IfOk result (λ a. a ≡ allotment_of next (map S.owner segments.now)) }
        ensures once { IfOk result (λ _. first_private_fault next (map S.owner segments.now)
            ≡ None) }
        ensures stop { IfErr result (IsStop
            (0 < length (all_allotted next (map S.owner segments.now)))
            (first_private_fault next (map S.owner segments.now))) }
    {
        let (privates, next_free) = allot_all(alloc, next, segments)?;
        Ok(Allotment {
            privates,
            words: next_free - next,
            next_free,
        })
    }

    /// The base offset in words, 0 to `MAX_NEXT_FREE`, of the private that a record requests: the
    /// record of index `rec`, from 0, of the segment in slot `slot`. `None` where that is no PRIVREF
    /// record.
    pub fn offset(&self, slot: u8, rec: usize) -> Option<u16>
        ensures { result ≡ offset_listed slot rec self.now.privates }
    {
        let privates = self.privates.as_slice();
        let first = privates.partition_point(|p| p.slot < slot || p.slot == slot && p.rec < rec);
        let private = privates.get(first)?;
        (private.slot == slot && private.rec == rec).then_some(private.offset)
    }

    /// All privates, by slot and then by record.
    pub fn privates(&self) -> &[Private]
        ensures { result.now ≡ self.now.privates }
    {
        self.privates.as_slice()
    }

    /// How many words all of them take, 0 to `MAX_NEXT_FREE`.
    pub fn words(&self) -> u16
        ensures { result ≡ self.now.words }
    {
        self.words
    }

    /// The base offset in words after the last of them: the first where there is none.
    /// Source: the published II.0 Linker source.
    pub fn next_free(&self) -> u16
        ensures range { self.now.next_free ≤ MAX_WORD }
        ensures value { result ≡ self.now.next_free }
    {
        self.next_free
    }
}
