//! Entries that overlap in their file.
ghost use Rattle.std.specs.Prelude.{◌≡◌, ◌<◌, ◌^◌, OnOk, map, nat_lt};
ghost use Rattle.std.specs.List.{flat_map};
ghost use Rattle.ps_codefile.specs.Dictionary.{entry_at, slots};
ghost use Rattle.ps_linkinfo.specs.Records.{reading, used_by};
ghost use Rattle.ps_warnings.specs.Searches.EntryFindings.{overlap, shares as shares_spec};
ghost use Rattle.ps_warnings.specs.Searches.FileFindings.{extent_at as extent_at_spec, extent_of_kind as extent_of_kind_spec, overlap_finding};
ghost use Rattle.ps_warnings.specs.SegmentSizes.{information_end as information_end_spec};
ghost use Rattle.ps_warnings.specs.Found.{Adds, about_link};

use super::{Findings, in_segment};
use crate::finding::{EntryFinding, Finding};
use ps_check_segments::length_of;
use ps_codefile::Dict;
use ps_codefile::dictionary_layout::{SLOT_COUNT, SLOTS};
use ps_codefile::kinds::{HOSTSEG, LINKED, UNITSEG};
use ps_linkinfo::LinkInformation;
use ps_words::{BLOCK_SIZE, Order, blocks_of};
use std::alloc::{AllocError, Allocator};

/// The bytes of a file that an entry has, from `start` on and before `end`.
#[derive(Clone, Copy)]
pub(super) struct Extent {
    slot: u8,
    pub(super) start: usize,
    pub(super) end: usize,
}

impl Extent {
    /// No bytes.
    const EMPTY: Extent = Extent {
        slot: 0,
        start: 0,
        end: 0,
    };
}

/// How many bytes the records take that bytes begin with, up to the first that cannot be read.
fn information_len(order: Order, bytes: &[u8]) -> usize
    ensures used { result ≡ used_by (reading order bytes.now).0 }
    ensures fits { result < 2 ^ 63 }
{
    let records = LinkInformation::up_to_fault(order, bytes);
    length_of(&records)
}

/// Where the link information of an entry ends, up to the first record that cannot be read.
fn information_end(dict: &Dict<'_>, slot: u8) -> usize
    requires { slot < SLOTS }
    ensures { result ≡ information_end_spec dict.now.order dict.now.file
        (entry_at dict.now.order dict.now.file slot) }
{
    let entry = dict.entry(slot);
    let blocks = usize::from(entry.address) + blocks_of(usize::from(entry.length));
    let start = BLOCK_SIZE * blocks;
    let length = information_len(dict.order(), dict.after(slot));
    start.saturating_add(length)
}

/// The bytes that an entry of this kind has: its code, and the link information after it if that is
/// read.
fn extent_of_kind(dict: &Dict<'_>, slot: u8) -> Extent
    requires { slot < SLOTS }
    ensures { result ≡ extent_of_kind_spec dict.now.order dict.now.file slot
        (entry_at dict.now.order dict.now.file slot) }
{
    let entry = dict.entry(slot);
    let start = BLOCK_SIZE * usize::from(entry.address);
    if entry.kind == LINKED {
        let end = start + usize::from(entry.length);
        return Extent { slot, start, end };
    }
    if entry.kind == HOSTSEG || entry.kind == UNITSEG {
        let end = information_end(dict, slot);
        return Extent { slot, start, end };
    }
    Extent::EMPTY
}

/// The bytes that an entry has; none where it is not filled or has no code.
#[tactic(auto, unfolding(crate::specs::Searches::FileFindings::extent_at))]
fn extent_at(dict: &Dict<'_>, slot: u8) -> Extent
    requires { slot < SLOTS }
    ensures { result ≡ extent_at_spec dict.now.order dict.now.file slot }
{
    if dict.filled(slot) && dict.is_in_file(slot) {
        extent_of_kind(dict, slot)
    } else {
        Extent::EMPTY
    }
}

/// What each entry has of its file, by slot; no bytes where it has none.
pub(super) fn extents_of(dict: &Dict<'_>) -> [Extent; SLOT_COUNT]
    ensures { result ≡ map (extent_at_spec dict.now.order dict.now.file) slots }
{
    let mut extents = [Extent::EMPTY; SLOT_COUNT];
    for slot in 0..SLOTS {
        extents[slot as usize] = extent_at(dict, slot);
    }
    extents
}

/// Looks whether entries have bytes in common.
pub(super) fn look_at<'a, A: Allocator>(
    findings: &mut Findings<'a, A>,
    path: &'a str,
    dict: &Dict<'_>,
    extents: &[Extent],
) -> Result<(), AllocError>
    ensures { OnOk result (Adds (about_link findings.old)
        (flat_map (overlap_finding path.now dict.now.order dict.now.file extents.now) extents.now)
        (about_link findings.new)) }
{
    for extent in extents {
        look_at_extent(findings, path, dict, extents, *extent)?;
    }
    Ok(())
}

/// Looks whether an entry has bytes in common with an earlier one.
#[tactic(auto, unfolding(crate::specs::Searches::FileFindings::overlap_finding))]
fn look_at_extent<'a, A: Allocator>(
    findings: &mut Findings<'a, A>,
    path: &'a str,
    dict: &Dict<'_>,
    extents: &[Extent],
    extent: Extent,
) -> Result<(), AllocError>
    ensures { OnOk result (Adds (about_link findings.old)
        (overlap_finding path.now dict.now.order dict.now.file extents.now extent)
        (about_link findings.new)) }
{
    if is_slot(extent.slot) {
        let entry = dict.entry(extent.slot);
        let place = in_segment(path, entry.name);
        let found = first_shared_extent(extents, extent);
        return findings.add(place, found);
    }
    Ok(())
}

/// A dictionary has a slot of this number.
fn is_slot(slot: u8) -> bool
    ensures { result ≡ nat_lt slot SLOTS }
{
    slot < SLOTS
}

/// The bytes of an earlier slot are also some of this slot's.
fn shares(extent: Extent, other: Extent) -> bool
    ensures { result ≡ shares_spec extent other }
{
    other.slot < extent.slot && other.start < extent.end && extent.start < other.end
}

/// The first of these extents, of those of earlier slots, that has bytes in common with another one.
fn first_shared_extent(extents: &[Extent], extent: Extent) -> Option<Finding>
    ensures { result ≡ overlap extents.now extent }
{
    for other in extents {
        if shares(extent, *other) {
            return Some(Finding::Entry(EntryFinding::Overlap { other: other.slot }));
        }
    }
    None
}
