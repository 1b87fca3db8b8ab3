//! Code files of later releases of the p-System.
ghost use Rattle.std.specs.Prelude.{◌≡◌, ◌<◌, ◌≤◌, is_some, length};
ghost use Rattle.std.specs.List.{list_all, list_any};
ghost use Rattle.ps_codefile.specs.Dictionary.{name_at, slots};
ghost use Rattle.ps_filetype.specs.CodeFiles.{is_letter};
ghost use Rattle.ps_filetype.specs.CodeTypes.{has_version as has_version_spec, has_versions as has_versions_spec, information as information_spec, is_four as is_four_spec, is_later, is_later_in, is_of_version as is_of_version_spec, is_used as is_used_spec};

use crate::code_file::are_letters;
use ps_codefile::dictionary_layout::{PAIR, SLOTS};
use ps_words::{BLOCK_SIZE, NAME_LEN, Order, WORD_LEN, get};

/// Where the names of the segments begin, in all releases.
const NAMES: usize = 64;

/// Where the words begin that have the version of a segment: SEGINFO, in all releases.
const SEGMENT_INFORMATION: usize = 256;

/// Where the last word of the dictionary is. In release IV.0 it is 1, in the order of the file.
const BYTE_SEX: usize = BLOCK_SIZE - 2;

/// The version of a segment of release III.0, and the first after it.
const VERSION_III: u16 = 3;

const VERSION_IV: u16 = 4;

/// The last version that a segment may have.
const LAST_VERSION: u16 = 7;

/// A version begins at bit 13 of its word, and the number is the low byte.
const VERSION: u16 = 8192;

const NUMBER: u16 = 256;

/// A release whose code files are not those of II.0.
///
/// Source: the segment dictionaries of UCSD Pascal III.0 and IV.0.
#[derive(Clone, Copy)]
pub enum Release {
    /// Release III.0, by the version of its segments alone: another compiler may write it too.
    Three,
    /// Release IV.0, or one after it.
    Four,
}

/// The later release whose dictionary a file begins with.
#[tactic(auto, unfolding(crate::specs::CodeTypes::is_later))]
pub(crate) fn later_release(bytes: &[u8]) -> Option<Release>
    ensures { is_some result ≡ is_later bytes.now }
{
    if bytes.len() < BLOCK_SIZE {
        return None;
    }
    let block = &bytes[..BLOCK_SIZE];
    release_in(Order::Little, block).or(release_in(Order::Big, block))
}

/// The later release whose dictionary the block is, with words in this order.
fn release_in(order: Order, block: &[u8]) -> Option<Release>
    requires { 512 ≤ length block.now }
    ensures { is_some result ≡ is_later_in order block.now }
{
    if is_four(order, block) {
        Some(Release::Four)
    } else if has_versions(order, block, VERSION_III, VERSION_III) {
        Some(Release::Three)
    } else {
        None
    }
}

/// The block is the dictionary of release IV.0, or of one after it.
fn is_four(order: Order, block: &[u8]) -> bool
    requires { 512 ≤ length block.now }
    ensures { result ≡ is_four_spec order block.now }
{
    get(order, block, BYTE_SEX) == 1 && has_versions(order, block, VERSION_IV, LAST_VERSION)
}

/// The slot has a segment: neither its address nor its length is 0.
fn is_used(order: Order, block: &[u8], slot: u8) -> bool
    requires in_range { slot < SLOTS }
    requires whole { 512 ≤ length block.now }
    ensures { result ≡ is_used_spec order block.now slot }
{
    let at = PAIR * usize::from(slot);
    get(order, block, at) != 0 && get(order, block, at + WORD_LEN) != 0
}

/// The version and the number of a slot.
fn information(order: Order, block: &[u8], slot: u8) -> u16
    requires in_range { slot < SLOTS }
    requires whole { 512 ≤ length block.now }
    ensures { result ≡ information_spec order block.now slot }
{
    get(
        order,
        block,
        SEGMENT_INFORMATION + WORD_LEN * usize::from(slot),
    )
}

/// The name of a slot is one that a person can read.
fn has_name(block: &[u8], slot: u8) -> bool
    requires in_range { slot < SLOTS }
    requires whole { 512 ≤ length block.now }
    ensures { result ≡ list_all is_letter (name_at block.now slot) }
{
    let at = NAMES + NAME_LEN * usize::from(slot);
    are_letters(&block[at..at + NAME_LEN])
}

/// The word has a version from `first` to `last`, and a number.
fn has_version(first: u16, last: u16, word: u16) -> bool
    ensures { result ≡ has_version_spec first last word }
{
    first <= word / VERSION && word / VERSION <= last && word % NUMBER != 0
}

/// The slot has a segment with a name, a number and a version from `first` to `last`, or none of
/// these.
fn is_of_version(order: Order, block: &[u8], first: u16, last: u16, slot: u8) -> bool
    requires in_range { slot < SLOTS }
    requires whole { 512 ≤ length block.now }
    ensures { result ≡ is_of_version_spec order block.now first last slot }
{
    let word = information(order, block, slot);
    if is_used(order, block, slot) {
        has_version(first, last, word) && has_name(block, slot)
    } else {
        word == 0
    }
}

/// Each slot is of a version from `first` to `last`.
fn are_of_version(order: Order, block: &[u8], first: u16, last: u16) -> bool
    requires { 512 ≤ length block.now }
    ensures { result ≡ list_all (is_of_version_spec order block.now first last) slots }
{
    (0..SLOTS).all(|slot| is_of_version(order, block, first, last, slot))
}

/// Some slot has a segment.
fn has_segment(order: Order, block: &[u8]) -> bool
    requires { 512 ≤ length block.now }
    ensures { result ≡ list_any (is_used_spec order block.now) slots }
{
    (0..SLOTS).any(|slot| is_used(order, block, slot))
}

/// Each segment has a name, a number and a version from `first` to `last`, each other slot has
/// neither, and there is a segment.
fn has_versions(order: Order, block: &[u8], first: u16, last: u16) -> bool
    requires { 512 ≤ length block.now }
    ensures { result ≡ has_versions_spec order block.now first last }
{
    are_of_version(order, block, first, last) && has_segment(order, block)
}
