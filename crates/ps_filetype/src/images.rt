//! Images of disks.
ghost use Rattle.std.specs.Prelude.{◌≡◌};
ghost use Rattle.ps_filetype.specs.TypeWords.{image_words};

use ps_codefile::dictionary_layout::{NAMES, PAIR, SLOTS};
use ps_words::{NAME_LEN, Name, Order, get};

/// Where the directory of a volume is, in block 2, and where its duplicate, in block 6.
const DIRECTORY: usize = 1024;

const DUPLICATE: usize = 3072;

/// Where these blocks begin in an image that has the sectors in the order of DOS 3.3.
const DOS_DIRECTORY: usize = 2816;

const DOS_DUPLICATE: usize = 768;

/// Where block 2 begins in an image that has the sectors in the order of CP/M, or as they lie on the
/// disk.
const CPM_DIRECTORY: usize = 2048;

/// Where the second half of block 2 is in such an image.
const DOS_REST: usize = 2560;

/// How many bytes a sector has.
const HALF: usize = 256;

/// Where a directory has the block after its last, which one with a duplicate says is this, and the
/// number of its files; how long the entry of
/// a file is, and where that has its kind; and how many entries are in the first half of the first
/// block, but for the last word of the last.
const LAST_BLOCK: usize = 2;

const DUPLICATE_END: u16 = 10;

const FILE_COUNT: usize = 16;

const ENTRY_LEN: usize = 26;

const FILE_KIND: usize = 4;

const FIRST_FILES: u16 = 8;

/// The kind of a code file.
const CODE_FILE: u16 = 2;

/// The lengths of an image of 16 sectors of 256 bytes, of 35 tracks and of 40.
const DOS_LENGTH: usize = 143_360;

const LONG_LENGTH: usize = 163_840;

/// The length of an image of 35 tracks as they are on the disk.
const NIBBLES_LENGTH: usize = 232_960;

/// The lengths of the headers of two forms of images.
const TWO_IMG: usize = 64;

const DISK_COPY: usize = 84;

/// Where the name of a volume begins in its directory.
const VOLUME_NAME: usize = 6;

/// The form of the image of a disk.
///
/// Source: Apple II disk images as emulators keep them; DiskCopy 4.2 of Apple; ImageDisk of D. Dunfield.
#[derive(Clone, Copy)]
pub enum Image {
    /// The blocks of the image follow one another.
    Blocks,
    /// The sectors of the image stand in the order of DOS 3.3.
    DosOrder,
    /// The sectors of the image stand in the order of CP/M, or as they lie on the disk.
    CpmOrder,
    /// The sectors of the image stand in another order than these and that of its blocks.
    OtherOrder,
    /// The blocks are behind the header of the form 2IMG.
    TwoImg,
    /// The sectors are behind that header, in the order of DOS 3.3.
    TwoImgDosOrder,
    /// The blocks are behind the header of DiskCopy 4.2.
    DiskCopy,
    /// The bytes of the image are those that are on the disk.
    Nibbles,
    /// The image has the form of ImageDisk.
    ImageDisk,
}

impl Image {
    /// What a file of this form is.
    pub(crate) fn phrase(self) -> &'static str
        ensures { result.now ≡ image_words self }
    {
        match self {
            Image::Blocks => "a disk image",
            Image::DosOrder => "a disk image with its sectors in the order of DOS 3.3",
            Image::CpmOrder =>
                "a disk image with its sectors in the order of CP/M, or as they lie on the disk",
            Image::OtherOrder => "a disk image with its sectors in another order than its blocks",
            Image::TwoImgDosOrder =>
                "a disk image with its sectors in the order of DOS 3.3 behind a header of the form 2IMG",
            Image::TwoImg => "a disk image behind a header of the form 2IMG",
            Image::DiskCopy => "a disk image behind a header of DiskCopy 4.2",
            Image::Nibbles => "a disk image of nibbles",
            Image::ImageDisk => "a disk image of the form IMD",
        }
    }
}

/// The form of the image that a file is, and the name of its volume, if it has one of a p-System.
pub(crate) fn image_of(bytes: &[u8]) -> Option<(Image, Option<Name>)> {
    if let Some(name) = volume_in(bytes) {
        return Some((Image::Blocks, Some(name)));
    }
    if bytes.starts_with(b"2IMG") {
        return Some(two_img_of(bytes));
    }
    if bytes.len() == NIBBLES_LENGTH {
        // (what begins the address of a sector is among the first bytes of a track)
        let track = bytes.get(..512).unwrap_or(bytes);
        if track
            .windows(3)
            .any(|three| matches!(three, [0xD5, 0xAA, 0x96]))
        {
            return Some((Image::Nibbles, None));
        }
    }
    if let Some(name) = volume_in(behind(bytes, DISK_COPY)) {
        return Some((Image::DiskCopy, Some(name)));
    }
    if matches!(bytes.len(), DOS_LENGTH | LONG_LENGTH) {
        return in_sectors(bytes);
    }
    None
}

/// What a disk without a header is whose sectors are not in the order of its blocks. A duplicate whose
/// directory is lost is looked for in the order of DOS 3.3 alone: that of CP/M has its first half in
/// the same place.
fn in_sectors(bytes: &[u8]) -> Option<(Image, Option<Name>)> {
    if let Some(name) = volume_at(bytes, DOS_DIRECTORY) {
        let image = if is_in_dos_order(bytes, 0) {
            Image::DosOrder
        } else {
            Image::OtherOrder
        };
        return Some((image, Some(name)));
    }
    if let Some(name) = volume_at(bytes, CPM_DIRECTORY) {
        return Some((Image::CpmOrder, Some(name)));
    }
    let name = duplicate_at(bytes, DOS_DUPLICATE)?;
    Some((Image::DosOrder, Some(name)))
}

/// What an image behind the header of the form 2IMG is: its blocks, or its sectors, follow it. Behind
/// them may be a comment. Sectors are looked for where there are no more than 35 tracks.
fn two_img_of(bytes: &[u8]) -> (Image, Option<Name>) {
    let in_dos_order = volume_at(bytes, TWO_IMG + DOS_DIRECTORY);
    let is_short = bytes.len() < TWO_IMG + LONG_LENGTH;
    match volume_in(behind(bytes, TWO_IMG)) {
        None if is_short && in_dos_order.is_some() && is_in_dos_order(bytes, TWO_IMG) => {
            (Image::TwoImgDosOrder, in_dos_order)
        }
        name => (Image::TwoImg, name.or(in_dos_order)),
    }
}

/// The sectors of an image from a place on are in the order of DOS 3.3: a code file that its directory
/// names begins where it does in that order; without any, the directory goes on where it does. Another
/// order of sectors may have the first half of the directory in the same place.
fn is_in_dos_order(bytes: &[u8], start: usize) -> bool {
    let image = bytes.get(start..).unwrap_or(&[]);
    let directory = image.get(DOS_DIRECTORY..).unwrap_or(&[]);
    let order = order_of(directory);
    let files = word_in(order, directory, FILE_COUNT);
    let mut told = None;
    for file in 1..=FIRST_FILES {
        let entry = directory
            .get(ENTRY_LEN * usize::from(file)..)
            .unwrap_or(&[]);
        let block = word_in(order, entry, 0);
        let is_code = word_in(order, entry, FILE_KIND) % 16 == CODE_FILE;
        if file <= files && is_code && !is_shared(block) && told != Some(true) {
            told = Some(is_dictionary(first_half(image, block)));
        }
    }
    match told {
        Some(is_found) => is_found,
        None => goes_on(order, image, files),
    }
}

/// The word at a place of bytes; 0 where they end before it.
fn word_in(order: Order, bytes: &[u8], place: usize) -> u16 {
    match bytes.get(place..) {
        Some(rest) if 2 <= rest.len() => get(order, rest, 0),
        _ => 0,
    }
}

/// Another order of sectors has the first half of the block in the same place.
fn is_shared(block: u16) -> bool {
    matches!(block % 8, 0 | 2)
}

/// The first half of a block of an image in the order of DOS 3.3. A track has eight blocks; its first
/// sector is where it was, and of the others up to the last but one the order is reversed.
fn first_half(image: &[u8], block: u16) -> &[u8] {
    let half = 2 * usize::from(block % 8);
    let sector = if half == 0 { 0 } else { 15 - half };
    let place = 16 * HALF * usize::from(block / 8) + HALF * sector;
    image.get(place..).unwrap_or(&[]).get(..HALF).unwrap_or(&[])
}

/// The slot of the first half of a segment dictionary has a length, and a name in letters.
fn has_segment(half: &[u8], slot: u8) -> bool {
    let slot = usize::from(slot);
    let length = half.get(PAIR * slot + 2..PAIR * slot + 4).unwrap_or(&[]);
    let name = half.get(NAMES + NAME_LEN * slot..).unwrap_or(&[]);
    let name = name.get(..NAME_LEN).unwrap_or(&[]);
    length.iter().any(|byte| *byte != 0)
        && matches!(name, [first, ..] if first.is_ascii_alphanumeric())
        && name
            .iter()
            .all(|byte| *byte == b' ' || byte.is_ascii_graphic())
}

/// The bytes are the first half of a segment dictionary: a slot has a segment.
fn is_dictionary(half: &[u8]) -> bool {
    (0..SLOTS).any(|slot| has_segment(half, slot))
}

/// The directory goes on in the second half of its first block, as it is in the order of DOS 3.3: with
/// the entries of its files, or with zeros.
fn goes_on(order: Order, image: &[u8], files: u16) -> bool {
    let Some(half) = image.get(DOS_REST..DOS_REST + HALF) else {
        return false;
    };
    if files <= FIRST_FILES {
        return half.iter().all(|byte| *byte == 0);
    }
    // (the last file of the first half has its last word here, and then the next file begins)
    let used = word_in(order, half, 0);
    let (first, next) = (word_in(order, half, 4), word_in(order, half, 6));
    (1..=512).contains(&used) && (files == FIRST_FILES + 1 || first < next)
}

/// The order of the words of a directory, by its second word, which is 6 or 10.
fn order_of(directory: &[u8]) -> Order {
    match directory.get(LAST_BLOCK) {
        Some(0) => Order::Big,
        _ => Order::Little,
    }
}

/// The word at a place of a directory, in either order.
fn is_word(directory: &[u8], place: usize, value: u16) -> bool {
    match directory.get(place..) {
        Some(rest) if 2 <= rest.len() => {
            get(Order::Little, rest, 0) == value || get(Order::Big, rest, 0) == value
        }
        _ => false,
    }
}

/// The name of the volume whose directory begins at this place of a file: it begins in block 0 and
/// ends before block 6 or 10.
fn volume_at(bytes: &[u8], place: usize) -> Option<Name> {
    let directory = bytes.get(place..)?;
    let is_directory = is_word(directory, 0, 0)
        && (is_word(directory, 2, 6) || is_word(directory, 2, 10))
        && is_word(directory, 4, 0);
    let length = usize::from(directory.get(VOLUME_NAME).copied()?);
    if !is_directory || !(1..=7).contains(&length) {
        return None;
    }
    let mut name = [b' '; 8];
    let text = directory.get(VOLUME_NAME + 1..)?;
    for (to, from) in name.iter_mut().take(length).zip(text) {
        if !from.is_ascii_graphic() {
            return None;
        }
        *to = *from;
    }
    Some(name)
}

/// The name in the duplicate of a directory at this place of a file. It says that there is one.
fn duplicate_at(bytes: &[u8], place: usize) -> Option<Name> {
    if is_word(bytes.get(place..)?, LAST_BLOCK, DUPLICATE_END) {
        volume_at(bytes, place)
    } else {
        None
    }
}

/// The name of the volume of these blocks: that in its directory, or in the duplicate where the directory
/// is lost.
fn volume_in(blocks: &[u8]) -> Option<Name> {
    match volume_at(blocks, DIRECTORY) {
        Some(name) => Some(name),
        None => duplicate_at(blocks, DUPLICATE),
    }
}

/// The bytes behind a header.
fn behind(bytes: &[u8], header: usize) -> &[u8] {
    bytes.get(header..).unwrap_or(&[])
}
