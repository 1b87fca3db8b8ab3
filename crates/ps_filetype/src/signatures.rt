//! Files that are known by the bytes at a certain place.
ghost use Rattle.std.specs.Prelude.{◌≡◌, IfSome, false};
ghost use Rattle.ps_filetype.specs.TypeWords.{is_code};

use crate::code_file::has_procedures;
use crate::file_type::FileType;
use crate::images::Image;
use ps_words::BLOCK_SIZE;

/// The length of the header of MacBinary; that of other programs is a block.
const MACBINARY: usize = 128;

/// What a file begins with that is no code file.
pub(crate) fn by_first_bytes(bytes: &[u8]) -> Option<FileType>
    ensures { IfSome result (λ t. is_code t ≡ false) }
{
    match bytes {
        [0x1F, 0x8B, 8, ..] => Some(FileType::Gzip),
        [b'P', b'K', 3, 4, ..] | [b'P', b'K', 5, 6, ..] => Some(FileType::Zip),
        [b'B', b'Z', b'h', b'1'..=b'9', ..] => Some(FileType::Bzip2),
        [0xFD, b'7', b'z', b'X', b'Z', 0, ..] => Some(FileType::Xz),
        // (a text may begin with the fourth that there is: `x^`)
        [0x78, 0x01 | 0x9C | 0xDA, ..] => Some(FileType::Zlib),
        [b'I', b'M', b'D', b' ', ..] => Some(FileType::Disk {
            image: Image::ImageDisk,
            name: None,
        }),
        [0x7F, b'E', b'L', b'F', ..] => Some(FileType::Elf),
        [0, 5, 0x16, 0, ..] => Some(FileType::AppleSingle),
        [0, 5, 0x16, 7, ..] => Some(FileType::AppleDouble),
        _ => None,
    }
}

/// A code file behind a header, whose codes have their procedure dictionaries.
pub(crate) fn behind_header(bytes: &[u8]) -> Option<FileType>
    ensures { IfSome result (λ t. is_code t ≡ false) }
{
    for header in [MACBINARY, BLOCK_SIZE] {
        if has_procedures(bytes.get(header..)?) {
            return Some(match bytes {
                [0, 1..=63, ..] if header == MACBINARY => FileType::MacBinary,
                _ => FileType::Header { bytes: header },
            });
        }
    }
    None
}
