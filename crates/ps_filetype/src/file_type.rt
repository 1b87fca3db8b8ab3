//! What a file is.
ghost use Rattle.std.specs.Prelude.{◌≡◌, Some, false, is_some};
ghost use Rattle.ps_filetype.specs.CodeTypes.{is_code_type};
ghost use Rattle.ps_filetype.specs.TypeWords.{IsTypeOf, is_code as is_code_spec, plain_words, type_words, volume_words};

use crate::bytes::{is_one_byte, only_byte};
use crate::code_file::{CodeFile, code_file_of, is_swapped_file};
use crate::images::{Image, image_of};
use crate::line_ends::LineEnds;
use crate::name::ShownName;
use crate::release::{Release, later_release};
use crate::signatures::{behind_header, by_first_bytes};
use crate::texts::{is_system_text, text_type};
use ps_words::Name;
use std::fmt::{self, Formatter};

/// What a file is, as far as a few of its bytes say. Its text is a phrase, as `a gzip file`.
#[derive(Clone, Copy)]
pub enum FileType {
    /// A code file.
    Code(CodeFile),
    /// A code file whose bytes are exchanged in pairs.
    Swapped,
    /// A code file with a header of MacBinary before it.
    MacBinary,
    /// A code file with so many other bytes before it.
    Header { bytes: usize },
    Gzip,
    Bzip2,
    Xz,
    Zlib,
    Zip,
    /// A program of this machine.
    Elf,
    AppleSingle,
    AppleDouble,
    /// A code file of a release that is not supported.
    Later(Release),
    /// The image of a disk, and the name of its volume, if that is one of a p-System.
    Disk { image: Image, name: Option<Name> },
    /// A text of a p-System.
    SystemText,
    Text,
    /// A text that a file was turned into, as a hexadecimal dump.
    Encoded,
    /// A text in UTF-16.
    WideText,
    /// A file without a byte.
    Empty,
    /// A file that is one byte throughout.
    OneByte { byte: u8 },
    /// A file whose line ends were converted, so that its dictionary can't be read.
    Converted(LineEnds),
    Unknown,
}

/// What a code file as it ought to be is for; none where the file is no such file.
#[tactic(auto, unfolding(crate::specs::CodeTypes::is_code_type))]
fn code_type_of(bytes: &[u8]) -> Option<CodeFile>
    ensures { is_some result ≡ is_code_type bytes.now }
{
    if is_one_byte(bytes) || later_release(bytes).is_some() {
        return None;
    }
    if is_swapped_file(bytes) {
        return None;
    }
    code_file_of(bytes)
}

/// What a file is whose first block looks like the dictionary of a later release: small letters before
/// a code file look so too.
fn later_type(release: Release, bytes: &[u8]) -> FileType
    ensures { is_code_spec result ≡ false }
{
    match behind_header(bytes) {
        Some(file_type) => file_type,
        None => FileType::Later(release),
    }
}

/// What a file is that is no code file as it ought to be.
fn other_type(bytes: &[u8]) -> FileType
    ensures { is_code_spec result ≡ false }
{
    if bytes.is_empty() {
        return FileType::Empty;
    }
    if let Some(byte) = only_byte(bytes) {
        return FileType::OneByte { byte };
    }
    if let Some(release) = later_release(bytes) {
        return later_type(release, bytes);
    }
    if code_file_of(bytes).is_some() {
        return FileType::Swapped;
    }
    if let Some(file_type) = by_first_bytes(bytes) {
        return file_type;
    }
    if let Some((image, name)) = image_of(bytes) {
        return FileType::Disk { image, name };
    }
    if let Some(file_type) = behind_header(bytes) {
        return file_type;
    }
    if let Some(file_type) = text_type(bytes) {
        return file_type;
    }
    match LineEnds::of(bytes) {
        _ if is_system_text(bytes) => FileType::SystemText,
        Some(line_ends) => FileType::Converted(line_ends),
        None => FileType::Unknown,
    }
}

impl FileType {
    /// What the file with these bytes is.
    pub fn of(bytes: &[u8]) -> FileType
        ensures { IsTypeOf bytes.now result }
    {
        match code_type_of(bytes) {
            Some(code_file) => FileType::Code(code_file),
            None => other_type(bytes),
        }
    }

    /// The file is a code file as it ought to be.
    pub fn is_code(&self) -> bool
        ensures { result ≡ is_code_spec self.now }
    {
        matches!(self, FileType::Code(_))
    }

    /// The phrase of a type that has no part.
    fn phrase(&self) -> &'static str
        ensures { result.now ≡ plain_words self.now }
    {
        match self {
            FileType::Swapped => "a code file whose bytes are exchanged in pairs",
            FileType::MacBinary => "a code file behind the 128 bytes of a MacBinary header",
            FileType::Gzip => "a gzip file",
            FileType::Bzip2 => "a bzip2 file",
            FileType::Xz => "an xz file",
            FileType::Zlib => "a file of zlib data",
            FileType::Zip => "a zip file",
            FileType::Elf => "an ELF file, of another system",
            FileType::AppleSingle => "an AppleSingle file",
            FileType::AppleDouble => "an AppleDouble file, which has no byte of the code file",
            FileType::Later(Release::Three) => {
                "a code file of segments of version 3, which is not supported"
            }
            FileType::Later(Release::Four) => "a code file of release IV.0, which is not supported",
            FileType::SystemText => "a text of a p-System",
            FileType::Text => "a text",
            FileType::Encoded => "a text that a file was turned into, as a hexadecimal dump",
            FileType::WideText => "a text in UTF-16",
            FileType::Empty => "an empty file",
            FileType::Code(_)
            | FileType::Header { .. }
            | FileType::Disk { .. }
            | FileType::OneByte { .. }
            | FileType::Converted(_)
            | FileType::Unknown => "no code file of a known form",
        }
    }
}

/// The name of the volume of a disk image, where it has one.
#[derive(Clone, Copy)]
struct Volume(Option<Name>);

impl fmt::Display for Volume {
    ghost output = { λ volume. Some (volume_words volume.0) };

    fn fmt<W: fmt::Write>(&self, f: &mut Formatter<W>) -> fmt::Result {
        match self.0 {
            Some(name) => {
                let name = ShownName(name);
                write!(f, ", of the volume {name}")
            }
            None => f.write_str(""),
        }
    }
}

impl fmt::Display for FileType {
    ghost output = { λ file_type. Some (type_words file_type) };

    #[tactic(auto, using(std::proofs::lemmas::Fmt::hex_byte))]
    fn fmt<W: fmt::Write>(&self, f: &mut Formatter<W>) -> fmt::Result {
        match *self {
            FileType::Code(code_file) => f.write_str(code_file.word()),
            FileType::Header { bytes } => {
                write!(f, "a code file behind a header of {bytes} bytes")
            }
            FileType::Disk { image, name } => {
                let (form, volume) = (image.phrase(), Volume(name));
                write!(f, "{form}{volume}")
            }
            FileType::OneByte { byte } => write!(f, "a file of the byte {byte:02X} alone"),
            FileType::Converted(line_ends) => {
                write!(f, "a file whose line ends were converted: {line_ends}")
            }
            _ => f.write_str(self.phrase()),
        }
    }
}
