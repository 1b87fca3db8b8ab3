//! The way from a file to the code file.
use crate::code_file::CodeFile;
use crate::file_type::FileType;
use crate::images::Image;
use crate::path::{ShownPath, has_hidden};
use crate::shell::{Command, Steps};
use std::fmt::{self, Formatter};

/// What to do with a file of this type so that a code file is given. Its text is one sentence, or
/// two. A command in it has the path as a shell reads it, and writes the path with `.whole` behind it. It
/// stands between parentheses, so that the shell that it is typed in goes on as it was, and begins with
/// `set -C`, by which a shell writes no file that is there.
#[derive(Clone, Copy)]
pub struct Remedy<'a> {
    pub file_type: FileType,
    pub path: &'a str,
}

impl Remedy<'_> {
    /// What to do by a command, if one does it.
    fn steps(&self) -> Option<Steps> {
        match self.file_type {
            FileType::Swapped => Some(Steps {
                before: "Exchange the bytes again: (set -C; dd conv=swab if=",
                between: " > ",
                after: "). Then give ",
                end: ".",
            }),
            FileType::MacBinary | FileType::Header { bytes: 128 } => Some(Steps {
                before: "Remove the header: (set -C; tail -c +129 ",
                between: " > ",
                after: "). Then give ",
                end: ".",
            }),
            FileType::Header { .. } => Some(Steps {
                before: "Remove the header: (set -C; tail -c +513 ",
                between: " > ",
                after: "). Then give ",
                end: ".",
            }),
            FileType::Gzip => Some(Steps {
                before: "Unpack it: (set -C; gzip -dc < ",
                between: " > ",
                after: "). Then give ",
                end: ".",
            }),
            FileType::Bzip2 => Some(Steps {
                before: "Unpack it: (set -C; bzip2 -dc < ",
                between: " > ",
                after: "). Then give ",
                end: ".",
            }),
            FileType::Xz => Some(Steps {
                before: "Unpack it: (set -C; xz -dc < ",
                between: " > ",
                after: "). Then give ",
                end: ".",
            }),
            FileType::Disk {
                image: Image::TwoImgDosOrder,
                ..
            } => Some(Steps {
                before: "Remove the header, and what is behind the sectors: (set -C; dd bs=64 skip=1 count=2240 if=",
                between: " > ",
                after: "). Then take the code file off the volume in ",
                end: ", as binary, and give that.",
            }),
            FileType::Disk {
                image: Image::TwoImg,
                ..
            } => Some(Steps {
                before: "Remove the header: (set -C; tail -c +65 ",
                between: " > ",
                after: "). Then take the code file off the volume in ",
                end: ", as binary, and give that.",
            }),
            FileType::Disk {
                image: Image::DiskCopy,
                ..
            } => Some(Steps {
                before: "Remove the header: (set -C; tail -c +85 ",
                between: " > ",
                after: "). Then take the code file off the volume in ",
                end: ", as binary, and give that.",
            }),
            _ => None,
        }
    }

    /// What to do, with `PATH` in place of the path.
    fn sentence(&self) -> &'static str {
        match self.file_type {
            FileType::Code(CodeFile::Linked) =>
                "Give the unlinked host in place of PATH, the file that the compiler made.",
            FileType::Code(CodeFile::Host) => "Give PATH as the host.",
            FileType::Code(CodeFile::Library | CodeFile::Mixed) =>
                "Give the compiled program as the host, and PATH after it, as a library.",
            FileType::Swapped
            | FileType::MacBinary
            | FileType::Header { .. }
            | FileType::Gzip
            | FileType::Bzip2
            | FileType::Xz =>
                "Give PATH another name, one that a shell can be given, and check it again.",
            FileType::Zlib =>
                "Unpack PATH by a program that reads zlib data, as zlib-flate of qpdf does, and give what it makes.",
            FileType::Zip =>
                "Unpack PATH by unzip, and give the code file that is in it. Of several files in it, pslink list says what each is.",
            FileType::AppleSingle =>
                "Take the data fork out of PATH, and give that: it is the code file.",
            FileType::AppleDouble =>
                "Give the file beside PATH that has the same name without ._ before it.",
            FileType::Later(_) =>
                "Compile the program of PATH by a compiler of release II.0, and give the code file that it makes.",
            FileType::Disk {
                image: Image::CpmOrder | Image::OtherOrder | Image::Nibbles | Image::ImageDisk,
                ..
            } =>
                "Make an image of PATH that has its blocks in order. Then take the code file off the volume in that, as binary, and give it.",
            FileType::Disk { .. } =>
                "Take the code file off the volume in PATH, as binary, and give that.",
            FileType::Encoded =>
                "Turn PATH back into the file of which it was made, as binary, and give that.",
            FileType::SystemText | FileType::Text | FileType::WideText =>
                "Give the code file that the compiler made of PATH, or of its program.",
            FileType::Elf => "Give a code file of a p-System in place of PATH.",
            FileType::Empty | FileType::OneByte { .. } =>
                "Copy PATH again: nothing of the code file is in it.",
            FileType::Converted(_) =>
                "Copy PATH again, as binary, so that no line end is converted.",
            FileType::Unknown =>
                "Copy PATH again, as binary, or compile it again. Damage is in DAMAGED FILES of pslink(1).",
        }
    }

    /// Writes the sentence with the path.
    fn write_sentence<W: fmt::Write>(&self, f: &mut Formatter<W>) -> fmt::Result {
        let sentence = self.sentence();
        let path = ShownPath(self.path);
        match sentence.split_once("PATH") {
            Some((before, after)) => write!(f, "{before}{path}{after}"),
            None => f.write_str(sentence),
        }
    }
}

impl fmt::Display for Remedy<'_> {
    fn fmt<W: fmt::Write>(&self, f: &mut Formatter<W>) -> fmt::Result {
        let path = self.path;
        match self.steps() {
            Some(steps) if !has_hidden(path) => {
                let command = Command { steps, path };
                write!(f, "{command}")
            }
            _ => self.write_sentence(f),
        }
    }
}
