//! Texts that are given in place of a code file.
ghost use Rattle.std.specs.Prelude.{◌≡◌, IfSome, false};
ghost use Rattle.ps_filetype.specs.TypeWords.{is_code};

use crate::bytes::only_byte;
use crate::file_type::FileType;
use ps_words::BLOCK_SIZE;

/// How many bytes of a text are looked at.
const SAMPLE: usize = 512;

/// What the editor of a p-System keeps before a text.
const EDITOR: usize = 1024;

/// What begins an indented line of a p-System text.
const INDENT: u8 = 0x10;

/// The byte is one of a text.
fn is_text(byte: u8) -> bool {
    matches!(byte, b'\t' | b'\n' | b'\r' | 0x0C | 0x1A | b' '..=b'~' | 0x80..=0xFF)
}

/// How many bytes above 7F a text may have, of each four.
const FOREIGN: usize = 3;

/// Each second byte of a text in UTF-16 is 0, and the others are those of a text.
fn is_wide(sample: &[u8], zeros: usize) -> bool {
    let mut has_text = false;
    for (place, byte) in sample.iter().enumerate() {
        let is_zero = place % 2 == zeros;
        if (*byte == 0) != is_zero || !is_zero && !is_text(*byte) {
            return false;
        }
        has_text = has_text || byte.is_ascii_alphanumeric();
    }
    has_text
}

/// The text is in UTF-16: it has its mark, or each second byte is 0.
fn is_utf_16(sample: &[u8]) -> bool {
    match sample {
        [0xFF, 0xFE, rest @ ..] => is_wide(rest, 1),
        [0xFE, 0xFF, rest @ ..] => is_wide(rest, 0),
        _ => is_wide(sample, 0) || is_wide(sample, 1),
    }
}

/// How many characters the first line of a file in base64 or of hexadecimal digits has at least.
const ENCODED: usize = 16;

/// How many zeros a hexadecimal dump begins with at least: the place of its first byte.
const ZEROS: usize = 6;

/// The character is one of base64, as are all hexadecimal digits.
fn is_base64(byte: u8) -> bool {
    byte.is_ascii_alphanumeric() || matches!(byte, b'+' | b'/' | b'=')
}

/// The bytes from the first on that is another one than these.
fn after_all(bytes: &[u8], byte: u8) -> &[u8] {
    match bytes.iter().position(|other| *other != byte) {
        Some(place) => bytes.get(place..).unwrap_or(&[]),
        None => &[],
    }
}

/// The line begins as the first one of a hexadecimal dump: with zeros, a colon or none, blanks, and
/// digits of a byte.
fn is_dump(line: &[u8]) -> bool {
    let after = after_all(line, b'0');
    let zeros = line.len().saturating_sub(after.len());
    let words = after.strip_prefix(b":").unwrap_or(after);
    let is_apart = matches!(words, [b' ', ..]);
    let digits = matches!(
        after_all(words, b' '),
        [high, low, ..] if high.is_ascii_hexdigit() && low.is_ascii_hexdigit()
    );
    ZEROS <= zeros && is_apart && digits
}

/// The first line is that of a file that was turned into a text: by uuencode, BinHex, in base64, as
/// hexadecimal digits, as records of them, or as a dump.
fn is_encoded(line: &[u8]) -> bool {
    let digits = line.strip_prefix(b":").unwrap_or(line);
    line.starts_with(b"begin ")
        || line.starts_with(b"begin-base64 ")
        || line.starts_with(b"(This file must be converted with BinHex")
        || is_dump(line)
        || ENCODED <= digits.len() && digits.iter().all(|byte| is_base64(*byte))
}

/// The first line of a text, without its end.
fn first_line(sample: &[u8]) -> &[u8] {
    match sample.iter().position(|byte| matches!(byte, b'\r' | b'\n')) {
        Some(end) => sample.get(..end).unwrap_or(sample),
        None => sample,
    }
}

/// The kind of text of a file that is one. Most bytes of a text are ASCII.
pub(crate) fn text_type(bytes: &[u8]) -> Option<FileType>
    ensures { IfSome result (λ t. is_code t ≡ false) }
{
    let sample = bytes.get(..SAMPLE).unwrap_or(bytes);
    let foreign = sample.iter().filter(|byte| !byte.is_ascii()).count();
    if is_utf_16(sample) {
        Some(FileType::WideText)
    } else if sample.is_empty() || sample.len() / 4 * FOREIGN < foreign {
        None
    } else if !sample.iter().all(|byte| is_text(*byte)) {
        None
    } else if is_encoded(first_line(sample)) {
        Some(FileType::Encoded)
    } else {
        Some(FileType::Text)
    }
}

/// What the editor keeps before a text: its first word says if there is anything, and all of it is in
/// the first block.
fn is_editors(head: &[u8]) -> bool {
    let is_flag = matches!(head, [0 | 1, 0, ..] | [0, 1, ..]);
    is_flag && only_byte(head.get(BLOCK_SIZE..).unwrap_or(&[])) == Some(0)
}

/// The file has the two blocks of an editor and then lines of a p-System text.
///
/// Source: the text files of UCSD Pascal II.0.
pub(crate) fn is_system_text(bytes: &[u8]) -> bool {
    let Some((head, rest)) = bytes.split_at_checked(EDITOR) else {
        return false;
    };
    is_editors(head) && are_lines(rest.get(..SAMPLE).unwrap_or(rest))
}

/// The bytes are lines of a p-System text, and one ends among them.
fn are_lines(sample: &[u8]) -> bool {
    let (mut has_end, mut last) = (false, 0u8);
    for byte in sample {
        let is_indent = *byte == INDENT || last == INDENT;
        if !is_indent && *byte != 0 && !(is_text(*byte) && *byte < 0x80 && *byte != b'\n') {
            return false;
        }
        has_end = has_end || *byte == b'\r';
        last = *byte;
    }
    has_end
}
