//! What is found in files.
ghost use Rattle.std.specs.Prelude.{OnOk, map};
ghost use Rattle.std.specs.Option.{option_map};
ghost use Rattle.ps_warnings.specs.Searches.AllFindings.{findings_of_file};
ghost use Rattle.ps_warnings.specs.Searches.FileFindings.{findings_of_code_file, findings_of_entries};
ghost use Rattle.ps_warnings.specs.Found.{Adds, about_link};
ghost use Rattle.ps_check_segments.specs.Paths.{host_order, path_of, paths_in};
ghost use Rattle.ps_check_segments.specs.Seen.{seen};

use super::doubled::doubled_block;
use super::extents::{Extent, extents_of};
use super::{Context, Findings, entries, extents, in_file};
use crate::finding::FileFinding;
use ps_codefile::Dict;
use ps_codefile::dictionary_layout::SLOTS;
use ps_filetype::{FileType, LineEnds, is_code_type};
use ps_words::{Fault, Reason};
use std::alloc::{AllocError, Allocator};

/// The byte that CP/M pads files with.
const PAD: u8 = 0x1A;

/// The first byte that has bit 7.
const HIGH: u8 = 0x80;

/// How many line ends cannot be there by chance.
const MANY_LINES: usize = 32;

/// Looks at a file, and at its entries.
pub(super) fn look_at<'a, A: Allocator>(
    findings: &mut Findings<'a, A>,
    context: &Context<'_, 'a>,
    file: usize,
    bytes: &'a [u8],
) -> Result<(), AllocError>
    ensures { OnOk result (Adds (about_link findings.old)
        (findings_of_file (paths_in context.now.inputs.now) (option_map (λ h. h.now) context.now.host)
        (map seen context.now.list.now) (host_order context.now.inputs.now.host.now)
        (file, bytes.now))
        (about_link findings.new)) }
{
    if is_code_type(bytes) {
        return look_at_code_file(findings, context, file, bytes);
    }
    let found = type_finding(context, file, bytes);
    findings.add_unsure(in_file(context.inputs.path(file)), found)
}

/// What a file is that is no code file, where the fault's explanation does not say it.
fn type_finding(context: &Context<'_, '_>, file: usize, bytes: &[u8]) -> Option<FileFinding> {
    match context.fault {
        Some(fault) if is_explained(context, fault, file) => None,
        _ => {
            let file_type = FileType::of(bytes);
            Some(FileFinding::NoCodeFile { file_type })
        }
    }
}

/// The explanation of the fault says what the file is, which is no code file.
fn is_explained(context: &Context<'_, '_>, fault: Fault, file: usize) -> bool {
    match fault.reason {
        _ if fault.file == 0 && file == 0 => true,
        // (of each library, but not where nothing is said of the segments of the host)
        Reason::MissingUnit => file != 0 && (fault.file != 0 || is_code_type(context.inputs.host)),
        Reason::ShortFile | Reason::NoOrder | Reason::OrderMismatch | Reason::NativeProcedure =>
            fault.file == file,
        _ => false,
    }
}

fn look_at_code_file<'a, A: Allocator>(
    findings: &mut Findings<'a, A>,
    context: &Context<'_, 'a>,
    file: usize,
    bytes: &'a [u8],
) -> Result<(), AllocError>
    ensures { OnOk result (Adds (about_link findings.old)
        (findings_of_code_file (path_of (paths_in context.now.inputs.now) file)
        (option_map (λ h. h.now) context.now.host)
        (map seen context.now.list.now)
        (host_order context.now.inputs.now.host.now) bytes.now file)
        (about_link findings.new)) }
{
    let place = in_file(context.inputs.path(file));
    findings.add_unsure(place, padding_of(bytes))?;
    findings.add_unsure(place, seven_bits(context, file, bytes))?;
    match Dict::read_beside(bytes, context.inputs.order()) {
        Ok(dict) => look_at_dictionary(findings, context, file, bytes, &dict),
        Err(_) => findings.add_unsure(place, converted(bytes)),
    }
}

/// Looks at a code file whose dictionary can be read.
fn look_at_dictionary<'a, A: Allocator>(
    findings: &mut Findings<'a, A>,
    context: &Context<'_, 'a>,
    file: usize,
    bytes: &'a [u8],
    dict: &Dict<'a>,
) -> Result<(), AllocError>
    ensures { OnOk result (Adds (about_link findings.old)
        (findings_of_entries (path_of (paths_in context.now.inputs.now) file)
        (option_map (λ h. h.now) context.now.host)
        (map seen context.now.list.now)
        dict.now.order dict.now.file file)
        (about_link findings.new)) }
{
    let path = context.inputs.path(file);
    let place = in_file(path);
    let extents = extents_of(dict);
    findings.add_unsure(place, converted_in(bytes, dict, &extents))?;
    findings.add_unsure(place, doubled_block(bytes, &extents))?;
    entries::look_at(findings, context, file, dict)?;
    extents::look_at(findings, path, dict, &extents)
}

/// How the line ends of many lines were converted, if bytes look so.
fn converted(bytes: &[u8]) -> Option<FileFinding> {
    let line_ends = LineEnds::of(bytes)?;
    let end = match line_ends {
        LineEnds::Pairs | LineEnds::Feeds => b'\n',
        LineEnds::Returns => b'\r',
    };
    let mut lines = 0usize;
    for byte in bytes {
        lines = lines.saturating_add(usize::from(*byte == end));
    }
    (MANY_LINES <= lines).then_some(FileFinding::Converted { line_ends })
}

/// A unit has the text of its interface in the file.
fn has_text(dict: &Dict<'_>) -> bool {
    for slot in 0..SLOTS {
        if dict.filled(slot) && dict.entry(slot).text != 0 {
            return true;
        }
    }
    false
}

/// How the line ends of a file were converted, if its bytes look so. The lines of such a text end
/// with 0D alone: beside one, the code and the link information of each entry are looked at.
fn converted_in(bytes: &[u8], dict: &Dict<'_>, extents: &[Extent]) -> Option<FileFinding> {
    if !has_text(dict) {
        return converted(bytes);
    }
    for extent in extents {
        let part = bytes.get(extent.start..extent.end.min(bytes.len()));
        if let Some(found) = converted(part.unwrap_or(&[])) {
            return Some(found);
        }
    }
    None
}

/// A file without a byte above 7F that is refused for its procedure dictionary: bit 7 of its bytes may
/// have been lost.
fn seven_bits(context: &Context<'_, '_>, file: usize, bytes: &[u8]) -> Option<FileFinding> {
    match context.fault {
        Some(fault) if fault.reason == Reason::BadProcDict && fault.file == file => {
            let is_high = bytes.iter().any(|byte| HIGH <= *byte);
            (!is_high).then_some(FileFinding::SevenBits)
        }
        _ => None,
    }
}

/// The bytes 1A that a file ends with, if there is more than one.
fn padding_of(bytes: &[u8]) -> Option<FileFinding> {
    let mut padding = 0usize;
    for byte in bytes.iter().rev() {
        if *byte != PAD {
            break;
        }
        padding = padding.saturating_add(1);
    }
    (2 <= padding).then_some(FileFinding::Padded { bytes: padding })
}
