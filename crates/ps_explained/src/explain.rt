//! A refusal in words: the file, the segment, the record and the reference by their names, what the
//! number says of them, and what to do.
mod advice;
mod code;
mod definitions;
mod dictionary;
mod privates;
mod records;
mod references;
mod routines;

use crate::cases::Case;
use ps_filetype::{ShownName, ShownPath};
use ps_words::Reason;
use std::fmt::{self, Formatter, Write};

/// A refusal in words. Its text is lines, each with its end.
#[derive(Clone, Copy)]
pub struct Explanation<'c, 'a>(
    /// The fault, and the files that are refused for it.
    pub Case<'c, 'a>,
);

impl fmt::Display for Explanation<'_, '_> {
    fn fmt<W: Write>(&self, f: &mut Formatter<W>) -> fmt::Result {
        let case = &self.0;
        write_file(f, case)?;
        write_parts(f, case)?;
        advice::write_advice(f, case)
    }
}

/// The file.
fn write_file<W: Write>(f: &mut Formatter<W>, case: &Case<'_, '_>) -> fmt::Result {
    let path = ShownPath(case.inputs.path(case.fault.file));
    writeln!(f, "  file {path}")
}

/// The slot, the record and the reference by their names, and what the number says of them; or what the
/// file is, where nothing is said of its segments.
fn write_parts<W: Write>(f: &mut Formatter<W>, case: &Case<'_, '_>) -> fmt::Result {
    if case.is_in_no_code_file() {
        let file_type = case.inputs.file_type(0);
        return writeln!(f, "  it is {file_type}");
    }
    write_slot(f, case)?;
    write_record(f, case)?;
    references::write_reference(f, case)?;
    write_details(f, case)
}

/// The slot with the name of its segment.
fn write_slot<W: Write>(f: &mut Formatter<W>, case: &Case<'_, '_>) -> fmt::Result {
    let Some(slot) = case.fault.slot else {
        return Ok(());
    };
    let Some(name) = case.name() else {
        return writeln!(f, "  slot {slot:02} of the host");
    };
    let name = ShownName(name);
    writeln!(f, "  segment {name}, of slot {slot:02} of the host")
}

/// The record with its kind and its name, or what is there where it cannot be read.
fn write_record<W: Write>(f: &mut Formatter<W>, case: &Case<'_, '_>) -> fmt::Result {
    let Some(rec) = case.fault.rec else {
        return Ok(());
    };
    let Some(record) = case.record() else {
        return records::write_unread(f, case, rec);
    };
    let kind = record.body.kind().word();
    let name = ShownName(record.name);
    writeln!(f, "  record {rec}: {kind} {name}")
}

/// What the number says of this place.
fn write_details<W: Write>(f: &mut Formatter<W>, case: &Case<'_, '_>) -> fmt::Result {
    match case.fault.reason {
        Reason::ShortFile => dictionary::write_length(f, case),
        Reason::NoOrder | Reason::OrderMismatch => dictionary::write_orders(f, case),
        Reason::NoHost => dictionary::write_host(f, case),
        Reason::TwoHosts | Reason::DoubledSegment => dictionary::write_earlier(f, case),
        Reason::UnknownKind | Reason::Intrinsic => dictionary::write_kind(f, case),
        Reason::MissingUnit => dictionary::write_libraries(f, case),
        Reason::NotAUnit { .. } | Reason::DoubledUnit => dictionary::write_entries(f, case),
        Reason::BadLength | Reason::BadAddress | Reason::Truncated => code::write_extent(f, case),
        Reason::BadProcDict | Reason::NativeProcedure => code::write_procedure(f, case),
        Reason::DoubledDefinition | Reason::DoubledPrivate => records::write_earlier(f, case),
        Reason::NoRoom | Reason::DataTooLarge => privates::write_words(f, case),
        Reason::MissingDefinition | Reason::IllKind => definitions::write_defined(f, case),
        Reason::OutsideCode | Reason::ReservedPlace => references::write_place(f, case),
        Reason::Overlap => references::write_covered(f, case),
        Reason::OperandTooLarge => references::write_sum(f, case),
        _ => Ok(()),
    }
}
