//! What is said of a reference, and of an operand that may not be where it is.
use crate::cases::Case;
use ps_filetype::ShownName;
use std::fmt::{self, Formatter, Write};

/// Bytes as they are, in two hexadecimal digits each.
#[derive(Clone, Copy)]
struct Bytes<'b>(&'b [u8]);

impl fmt::Display for Bytes<'_> {
    fn fmt<W: Write>(&self, f: &mut Formatter<W>) -> fmt::Result {
        if self.0.is_empty() {
            return f.write_str(" none");
        }
        for byte in self.0 {
            write!(f, " {byte:02X}")?;
        }
        Ok(())
    }
}

/// The reference with the bytes that are there.
pub(super) fn write_reference<W: Write>(f: &mut Formatter<W>, case: &Case<'_, '_>) -> fmt::Result {
    let Some(reference) = case.fault.reference else {
        return Ok(());
    };
    let Some(operand) = case.operand() else {
        return writeln!(f, "  reference {reference}");
    };
    let place = operand.place;
    let bytes = Bytes(case.bytes_of(operand));
    writeln!(
        f,
        "  reference {reference}: byte {place} of the code, where these bytes stand:{bytes}"
    )
}

/// The displacement and the value that together are too large.
pub(super) fn write_sum<W: Write>(f: &mut Formatter<W>, case: &Case<'_, '_>) -> fmt::Result {
    let Some(operand) = case.operand() else {
        return Ok(());
    };
    let Some(record) = case.record() else {
        return Ok(());
    };
    let displacement = case.displacement_of(operand);
    let value = case.value_of(&record);
    writeln!(
        f,
        "  its displacement is {displacement}, and the value {value}"
    )
}

/// How long the code is, or which table has the operand's bytes.
pub(super) fn write_place<W: Write>(f: &mut Formatter<W>, case: &Case<'_, '_>) -> fmt::Result {
    let Some(operand) = case.operand() else {
        return Ok(());
    };
    let length = case.code().len();
    if length < usize::from(operand.place) + usize::from(operand.width) {
        return writeln!(f, "  the code has {length} bytes");
    }
    match case.table_with(operand) {
        Some(procedure) => writeln!(f, "  it lies in the table of procedure {procedure}"),
        None => f.write_str("  it lies in the procedure dictionary\n"),
    }
}

/// The earlier reference that covers a byte of this one.
pub(super) fn write_covered<W: Write>(f: &mut Formatter<W>, case: &Case<'_, '_>) -> fmt::Result {
    let Some((earlier, record)) = case.earlier_reference() else {
        return Ok(());
    };
    let (rec, reference) = (earlier.at.rec, earlier.reference);
    let name = ShownName(record.name);
    writeln!(
        f,
        "  the earlier one is reference {reference} of record {rec}, {name}"
    )
}
