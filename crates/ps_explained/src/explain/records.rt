//! What faults of link information say.
use crate::cases::Case;
use crate::record_head::RecordHead;
use ps_filetype::ShownName;
use ps_words::Reason;
use std::fmt::{self, Formatter, Write};

/// The kind and the name of a record that cannot be read, or the number of a type that II.0 does not
/// have, or how many bytes are left for it.
pub(super) fn write_unread<W: Write>(
    f: &mut Formatter<W>,
    case: &Case<'_, '_>,
    rec: usize,
) -> fmt::Result {
    let Some((order, rest)) = case.unread() else {
        return writeln!(f, "  record {rec}");
    };
    let left = rest.len();
    let Some(head) = RecordHead::first_in(order, rest) else {
        return writeln!(
            f,
            "  record {rec}: {left} bytes of the file are left for it"
        );
    };
    write!(f, "  record {rec}: ")?;
    write_kind(f, &head)?;
    match case.fault.reason {
        Reason::NativeRecord | Reason::SeparateRecord => write_format(f, &head),
        _ => {
            let format = head.format;
            writeln!(
                f,
                ", and its word A is {format}; {left} bytes of the file are left for it"
            )
        }
    }
}

/// The kind and the name of a record, or its type, where II.0 does not have that.
fn write_kind<W: Write>(f: &mut Formatter<W>, head: &RecordHead) -> fmt::Result {
    match head.kind_word() {
        Some(kind) => {
            let name = ShownName(head.name);
            write!(f, "{kind} {name}")
        }
        None => {
            let record_type = head.record_type;
            write!(f, "type {record_type}")
        }
    }
}

/// The format, where it is for that alone that pslink does not link the record; and the end of the
/// line.
fn write_format<W: Write>(f: &mut Formatter<W>, head: &RecordHead) -> fmt::Result {
    if head.is_of_linked_type() {
        let format = head.format;
        return writeln!(f, ", of format {format}");
    }
    f.write_str("\n")
}

/// The earlier record of the name.
pub(super) fn write_earlier<W: Write>(f: &mut Formatter<W>, case: &Case<'_, '_>) -> fmt::Result {
    let Some((rec, record)) = case.earlier_record() else {
        return Ok(());
    };
    let kind = record.body.kind().word();
    let name = ShownName(record.name);
    writeln!(f, "  the earlier one is record {rec}: {kind} {name}")
}
