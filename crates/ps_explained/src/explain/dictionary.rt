//! What faults of dictionaries say.
use crate::cases::Case;
use crate::orders::ByteOrder;
use ps_codefile::Dict;
use ps_codefile::dictionary_layout::SLOTS;
use ps_codefile::kinds::{
    FIRST_INTRINSIC, HOSTSEG, LAST_INTRINSIC, LINKED, SEGPROC, SEPRTSEG, UNITSEG,
};
use ps_filetype::{CodeFile, FileType, ShownName, ShownPath, has_procedure_dictionary, is_near};
use ps_words::Name;
use std::fmt::{self, Display, Formatter, Write};

/// A report says what units libraries have, of so many of them at most.
const MOST_LIBRARIES: usize = 16;

/// The length of the file, and what it is.
pub(super) fn write_length<W: Write>(f: &mut Formatter<W>, case: &Case<'_, '_>) -> fmt::Result {
    let length = case.inputs.bytes(case.fault.file).len();
    let file_type = case.inputs.file_type(case.fault.file);
    writeln!(f, "  it has {length} bytes, and is {file_type}")
}

/// The byte order of the file, or what it is, and the byte order of the host.
pub(super) fn write_orders<W: Write>(f: &mut Formatter<W>, case: &Case<'_, '_>) -> fmt::Result {
    let order = ByteOrder::of(case.inputs.bytes(case.fault.file));
    if case.fault.file == 0 {
        return writeln!(f, "  it is {order}");
    }
    let host = ByteOrder::of(case.inputs.host);
    writeln!(f, "  it is {order}; the host is {host}")
}

/// What the host is, and the first library that has a host program.
pub(super) fn write_host<W: Write>(f: &mut Formatter<W>, case: &Case<'_, '_>) -> fmt::Result {
    write_no_host(f, case)?;
    match case.host_among_libraries() {
        Some(file) => {
            let path = ShownPath(case.inputs.path(file));
            writeln!(f, "  {path} has a host program")
        }
        None => Ok(()),
    }
}

/// What a file is that is no host.
fn write_no_host<W: Write>(f: &mut Formatter<W>, case: &Case<'_, '_>) -> fmt::Result {
    match case.inputs.file_type(0) {
        FileType::Code(CodeFile::Linked) if !has_procedure_dictionary(case.inputs.host) =>
            f.write_str(
                "  its kinds are all 0, and none of its codes ends with a procedure dictionary\n",
            ),
        FileType::Code(CodeFile::Linked) => f.write_str("  all of its segments are linked\n"),
        FileType::Code(_) => f.write_str("  it has units, and no host program\n"),
        file_type => writeln!(f, "  it is {file_type}"),
    }
}

/// The earlier slot that has a host program, or a unit of the name.
pub(super) fn write_earlier<W: Write>(f: &mut Formatter<W>, case: &Case<'_, '_>) -> fmt::Result {
    let Some((slot, name)) = case.earlier_entry() else {
        return Ok(());
    };
    writeln!(f, "  the earlier one is slot {slot:02}, {name}")
}

/// The kind of the slot.
pub(super) fn write_kind<W: Write>(f: &mut Formatter<W>, case: &Case<'_, '_>) -> fmt::Result {
    match case.entry() {
        Some(entry) => writeln!(f, "  its kind is {}", entry.kind),
        None => Ok(()),
    }
}

/// What each library has in place of the unit that is missing.
pub(super) fn write_libraries<W: Write>(f: &mut Formatter<W>, case: &Case<'_, '_>) -> fmt::Result {
    let Some(name) = case.missing_unit() else {
        return Ok(());
    };
    let count = case.inputs.libs.len();
    for file in 1..=count.min(MOST_LIBRARIES) {
        write_units(f, case, file, &name)?;
    }
    match count.checked_sub(MOST_LIBRARIES) {
        None if count == 0 => f.write_str("  no library is given\n"),
        None | Some(0) => Ok(()),
        Some(1) => f.write_str("  there is 1 more library\n"),
        Some(more) => writeln!(f, "  there are {more} more libraries"),
    }
}

/// The units of a library, or what it is where it is no code file.
fn write_units<W: Write>(
    f: &mut Formatter<W>,
    case: &Case<'_, '_>,
    file: usize,
    wanted: &Name,
) -> fmt::Result {
    let path = ShownPath(case.inputs.path(file));
    let file_type = case.inputs.file_type(file);
    match case.inputs.dict(file) {
        Some(dict) if file_type.is_code() => {
            write!(f, "  {path} has ")?;
            write_names(f, &dict, wanted)
        }
        _ => writeln!(f, "  {path} is {file_type}"),
    }
}

/// The names of the units of a library.
fn write_names<W: Write>(f: &mut Formatter<W>, dict: &Dict<'_>, wanted: &Name) -> fmt::Result {
    let mut before = "";
    for slot in 0..SLOTS {
        let entry = dict.entry(slot);
        if dict.filled(slot) && entry.kind == UNITSEG {
            f.write_str(before)?;
            write_name(f, &entry.name, wanted)?;
            before = ", ";
        }
    }
    f.write_str(if before.is_empty() { "no unit\n" } else { "\n" })
}

/// The name of a unit, and that it is nearly the name that is wanted.
fn write_name<W: Write>(f: &mut Formatter<W>, name: &Name, wanted: &Name) -> fmt::Result {
    let shown = ShownName(*name);
    if !is_near(name, wanted) {
        return shown.fmt(f);
    }
    let other = ShownName(*wanted);
    write!(
        f,
        "{shown} (which differs from {other} in small letters, high bits or padding alone)"
    )
}

/// The entries of the unit's name in the library that was chosen.
pub(super) fn write_entries<W: Write>(f: &mut Formatter<W>, case: &Case<'_, '_>) -> fmt::Result {
    let Some(segment) = case.segment else {
        return Ok(());
    };
    let Some(dict) = case.inputs.dict(case.fault.file) else {
        return Ok(());
    };
    let name = segment.name;
    for slot in 0..SLOTS {
        let entry = dict.entry(slot);
        if dict.filled(slot) && entry.name == name {
            let kind = entry.kind;
            let word = kind_word(kind);
            writeln!(f, "  entry {slot:02} has the name, of kind {kind}: {word}")?;
        }
    }
    Ok(())
}

/// What a segment of this kind is.
fn kind_word(kind: u16) -> &'static str {
    match kind {
        LINKED => "a linked segment",
        HOSTSEG => "a host program",
        SEGPROC => "a segment procedure",
        UNITSEG => "a unit",
        SEPRTSEG => "a separate segment",
        FIRST_INTRINSIC..=LAST_INTRINSIC => "an intrinsic unit of Apple Pascal, or its data",
        _ => "no kind of II.0",
    }
}
