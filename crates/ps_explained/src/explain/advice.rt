//! What a fault is in these files, and what to do about it: the sentences of the fault, or others
//! where the files say more.
use crate::cases::Case;
use crate::explain::routines::remedy_of_routine;
use crate::sentences::{OTHER_FORMAT, meaning_of, remedy_of};
use ps_check_segments::NamedFiles;
use ps_codefile::kinds::{FIRST_INTRINSIC, LAST_INTRINSIC, LINKED};
use ps_filetype::{
    CodeFile, FileType, Remedy, ShownName, ShownPath, has_procedure_dictionary, is_swapped,
};
use ps_warnings::dead_run;
use ps_words::{Name, Reason};
use std::fmt::{self, Display, Formatter};

/// What the fault is, and what to do about it, in two lines.
pub(super) fn write_advice<W: fmt::Write>(
    f: &mut Formatter<W>,
    case: &Case<'_, '_>,
) -> fmt::Result {
    let wrong = wrong_in(case);
    let remedy = remedy_in(case);
    writeln!(f, "  {wrong}\n  {remedy}")
}

/// What is wrong. Damaged code may be read as native code.
fn wrong_in(case: &Case<'_, '_>) -> &'static str {
    match case.fault.reason {
        _ if case.is_in_no_code_file() =>
            "The host is no code file of release II.0, so nothing is said of its segments.",
        Reason::MissingUnit if case.fault.rec.is_some() =>
            "No library has the unit that the UNITREF in this record requests.",
        Reason::MissingUnit => "No library has the unit that the slot wants.",
        Reason::NativeProcedure if dead_run(case.code()).is_some() =>
            "The code is damaged: a part of it was not read, or never written.",
        Reason::NativeProcedure if is_exchanged(case) =>
            "The bytes of the code are exchanged in pairs.",
        reason => meaning_of(reason.number()),
    }
}

/// The bytes of the code of the fault's segment are exchanged in pairs.
fn is_exchanged(case: &Case<'_, '_>) -> bool {
    match case.source() {
        Some(source) => is_swapped(source.order, case.code()),
        None => false,
    }
}

/// What to do. Its text is a line.
#[derive(Clone, Copy)]
enum Advice<'a> {
    /// Sentences, in which the path has the place of `the file`.
    Sentence { text: &'static str, path: &'a str },
    /// What to do with the file that is no code file.
    OfType(Remedy<'a>),
    /// The host is to be exchanged with a library.
    Exchange { host: &'a str, library: &'a str },
    /// The host is linked already, and a library is to be given in its place.
    LeaveOut { host: &'a str, library: &'a str },
    /// A library that has the unit is to be given.
    Library { name: Name, host: &'a str },
}

impl<'a> Advice<'a> {
    /// What to do with this file.
    fn of_file(inputs: &NamedFiles<'a>, file: usize) -> Self {
        Advice::of_type(inputs, file, inputs.file_type(file))
    }

    /// What to do with a file of this type.
    fn of_type(inputs: &NamedFiles<'a>, file: usize, file_type: FileType) -> Self {
        Advice::OfType(Remedy {
            file_type,
            path: inputs.path(file),
        })
    }
}

impl fmt::Display for Advice<'_> {
    fn fmt<W: fmt::Write>(&self, f: &mut Formatter<W>) -> fmt::Result {
        match *self {
            Advice::Sentence { text, path } => write_of_file(f, text, path),
            Advice::OfType(remedy) => remedy.fmt(f),
            Advice::Exchange { host, library } => {
                let host = ShownPath(host);
                let library = ShownPath(library);
                write!(
                    f,
                    "Exchange the two: give {library} as the host, and {host} after it."
                )
            }
            Advice::LeaveOut { host, library } => {
                let host = ShownPath(host);
                let library = ShownPath(library);
                write!(
                    f,
                    "Give {library} as the host, and leave {host} out: it is linked already."
                )
            }
            Advice::Library { name, host } => {
                let name = ShownName(name);
                let host = ShownPath(host);
                write!(f, "Give a library that has {name}, after {host}.")
            }
        }
    }
}

/// Writes sentences with the path in place of `the file`.
fn write_of_file<W: fmt::Write>(f: &mut Formatter<W>, text: &str, path: &str) -> fmt::Result {
    let path = ShownPath(path);
    let mut rest = text;
    if let Some(after) = text.strip_prefix("The file") {
        path.fmt(f)?;
        rest = after;
    }
    let mut parts = rest.split("the file");
    f.write_str(parts.next().unwrap_or(""))?;
    for part in parts {
        path.fmt(f)?;
        f.write_str(part)?;
    }
    Ok(())
}

/// What to do about the fault: first about a host that is no code file.
fn remedy_in<'a>(case: &Case<'_, 'a>) -> Advice<'a> {
    if case.fault.reason != Reason::NoHost && !case.inputs.file_type(0).is_code() {
        return Advice::of_file(case.inputs, 0);
    }
    if let Some(text) = remedy_of_routine(case) {
        let path = case.inputs.path(case.fault.file);
        return Advice::Sentence { text, path };
    }
    let text = match case.fault.reason {
        Reason::ShortFile | Reason::NoOrder | Reason::OrderMismatch | Reason::NoHost => {
            return remedy_of_file(case);
        }
        Reason::MissingUnit => return remedy_of_missing(case),
        Reason::NativeProcedure => return remedy_of_native(case),
        Reason::NotAUnit { kind: LINKED } => return remedy_of_linked(case),
        Reason::NotAUnit { kind } => remedy_of_kind(kind),
        Reason::OperandTooLarge if case.is_suspect || case.leads_past() =>
            "Copy the file again, as binary, or compile it again. If it is whole, make the host program's data before this variable smaller.",
        Reason::NativeRecord if case.is_suspect =>
            "Copy the file again, as binary, or compile it again. If it is whole, write the external procedure in Pascal, in a unit.",
        reason => remedy_of_format(case, reason),
    };
    let path = case.inputs.path(case.fault.file);
    Advice::Sentence { text, path }
}

/// What to do about a fault that damage makes, or another compiler: only of the compiler where a note
/// says how that may count references, and only of damage where there is another sign of it.
fn remedy_of_format(case: &Case<'_, '_>, reason: Reason) -> &'static str {
    let remedy = remedy_of(reason.number());
    match reason {
        Reason::OutsideCode | Reason::ReservedPlace | Reason::Overlap
            if case.is_counted_otherwise => {
            "The compiler of the file may count its references otherwise, as the note says. pslink links no such file."
        }
        _ if case.is_suspect => remedy.strip_suffix(OTHER_FORMAT).unwrap_or(remedy),
        _ => remedy,
    }
}

/// What to do about a procedure of native code, as damaged code may be read.
fn remedy_of_native<'a>(case: &Case<'_, 'a>) -> Advice<'a> {
    let path = case.inputs.path(case.fault.file);
    if dead_run(case.code()).is_some() {
        let text = remedy_of(Reason::Truncated.number());
        return Advice::Sentence { text, path };
    }
    if is_exchanged(case) {
        return Advice::of_type(case.inputs, case.fault.file, FileType::Swapped);
    }
    let text = if case.is_suspect {
        "Copy the file again, as binary, or compile it again. If it is whole, use the procedure as the compiler left it, in P-code."
    } else {
        remedy_of(Reason::NativeProcedure.number())
    };
    Advice::Sentence { text, path }
}

/// What to do about a linked segment in place of a unit: its file is linked, or damaged, where none of
/// its codes ends with a procedure dictionary.
fn remedy_of_linked<'a>(case: &Case<'_, 'a>) -> Advice<'a> {
    let (inputs, file) = (case.inputs, case.fault.file);
    if !has_procedure_dictionary(inputs.bytes(file)) {
        return Advice::of_type(inputs, file, FileType::Unknown);
    }
    Advice::Sentence {
        text: "The file is linked already: leave it out.",
        path: inputs.path(file),
    }
}

/// What to do about a segment of this kind that is no unit.
fn remedy_of_kind(kind: u16) -> &'static str {
    match kind {
        FIRST_INTRINSIC..=LAST_INTRINSIC =>
            "Compile it as a regular unit of II.0, or give the library of such a unit before the file.",
        _ => "Give the unit's library before the file, or remove that segment from the file.",
    }
}

/// What to do about a file that is no code file, or not the one that is needed.
fn remedy_of_file<'a>(case: &Case<'_, 'a>) -> Advice<'a> {
    let (inputs, file) = (case.inputs, case.fault.file);
    match case.fault.reason {
        Reason::NoHost => remedy_of_no_host(case),
        Reason::OrderMismatch if inputs.file_type(file).is_code() => Advice::Sentence {
            text: "Compile the file for the machine of the host.",
            path: inputs.path(file),
        },
        _ => Advice::of_file(inputs, file),
    }
}

/// What to do where the first file is no host: a library may be one.
fn remedy_of_no_host<'a>(case: &Case<'_, 'a>) -> Advice<'a> {
    let inputs = case.inputs;
    let is_linked = matches!(inputs.file_type(0), FileType::Code(CodeFile::Linked));
    if is_linked && !has_procedure_dictionary(inputs.host) {
        return Advice::of_type(inputs, 0, FileType::Unknown);
    }
    let Some(library) = case.host_among_libraries() else {
        return Advice::of_file(inputs, 0);
    };
    let (host, library) = (inputs.path(0), inputs.path(library));
    if is_linked {
        Advice::LeaveOut { host, library }
    } else {
        Advice::Exchange { host, library }
    }
}

/// What to do where a unit is missing: the first library that is no code file may have it.
fn remedy_of_missing<'a>(case: &Case<'_, 'a>) -> Advice<'a> {
    let inputs = case.inputs;
    for file in 1..=inputs.libs.len() {
        if !inputs.file_type(file).is_code() {
            return Advice::of_file(inputs, file);
        }
    }
    let host = inputs.path(0);
    match case.missing_unit() {
        Some(name) => Advice::Library { name, host },
        None => Advice::Sentence {
            text: "Give a library that has it, after the file.",
            path: host,
        },
    }
}
