//! The errors of arguments that clap accepts and the program does not, and those with a tip, in the form
//! of clap's.
use crate::command_line::{CommandName, command, command_named};
use crate::tips::Tip;
use crate::usage::UsageError;
use clap::Command;
use clap::error::ErrorKind;
use std::alloc::{AllocError, Global};

/// The error of arguments that leave out a command or a file of one, which `clap` does not accept.
pub(crate) fn missing_argument(heap: Global) -> UsageError {
    usage_error(
        command(heap),
        ErrorKind::MissingSubcommand,
        "a command and its files have to be named",
    )
}

/// The error of a link of which no file to write is named.
pub(crate) fn missing_out(heap: Global) -> UsageError {
    usage_error(
        command_named(heap, CommandName::Link),
        ErrorKind::MissingRequiredArgument,
        "the following required arguments were not provided:\n  <OUT>",
    )
}

/// The error of a check of units that is to be strict: no list has a warning.
pub(crate) fn strict_units(heap: Global) -> UsageError {
    usage_error(
        command_named(heap, CommandName::Check),
        ErrorKind::ArgumentConflict,
        "the argument '--strict' cannot be used with '--unit'",
    )
}

/// The error of a link that is to write to its map what it stores, and has none.
pub(crate) fn references_alone(heap: Global) -> UsageError {
    usage_error(
        command_named(heap, CommandName::Link),
        ErrorKind::MissingRequiredArgument,
        "the following required arguments were not provided:\n  --map <FILE>",
    )
}

/// The error of arguments that name the file of the map as another file of the link too.
pub(crate) fn written_by_map(heap: Global, file: &str, other: &str) -> UsageError {
    match written_by_map_text(heap, file, other) {
        Ok(text) => usage_error(
            command_named(heap, CommandName::Link),
            ErrorKind::ValueValidation,
            text.as_str(),
        ),
        Err(error) => UsageError::from(error),
    }
}

fn written_by_map_text(heap: Global, file: &str, other: &str) -> Result<String, AllocError> {
    if file == other {
        return format!(in heap;
            "invalid value '{file}' for '--map <FILE>': it is named as another file too"
        );
    }
    format!(in heap; "invalid value '{file}' for '--map <FILE>': it is the file '{other}'")
}

/// The error of arguments that name the file to write as a library too, at this path or another.
pub(crate) fn written_library(heap: Global, out: &str, library: &str) -> UsageError {
    match written_library_text(heap, out, library) {
        Ok(text) => usage_error(
            command_named(heap, CommandName::Link),
            ErrorKind::ValueValidation,
            text.as_str(),
        ),
        Err(error) => UsageError::from(error),
    }
}

fn written_library_text(heap: Global, out: &str, library: &str) -> Result<String, AllocError> {
    if out == library {
        return format!(in heap; "invalid value '{out}' for '<OUT>': it is named as a library too");
    }
    format!(in heap; "invalid value '{out}' for '<OUT>': it is the library '{library}'")
}

/// The error of arguments whose option names the host as the file to write, at this path or another.
pub(crate) fn written_host(heap: Global, out: &str, host: &str) -> UsageError {
    match written_host_text(heap, out, host) {
        Ok(text) => usage_error(
            command_named(heap, CommandName::Link),
            ErrorKind::ValueValidation,
            text.as_str(),
        ),
        Err(error) => UsageError::from(error),
    }
}

fn written_host_text(heap: Global, out: &str, host: &str) -> Result<String, AllocError> {
    if out == host {
        return format!(in heap;
            "invalid value '{out}' for '--output <OUT>': it is named as HOST too"
        );
    }
    format!(in heap; "invalid value '{out}' for '--output <OUT>': it is the host '{host}'")
}

/// The error of arguments that clap refuses for a word, with a tip.
pub(crate) fn tipped(heap: Global, kind: ErrorKind, tip: Tip, word: &str) -> UsageError {
    match tip.message(heap, word) {
        Ok(text) => usage_error(command_named(heap, tip.command()), kind, text.as_str()),
        Err(error) => UsageError::from(error),
    }
}

/// The error of this kind, with the usage of a command, if there was memory for the command.
fn usage_error(made: Result<Command<'_>, AllocError>, kind: ErrorKind, text: &str) -> UsageError {
    match made {
        Ok(mut command) => error_with_usage(&mut command, kind, text),
        Err(error) => UsageError::from(error),
    }
}

/// The error of this kind, with the usage of this command.
fn error_with_usage(command: &mut Command<'_>, kind: ErrorKind, text: &str) -> UsageError {
    match command.error(kind, text) {
        Ok(error) => UsageError::from(error),
        Err(error) => UsageError::from(error),
    }
}
