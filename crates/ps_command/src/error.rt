//! Why a command ends without having been done: a type for each step says what can happen there, and
//! `CommandError` what is reported of it, with the status that the process ends with.
ghost use Rattle.std.specs.Prelude.{◌≡◌, ◌≢◌};
ghost use Rattle.ps_command.specs.declared.error.CommandError.TheVariants as told;
ghost use Rattle.ps_command.specs.declared.error.FileError.TheVariants as file;
ghost use Rattle.ps_command.specs.declared.error.RunError.TheVariants as run;
ghost use Rattle.ps_arguments.specs.declared.usage.UsageError.TheVariants as usage;
ghost use Rattle.ps_command.specs.Causes.{cause_of, told_of, told_of_file, told_of_usage, told_with_cause as told_with_cause_spec};
ghost use Rattle.ps_command.specs.Statuses.{status_of};

use ps_arguments::{UsageError, UsageText, WrongArgument};
use ps_filetype::ShownPath;
use ps_writing::WriteFault;
use std::alloc::{AllocError, AllocFailed};
use std::fmt::{self, Formatter};
use std::io::{self, Write};
use thiserror::Error;

/// Why a file cannot be read, as far as the system says.
#[derive(Clone, Copy)]
pub(crate) enum Cause {
    Missing,
    Folder,
    Forbidden,
    /// The name is not UTF-8, and stands with a zero byte at its end, which no path has.
    NotText,
    /// Memory for its bytes, or for what is said of it, was refused.
    Memory,
    Other,
}

impl Cause {
    /// The cause that is of this kind of the system's errors: a path below a file names no file.
    pub(crate) fn of(kind: io::ErrorKind) -> Cause
        ensures { result ≡ cause_of kind }
    {
        match kind {
            io::ErrorKind::NotFound | io::ErrorKind::NotADirectory => Cause::Missing,
            io::ErrorKind::IsADirectory => Cause::Folder,
            io::ErrorKind::PermissionDenied => Cause::Forbidden,
            io::ErrorKind::InvalidInput => Cause::NotText,
            _ => Cause::Other,
        }
    }
}

impl fmt::Display for Cause {
    fn fmt<W: fmt::Write>(&self, f: &mut Formatter<W>) -> fmt::Result {
        f.write_str(match self {
            Cause::Missing => "no such file",
            Cause::Folder => "a folder",
            Cause::Forbidden => "no permission",
            Cause::NotText => "its name is not UTF-8",
            Cause::Memory => "out of memory",
            Cause::Other => "the system gives another reason",
        })
    }
}

/// Why the files of a command are not read.
#[derive(Clone, Copy)]
pub(crate) enum FileError<'a> {
    Read { path: &'a str, cause: Cause },
    TooLong { path: &'a str },
    Memory,
}

impl<T: Drop> From<AllocFailed<T>> for FileError<'_> {
    ghost from_gives = { λ _ e. e ≡ file.Memory };

    fn from(_error: AllocFailed<T>) -> Self {
        FileError::Memory
    }
}

impl<'a> FileError<'a> {
    /// What is reported where no cause is named.
    fn told(self) -> CommandError<'a>
        ensures error { result ≡ told_of_file self.entry }
        ensures right { status_of result ≢ 2 }
    {
        match self {
            FileError::Read { path, .. } => CommandError::Read { path },
            FileError::TooLong { path } => CommandError::TooLong { path },
            FileError::Memory => CommandError::Memory,
        }
    }

    /// What is reported where the cause is named.
    fn told_with_cause(self) -> CommandError<'a>
        ensures error { result ≡ told_with_cause_spec self.entry }
        ensures right { status_of result ≢ 2 }
    {
        match self {
            FileError::Read { path, cause } => CommandError::Unreadable { path, cause },
            FileError::TooLong { path } => CommandError::TooLong { path },
            FileError::Memory => CommandError::Memory,
        }
    }
}

/// Why a command was not done that the command line asks for.
#[derive(Drop)]
pub(crate) enum RunError<'a> {
    /// The files are not read.
    File(FileError<'a>),
    /// The files of a check are not read: its line names the cause.
    Unchecked(FileError<'a>),
    /// The linked file cannot be written to this path.
    Write { path: &'a str },
    StandardOutput,
    Memory,
}

impl From<AllocError> for RunError<'_> {
    ghost from_gives = { λ _ e. e ≡ run.Memory };

    fn from(_error: AllocError) -> Self {
        RunError::Memory
    }
}

impl<T: Drop> From<AllocFailed<T>> for RunError<'_> {
    ghost from_gives = { λ _ e. e ≡ run.Memory };

    fn from(_error: AllocFailed<T>) -> Self {
        RunError::Memory
    }
}

impl<'a> From<FileError<'a>> for RunError<'a> {
    ghost from_gives = { λ error e. e ≡ run.File error };

    fn from(error: FileError<'a>) -> Self {
        RunError::File(error)
    }
}

impl From<WriteFault> for RunError<'_> {
    ghost from_gives = { λ _ e. e ≡ run.StandardOutput };

    /// What could not be written is standard output, since a file is named where it is written.
    fn from(_fault: WriteFault) -> Self {
        RunError::StandardOutput
    }
}

/// Each text that the program writes to standard error, but for the line of files that are refused, with
/// what the text names.
#[derive(Drop, Error)]
pub(crate) enum CommandError<'a> {
    /// The program does not accept the arguments of the command line.
    #[error("{0}")]
    Usage(UsageText),
    /// An argument of the command line is not UTF-8.
    #[error("pslink: the arguments of a command are UTF-8{0}")]
    NotText(WrongArgument),
    #[error("pslink: cannot read {}", ShownPath(.path))]
    Read { path: &'a str },
    /// A file that cannot be read, with the cause.
    #[error("pslink: cannot read {} ({cause})", ShownPath(.path))]
    Unreadable { path: &'a str, cause: Cause },
    #[error("pslink: {} is longer than 67108864 bytes", ShownPath(.path))]
    TooLong { path: &'a str },
    #[error("pslink: cannot write {}", ShownPath(.path))]
    Write { path: &'a str },
    #[error("pslink: cannot write standard output")]
    StandardOutput,
    #[error("pslink: out of memory")]
    Memory,
}

// The trait `Error` wants a `Debug`, and nothing prints it.
impl fmt::Debug for CommandError<'_> {
    fn fmt<W: fmt::Write>(&self, f: &mut Formatter<W>) -> fmt::Result {
        write!(f, "{self}")
    }
}

impl From<AllocError> for CommandError<'_> {
    ghost from_gives = { λ _ e. e ≡ told.Memory };

    fn from(_error: AllocError) -> Self {
        CommandError::Memory
    }
}

impl From<WriteFault> for CommandError<'_> {
    ghost from_gives = { λ _ e. e ≡ told.StandardOutput };

    /// What could not be written is standard output, since a file is named where it is written.
    fn from(_fault: WriteFault) -> Self {
        CommandError::StandardOutput
    }
}

impl From<UsageError> for CommandError<'_> {
    ghost from_gives = { λ error e. (e ≡ told_of_usage error) × (error ≡ usage.Memory → e ≡ told.Memory) × (status_of e ≢ 3) };

    fn from(error: UsageError) -> Self {
        match error {
            UsageError::Wrong(text) => CommandError::Usage(text),
            UsageError::NotText(argument) => CommandError::NotText(argument),
            UsageError::Memory => CommandError::Memory,
        }
    }
}

impl<'a> From<RunError<'a>> for CommandError<'a> {
    ghost from_gives = { λ error e. (e ≡ told_of error) × (error ≡ run.StandardOutput → status_of e ≡ 3) × (status_of e ≢ 2) };

    fn from(error: RunError<'a>) -> Self {
        match error {
            RunError::File(error) => error.told(),
            RunError::Unchecked(error) => error.told_with_cause(),
            RunError::Write { path } => CommandError::Write { path },
            RunError::StandardOutput => CommandError::StandardOutput,
            RunError::Memory => CommandError::Memory,
        }
    }
}

impl CommandError<'_> {
    /// What the process ends with.
    fn status(&self) -> u8
        ensures value { result ≡ status_of self.now }
        ensures unrefused { result ≢ 1 }
    {
        match self {
            CommandError::Usage(_) | CommandError::NotText(_) => 2,
            CommandError::Read { .. }
            | CommandError::Unreadable { .. }
            | CommandError::TooLong { .. }
            | CommandError::Write { .. }
            | CommandError::StandardOutput => 3,
            CommandError::Memory => 4,
        }
    }

    /// Writes the text, and returns the status. If the text cannot be written, that is ignored.
    pub(crate) fn report<E: Write>(&self, err: &mut E) -> u8
        ensures status { result ≡ status_of self.now }
        ensures unrefused { result ≢ 1 }
    {
        // The text of wrong usage ends with a line end of its own.
        let _ = match self {
            CommandError::Usage(text) => write!(err, "{text}"),
            _ => writeln!(err, "{self}"),
        };
        self.status()
    }
}
