//! Why a command line asks for nothing.
ghost use Rattle.std.specs.Prelude.{◌≡◌, ◌≢◌};
ghost use Rattle.clap.specs.Words.{kind_of};
ghost use Rattle.clap.specs.declared.error.ErrorKind.TheVariants.{OutOfMemory};
ghost use Rattle.ps_arguments.specs.declared.usage.UsageError.TheVariants as usage;

use clap::error::ErrorKind;
use std::alloc::AllocError;
use std::fmt::{self, Formatter};
use std::marker::Model;

/// The first argument that is not UTF-8, counted as a shell's `$1`, so that 0 is the program's name;
/// none where that is not known. Its text is the end of the line that reports it.
#[derive(Clone, Copy)]
pub struct WrongArgument(pub(crate) Option<usize>);

impl fmt::Display for WrongArgument {
    fn fmt<W: fmt::Write>(&self, f: &mut Formatter<W>) -> fmt::Result {
        match self.0 {
            Some(number) => write!(f, ", and argument {number} is not"),
            None => Ok(()),
        }
    }
}

/// What clap says of arguments that the program does not accept. It ends with a line end.
#[derive(Drop)]
pub struct UsageText {
    error: clap::Error,
}

// Clauses see the error of clap.
impl Model for UsageText {
    ghost use Rattle.std.specs.Prelude.{⊤};
    ghost use Rattle.clap.specs.declared.error.Error.{Error};

    ghost Value = { Error };

    ghost view = { λ text. text.error };

    ghost invariant = { λ text. ⊤ };
}

impl fmt::Display for UsageText {
    fn fmt<W: fmt::Write>(&self, f: &mut Formatter<W>) -> fmt::Result {
        self.error.fmt(f)
    }
}

/// Why a command line asks for nothing: it is wrong usage, or memory was refused.
#[derive(Drop)]
pub enum UsageError {
    /// The program does not accept the arguments.
    Wrong(UsageText),
    /// An argument is not UTF-8.
    NotText(WrongArgument),
    Memory,
}

impl From<AllocError> for UsageError {
    ghost from_gives = { λ _ e. e ≡ usage.Memory };

    fn from(_error: AllocError) -> Self {
        UsageError::Memory
    }
}

impl From<clap::Error> for UsageError {
    ghost from_gives = { λ error e. (kind_of error ≡ OutOfMemory → e ≡ usage.Memory) × (kind_of error ≢ OutOfMemory → e ≡ usage.Wrong error) };

    fn from(error: clap::Error) -> Self {
        match error.kind() {
            ErrorKind::OutOfMemory => UsageError::Memory,
            _ => UsageError::Wrong(UsageText { error }),
        }
    }
}
