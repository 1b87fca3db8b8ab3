//! The arguments that a process was started with.
ghost use Rattle.std.specs.Prelude.{◌≡◌, ◌≢◌, ◌⊎◌, IfErr};
ghost use Rattle.ps_arguments.specs.declared.usage.WrongArgument.{WrongArgument};

use crate::usage::{UsageError, WrongArgument};
use std::alloc::{AllocError, Global};
use std::env;
use std::io::ErrorKind;
use std::rt::Env;

/// The arguments of the process, the program's name first. If one of them is not UTF-8, that is an
/// error, but for `list`: there it stands with U+FFFD for each byte that ASCII does not have, and
/// with a zero byte at its end, so that no file has that path.
pub fn given_args<R: Env + AllocGlobal>(rt: &R) -> Result<Vec<String>, UsageError>
    ensures err { IfErr result (λ e. (e ≡ UsageError.Memory)
        ⊎ ((argument : WrongArgument) × (e ≡ UsageError.NotText argument))) }
{
    match env::args(rt) {
        Ok(args) => Ok(args.collect(rt.alloc())?),
        Err(error) if error.kind() != ErrorKind::OutOfMemory && is_list(rt) => Ok(listed_args(rt)?),
        Err(error) => Err(args_fault(error.kind(), wrong_argument(rt))),
    }
}
/// The command is `list`.
fn is_list<R: Env>(rt: &R) -> bool {
    let mut room = [0u8; LIST.len()];
    match rt.arg(1, &mut room) {
        Ok(length) => room.get(..length) == Some(LIST),
        Err(_) => false,
    }
}

/// The arguments of `list`, of which some are not UTF-8.
fn listed_args<R: Env + AllocGlobal>(rt: &R) -> Result<Vec<String>, AllocError> {
    let mut room = [0u8; LONGEST_ARGUMENT];
    let mut args = Vec::new(rt.alloc());
    for number in 0..usize::MAX {
        let Ok(length) = rt.arg(number, &mut room) else {
            return Ok(args);
        };
        let text = argument_text(rt.alloc(), room.get(..length).unwrap_or(&[]))?;
        args.push(text)?;
    }
    Ok(args)
}

/// An argument as text. One that is not UTF-8 has U+FFFD for each byte that ASCII does not have, and
/// a zero byte at its end: so no file has that path.
fn argument_text(alloc: Global, argument: &[u8]) -> Result<String, AllocError> {
    let mut text = String::new(alloc);
    if let Ok(argument) = str::from_utf8(argument) {
        text.push_str(argument)?;
        return Ok(text);
    }
    for byte in argument {
        let shown = if byte.is_ascii() {
            char::from(*byte)
        } else {
            '\u{FFFD}'
        };
        text.push(shown)?;
    }
    text.push('\0')?;
    Ok(text)
}

/// The command that lists files.
const LIST: &[u8] = b"list";

/// The longest argument that is read to find one that is not UTF-8, in bytes: as long as Linux takes
/// any.
const LONGEST_ARGUMENT: usize = 131_072;

/// The first argument that is not UTF-8; none where one before it is too long to be read.
fn wrong_argument<R: Env>(rt: &R) -> WrongArgument {
    let mut room = [0u8; LONGEST_ARGUMENT];
    for number in 0..usize::MAX {
        let Ok(length) = rt.arg(number, &mut room) else {
            return WrongArgument(None);
        };
        let argument = room.get(..length).unwrap_or(&[]);
        if str::from_utf8(argument).is_err() {
            return WrongArgument(Some(number));
        }
    }
    WrongArgument(None)
}

/// Why there are no arguments, by the kind of the error that reading them gave.
fn args_fault(kind: ErrorKind, argument: WrongArgument) -> UsageError
    ensures memory { kind ≡ ErrorKind.OutOfMemory → result ≡ UsageError.Memory }
    ensures text { kind ≢ ErrorKind.OutOfMemory → result ≡ UsageError.NotText argument }
{
    match kind {
        ErrorKind::OutOfMemory => UsageError::Memory,
        _ => UsageError::NotText(argument),
    }
}
