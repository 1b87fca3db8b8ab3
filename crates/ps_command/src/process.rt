//! The command that a process was started with.
ghost use Rattle.std.specs.Prelude.{◌≡◌, ◌≢◌, ◌≤◌, ◌⊎◌, List, Option, IfOk, map, string_bytes};
ghost use Rattle.std.specs.Process.{exit_status};
ghost use Rattle.ps_arguments.specs.CommandLine.{Row, Text, named_in};
ghost use Rattle.ps_command.specs.Printed.{Prints, TellsOnError};

use crate::error::CommandError;
use crate::running::run_with_files;
use ps_arguments::given_args;
use ps_output_files::CodeFiles;
use std::alloc::{AllocError, Global};
use std::io::Write;
use std::process::ExitCode;
use std::rt::Env;

/// Does the command that the process was started with, as `run` does, with memory from `rt` alone, and
/// returns its status as the exit code of the process.
///
/// The arguments are those of the process, the program's name first. If one of them is not UTF-8, the
/// status is 2, but for `list`: it lists a file with such a name as one that cannot be read, and the
/// others. If there is no memory for the arguments, the status is 4. With status 2 or 4 nothing is
/// written to `out`, and a text that says why to `err`: no clause has its words.
///
/// What is said of bytes is said of known writers. The streams of the kit are none, so of the process
/// itself these clauses say which status it has, and where a stream is as it was, but not which line of
/// a fault `err` took.
pub fn run_process<R: CodeFiles + Env + AllocGlobal, O: Write, E: Write>(
    rt: &mut R,
    out: &mut O,
    err: &mut E,
) -> ExitCode
    ensures known { exit_status result ≤ 4 }
    // Nothing is written to `err` where the command was done, but for the summary of a link, whose OUT
    // or FILE was found to lead to standard output.
    ensures silent { exit_status result ≡ 0 → (err.new ≡ err.old)
        ⊎ ((named : Option (Text × List Row)) × TellsOnError (R.world rt.old) named) }
    // Status 1 is that of a command whose files are refused, or of a strict check that warns of them: of
    // a link, a map or a show that is refused, `err` has the line of the fault, and `out` the document or
    // nothing.
    ensures reported { exit_status result ≡ 1 → (named : Option (Text × List Row))
        × Prints R.world named 1 rt.old rt.new (out.new ≡ out.old) (O.contents out.old)
        (O.contents out.new) (E.contents err.old) (E.contents err.new) }
    // With status 2 or 4 nothing is written to `out`.
    ensures unprinted { exit_status result ≢ 0 → exit_status result ≢ 1 → exit_status result ≢ 3
        → out.new ≡ out.old }
    // No file is created with status 1, 2 or 4.
    ensures kept { exit_status result ≢ 0 → exit_status result ≢ 3
        → (R.world rt.new).log ≡ (R.world rt.old).log }
{
    ExitCode::from(run_given(rt, out, err))
}

/// Does the command that the process was started with, as `run_process` does, and returns its status as
/// a number: for whoever runs a command over the files of another system.
pub fn run_given<R: CodeFiles + Env + AllocGlobal, O: Write, E: Write>(
    rt: &mut R,
    out: &mut O,
    err: &mut E,
) -> u8
    ensures known { result ≤ 4 }
    ensures silent { result ≡ 0 → (err.new ≡ err.old)
        ⊎ ((named : Option (Text × List Row)) × TellsOnError (R.world rt.old) named) }
    ensures reported { result ≡ 1 → (named : Option (Text × List Row))
        × Prints R.world named 1 rt.old rt.new (out.new ≡ out.old) (O.contents out.old)
        (O.contents out.new) (E.contents err.old) (E.contents err.new) }
    ensures unprinted { result ≢ 0 → result ≢ 1 → result ≢ 3 → out.new ≡ out.old }
    ensures kept { result ≢ 0 → result ≢ 3 → (R.world rt.new).log ≡ (R.world rt.old).log }
{
    match given_args(&*rt) {
        Ok(args) => run_args(rt, args.as_slice(), out, err),
        Err(error) => CommandError::from(error).report(err),
    }
}

/// Runs the command of these arguments, as `run` does, and returns its status.
fn run_args<R: CodeFiles + AllocGlobal, O: Write, E: Write>(
    rt: &mut R,
    given: &[String],
    out: &mut O,
    err: &mut E,
) -> u8
    ensures known { result ≤ 4 }
    ensures silent { result ≡ 0 → (err.new ≡ err.old)
        ⊎ TellsOnError (R.world rt.old) (named_in (map string_bytes given.now)) }
    ensures reported { result ≡ 1
        → Prints R.world (named_in (map string_bytes given.now)) 1 rt.old rt.new (out.new ≡ out.old)
        (O.contents out.old) (O.contents out.new) (E.contents err.old) (E.contents err.new) }
    ensures unprinted { result ≢ 0 → result ≢ 1 → result ≢ 3 → out.new ≡ out.old }
    ensures kept { result ≢ 0 → result ≢ 3 → (R.world rt.new).log ≡ (R.world rt.old).log }
{
    let heap = rt.alloc();
    match slices(heap, given) {
        Ok(args) => run_with_files(rt, heap, heap, args.as_slice(), out, err),
        Err(error) => CommandError::from(error).report(err),
    }
}

/// The arguments, in their order.
fn slices<'w>(alloc: Global, given: &'w [String]) -> Result<Vec<&'w str>, AllocError>
    ensures { IfOk result (λ args. map (λ arg. arg.now) args.items
        ≡ map string_bytes given.now) }
{
    let mut args = Vec::new(alloc);
    for arg in given {
        args.push(arg.as_str())?;
    }
    Ok(args)
}
