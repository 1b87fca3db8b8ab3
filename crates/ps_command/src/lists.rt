//! The lists of files, one after another.
ghost use Rattle.std.specs.Prelude.{◌≡◌, IfOk, OnOk, if◌then◌else◌, map, true};
ghost use Rattle.std.specs.Io.KnownBytes.{Appends};
ghost use Rattle.ps_listing.specs.FileLists.{is_refused_in, listed};
ghost use Rattle.ps_command.specs.Printed.{IsListed, PrintsDocument, PrintsFiles, PrintsLists, PrintsUnread};
ghost use Rattle.ps_command.specs.Causes.{unread_error};
ghost use Rattle.ps_command.specs.Failures.{TakesMore};
ghost use Rattle.ps_command.specs.Statuses.{ended_status};

use crate::ended::Ended;
use crate::error::{Cause, CommandError};
use crate::files::{self, FileFault};
use ps_listing::{ListForm, ListItem, ListedFile, UnreadItem};
use ps_output_files::CodeFiles;
use ps_writing::{WriteFault, write_all_of, write_text};
use std::alloc::Allocator;
use std::io::Write;

/// Prints what is listed of a file, as the first or after another, and returns how it ends.
fn print_file<A: Allocator + Copy, O: Write>(
    file: &ListedFile<'_, A>,
    first: bool,
    out: &mut O,
) -> Result<Ended, WriteFault>
    ensures ended { IfOk result (λ ended. ended_status ended
        ≡ (if is_refused_in file.now then 1 else 0)) }
    ensures text { OnOk result (Appends (O.contents out.old) (O.contents out.new)
        (listed first file.now)) }
    ensures took { TakesMore (O.contents out.old) (O.contents out.new) }
{
    write_text(
        &ListItem {
            first,
            listed: file,
        },
        out,
    )?;
    Ok(Ended::of(file.is_refused()))
}

/// Prints in a document the item of a file that cannot be read, and else nothing.
fn print_unread<O: Write>(
    path: &str,
    first: bool,
    how: ListForm,
    out: &mut O,
) -> Result<(), WriteFault>
    ensures text { OnOk result (PrintsUnread how first path.now (O.contents out.old)
        (O.contents out.new)) }
    ensures took { TakesMore (O.contents out.old) (O.contents out.new) }
{
    match how {
        ListForm::Lines | ListForm::Units => Ok(()),
        ListForm::Json | ListForm::JsonUnits => write_text(&UnreadItem { first, path }, out),
    }
}

/// What is reported of the file at `path`, which was not read whole: want of memory is a cause too.
fn unread<'a>(path: &'a str, fault: FileFault) -> CommandError<'a>
    ensures { result ≡ unread_error path.entry fault }
{
    match fault {
        FileFault::Device(cause) => CommandError::Unreadable { path, cause },
        FileFault::TooLong => CommandError::TooLong { path },
        FileFault::Endless => CommandError::Unreadable {
            path,
            cause: Cause::Other,
        },
        FileFault::Memory => CommandError::Unreadable {
            path,
            cause: Cause::Memory,
        },
    }
}

/// Reports a file that was not read whole, and prints what there is of it. Returns how it ends.
fn report_unread<O: Write, E: Write>(
    path: &str,
    fault: FileFault,
    first: bool,
    how: ListForm,
    out: &mut O,
    err: &mut E,
) -> Result<Ended, WriteFault>
    ensures ended { IfOk result (λ ended. ended ≡ Ended.Unread) }
    ensures text { OnOk result (PrintsUnread how first path.now (O.contents out.old)
        (O.contents out.new)) }
    ensures took { TakesMore (O.contents out.old) (O.contents out.new) }
{
    unread(path, fault).report(err);
    print_unread(path, first, how, out)?;
    Ok(Ended::Unread)
}

/// Prints what is listed of the file at `path`, as the first or after another, and reports it if it
/// cannot be read. Returns how this file ends.
fn print_list<R: CodeFiles, A: Allocator + Copy, O: Write, E: Write>(
    rt: &R,
    alloc: A,
    path: &str,
    first: bool,
    how: ListForm,
    out: &mut O,
    err: &mut E,
) -> Result<Ended, WriteFault>
    ensures ok { IfOk result (λ ended. IsListed (R.world rt.now) how first path.now
        (ended_status ended) (O.contents out.old) (O.contents out.new)) }
    ensures silent { IfOk result (λ ended. ended_status ended ≡ 0 → err.new ≡ err.old) }
    ensures took { TakesMore (O.contents out.old) (O.contents out.new) }
{
    let file = match files::read(rt, alloc, path) {
        Ok(file) => file,
        Err(fault) => return report_unread(path, fault, first, how, out, err),
    };
    match ListedFile::of(alloc, how, path, file.as_slice()) {
        Ok(listed) => print_file(&listed, first, out),
        Err(_) => report_unread(path, FileFault::Memory, first, how, out, err),
    }
}

/// Prints what is listed of each file in this form, one after another, as JSON the items of a
/// document, and reports each that cannot be read. Returns the worst end of all. The bytes of
/// a file are let go before the next is read.
fn print_files<'a, R: CodeFiles, A: Allocator + Copy, O: Write, E: Write>(
    rt: &R,
    alloc: A,
    paths: &[&'a str],
    how: ListForm,
    out: &mut O,
    err: &mut E,
) -> Result<Ended, WriteFault>
    ensures ok { IfOk result (λ ended. PrintsFiles (R.world rt.now) how true
        (map (λ path. path.now) paths.now) (ended_status ended) (O.contents out.old)
        (O.contents out.new)) }
    ensures silent { IfOk result (λ ended. ended_status ended ≡ 0 → err.new ≡ err.old) }
    ensures took { TakesMore (O.contents out.old) (O.contents out.new) }
{
    let mut ended = Ended::Done;
    let mut first = true;
    for path in paths {
        let next = print_list(rt, alloc, *path, first, how, out, err)?;
        ended = ended.worse(next);
        first = false;
    }
    Ok(ended)
}

/// Prints one JSON document of the lists of the files in this form, and reports each that cannot be
/// read. Returns the worst end of all.
#[tactic(auto, using(crate::proofs::ListsPrinted::whole_document))]
fn print_document<'a, R: CodeFiles, A: Allocator + Copy, O: Write, E: Write>(
    rt: &R,
    alloc: A,
    paths: &[&'a str],
    how: ListForm,
    out: &mut O,
    err: &mut E,
) -> Result<Ended, WriteFault>
    ensures ok { IfOk result (λ ended. PrintsDocument (R.world rt.now) how
        (map (λ path. path.now) paths.now) (ended_status ended) (O.contents out.old)
        (O.contents out.new)) }
    ensures silent { IfOk result (λ ended. ended_status ended ≡ 0 → err.new ≡ err.old) }
    ensures took { TakesMore (O.contents out.old) (O.contents out.new) }
{
    write_all_of(out, b"{\"files\":[")?;
    let ended = print_files(rt, alloc, paths, how, out, err)?;
    write_all_of(out, b"\n]}\n")?;
    Ok(ended)
}

/// Prints what is listed of each file in this form, one after another, as JSON one document, and
/// reports each that cannot be read. Returns the worst end of all.
pub(crate) fn print_lists<'a, R: CodeFiles, A: Allocator + Copy, O: Write, E: Write>(
    rt: &R,
    alloc: A,
    paths: &[&'a str],
    how: ListForm,
    out: &mut O,
    err: &mut E,
) -> Result<Ended, WriteFault>
    ensures ok { IfOk result (λ ended. PrintsLists (R.world rt.now) how
        (map (λ path. path.now) paths.now) (ended_status ended) (O.contents out.old)
        (O.contents out.new)) }
    ensures silent { IfOk result (λ ended. ended_status ended ≡ 0 → err.new ≡ err.old) }
    ensures took { TakesMore (O.contents out.old) (O.contents out.new) }
{
    match how {
        ListForm::Json | ListForm::JsonUnits => print_document(rt, alloc, paths, how, out, err),
        ListForm::Lines | ListForm::Units => print_files(rt, alloc, paths, how, out, err),
    }
}
