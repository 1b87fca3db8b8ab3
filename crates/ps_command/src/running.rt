//! One command, from its arguments to its status.
ghost use Rattle.std.specs.Prelude.{◌≡◌, ◌≢◌, ◌≤◌, ◌⊎◌, ◌∷◌, [], List, Option, IfErr, IfOk, OnErr, OnOk, false, map};
ghost use Rattle.std.specs.Io.KnownBytes.{Appends};
ghost use Rattle.ps_texts.specs.Sources.{contents};
ghost use Rattle.ps_texts.specs.Paths.{paths_in};
ghost use Rattle.ps_texts.specs.Texts.{bytes_in, status_in};
ghost use Rattle.ps_arguments.specs.CommandLine.{AreAccepted, AskForText, Row, Text, faults_in, named_in, texts};
ghost use Rattle.ps_arguments.specs.Requests.{IsNamedCommand, IsWrongUsage, NamesNoLink};
ghost use Rattle.ps_command.specs.Causes.{told_of};
ghost use Rattle.ps_command.specs.Failures.{CutsText, Fails, FailsNamed, FailsToPrint, TakesMore};
ghost use Rattle.ps_command.specs.Printed.{IsPrinted, NamedLeavesPart, Prints, PrintsLists, PrintsOrRefuses, PrintsText, PrintsTextOf, TellsOnError, list_form as list_form_spec, map_kind as map_kind_spec, units_form as units_form_spec};
ghost use Rattle.ps_command.specs.Statuses.{ended_status, status_of};
ghost use Rattle.ps_output_files.specs.World.{unknown_world};
ghost use Rattle.ps_writing.specs.Prefixes.{AppendsPrefix};

use crate::ended::Ended;
use crate::error::{CommandError, RunError};
use crate::files::{self, InputBytes, Paths};
use crate::linking::{link, views};
use crate::lists::print_lists;
use crate::refusal::refuse;
use ps_arguments::{Inputs, Request, Task, form_of, parse};
use ps_output_files::CodeFiles;
use ps_texts::{
    FilesText, Form, HostText, LinkText, ListForm, NamedFiles, NamedText, ReportText, TextKind,
    Unmade, text_of,
};
use ps_writing::{WriteFault, write_all_of, write_text};
use std::alloc::{Allocator, Global};
use std::io::Write;
use std::rt::Files;

/// Does the command that `args` name, of which the first is the program's name, and returns the
/// status of the process.
///
/// `link` writes the linked file to OUT, which is opened only once all is read and checked, and
/// prints its summary to `out`, or to `err` where OUT is named by its option and leads to standard
/// output; with `--quiet` it prints none. `map` prints the map of the link, and with `--references`
/// what the link stores, `show` what one code file has, `check` a report on the files for a person,
/// and `list` a line of each file and of each of its segments. With `--json` each of the five prints
/// one JSON document of the same values, `link` in place of its summary. Each file is opened at the
/// path that is named and read to its end, the libraries in the order in which they are named.
///
/// The status is 0 where the command was done, or where the help or the version was requested; 1
/// where the files are refused; 2 where the program does not accept the arguments; 3 where a file
/// could not be read or written or is too long, or standard output failed; 4 where memory was
/// refused. Where a link, a map or a show is refused, the line of the fault is written to `err`, and
/// nothing else. With status 2, 3 and 4 a text that says why is written there: no clause has its words.
/// Whether `err` takes a text changes no status. A report names the refusal itself: then the status is
/// 1, as it is on a warning where `check` is strict, and nothing is written to `err`. And `list` writes a
/// line to `err` for each file that cannot be read, goes on with the next, and returns the greatest
/// status of all: 1 where a file or a segment is refused, as its line says, and 3 where a file cannot be
/// read, also for want of memory. `check --unit` does the same with a line of each unit, and its status
/// is 1 too where a unit is refused or a file has none.
///
/// Memory for the arguments is taken from `rt`, all other from `alloc`. Source: this project's
/// profile.
pub fn run<R: Files + AllocGlobal, A: Allocator + Copy, O: Write, E: Write>(
    rt: &R,
    alloc: A,
    args: &[&str],
    out: &mut O,
    err: &mut E,
) -> u8
    ensures known { result ≤ 4 }
    ensures silent { result ≡ 0 → (err.new ≡ err.old)
        ⊎ TellsOnError unknown_world (named_in (texts args.now)) }
    ensures printed { faults_in (texts args.now) ≡ [] → result ≡ 0
        → Prints (λ _. unknown_world) (named_in (texts args.now)) 0 rt.now rt.now (out.new ≡ out.old)
        (O.contents out.old) (O.contents out.new) (E.contents err.old) (E.contents err.new) }
    ensures accepted { AreAccepted (texts args.now) → result ≡ 0 → faults_in (texts args.now) ≡ [] }
    ensures helped { result ≡ 0 → faults_in (texts args.now) ≢ []
        → PrintsText (faults_in (texts args.now)) (O.contents out.old) (O.contents out.new) }
    ensures asked { AskForText (texts args.now) → result ≢ 3 → result ≢ 4 → result ≡ 0 }
    ensures reported { result ≡ 1
        → Prints (λ _. unknown_world) (named_in (texts args.now)) 1 rt.now rt.now (out.new ≡ out.old)
        (O.contents out.old) (O.contents out.new) (E.contents err.old) (E.contents err.new) }
    ensures misused { result ≡ 2 → IsWrongUsage unknown_world.one_file (texts args.now) }
    ensures failed { result ≡ 3
        → Prints (λ _. unknown_world) (named_in (texts args.now)) 3 rt.now rt.now (out.new ≡ out.old)
        (O.contents out.old) (O.contents out.new) (E.contents err.old) (E.contents err.new)
        ⊎ Fails (λ _. unknown_world) (texts args.now) rt.now rt.now (O.contents out.old)
        (O.contents out.new) }
    ensures unprinted { result ≢ 0 → result ≢ 1 → result ≢ 3 → out.new ≡ out.old }
{
    let mut files = rt;
    run_with_files(&mut files, rt.alloc(), alloc, args, out, err)
}

/// Does the command that `args` name, as `run` does, over any files.
pub fn run_with_files<F: CodeFiles, A: Allocator + Copy, O: Write, E: Write>(
    files: &mut F,
    heap: Global,
    alloc: A,
    args: &[&str],
    out: &mut O,
    err: &mut E,
) -> u8
    ensures known { result ≤ 4 }

    // Nothing is written there where a command was done, but for the summary of a link that writes
    // its file to standard output.
    ensures silent { result ≡ 0 → (err.new ≡ err.old)
        ⊎ TellsOnError (F.world files.old) (named_in (texts args.now)) }

    // What was done printed what its command prints, and nothing else; a link wrote exactly its files.
    ensures printed { faults_in (texts args.now) ≡ [] → result ≡ 0
        → Prints F.world (named_in (texts args.now)) 0 files.old files.new (out.new ≡ out.old)
        (O.contents out.old) (O.contents out.new) (E.contents err.old) (E.contents err.new) }

    // Arguments that clap accepts have no fault where a command was done.
    ensures accepted { AreAccepted (texts args.now) → result ≡ 0 → faults_in (texts args.now) ≡ [] }

    // Where the help or the version is asked for, its text is printed, and nothing else: of the help
    // a text that ends with a line end, of the version its one line.
    ensures helped { result ≡ 0 → faults_in (texts args.now) ≢ []
        → PrintsText (faults_in (texts args.now)) (O.contents out.old) (O.contents out.new) }
    ensures asked { AskForText (texts args.now) → result ≢ 3 → result ≢ 4 → result ≡ 0 }

    // The status is 1 only where files that were read are refused, or a strict check warns of them: the
    // report, the lists or the document of that is printed, and else nothing. Of a link, a map and a show
    // that is refused, standard error has the line of the fault.
    ensures reported { result ≡ 1
        → Prints F.world (named_in (texts args.now)) 1 files.old files.new (out.new ≡ out.old)
        (O.contents out.old) (O.contents out.new) (E.contents err.old) (E.contents err.new) }

    // Arguments are wrong usage only for one of the reasons that are stated.
    ensures misused { result ≡ 2 → IsWrongUsage (F.world files.old).one_file (texts args.now) }

    // With status 3 files could not be read, and the lists of all others are printed; or a file could not
    // be read or written, and nothing is printed; or standard output failed, and has a prefix of what the
    // command prints, or of lists some bytes.
    ensures failed { result ≡ 3
        → Prints F.world (named_in (texts args.now)) 3 files.old files.new (out.new ≡ out.old)
        (O.contents out.old) (O.contents out.new) (E.contents err.old) (E.contents err.new)
        ⊎ Fails F.world (texts args.now) files.old files.new (O.contents out.old)
        (O.contents out.new) }

    // Only what was done, what reports a refusal, or a fault of standard output itself, leaves anything
    // there.
    ensures unprinted { result ≢ 0 → result ≢ 1 → result ≢ 3 → out.new ≡ out.old }

    // No file is created where files are refused, where the arguments are wrong usage, where memory is
    // refused, or by another command than a link.
    ensures kept { result ≢ 0 → result ≢ 3 → (F.world files.new).log ≡ (F.world files.old).log }
    ensures alone { NamesNoLink (named_in (texts args.now))
        → (F.world files.new).log ≡ (F.world files.old).log }

    // Where a file or standard output failed, none was created, or by a link a part of what it writes.
    ensures part { result ≡ 3 → ((F.world files.new).log ≡ (F.world files.old).log)
        ⊎ NamedLeavesPart F.world (named_in (texts args.now)) files.old files.new }
{
    match carry_out(files, heap, alloc, args, out, err) {
        Ok(ended) => ended.status(),
        Err(error) => error.report(err),
    }
}

/// Does the command that `args` name, and returns how it ends.
fn carry_out<'a, F: CodeFiles, A: Allocator + Copy, O: Write, E: Write>(
    files: &mut F,
    heap: Global,
    alloc: A,
    args: &'a [&'a str],
    out: &mut O,
    err: &mut E,
) -> Result<Ended, CommandError<'a>>
    ensures ok { faults_in (texts args.now) ≡ []
        → IfOk result (λ ended. Prints F.world (named_in (texts args.now)) (ended_status ended)
        files.old files.new (out.new ≡ out.old) (O.contents out.old) (O.contents out.new)
        (E.contents err.old) (E.contents err.new)) }
    ensures accepted { AreAccepted (texts args.now)
        → IfOk result (λ _. faults_in (texts args.now) ≡ []) }
    ensures text { faults_in (texts args.now) ≢ []
        → IfOk result (λ ended. (ended ≡ Ended.Done) × PrintsText (faults_in (texts args.now))
        (O.contents out.old) (O.contents out.new)) }
    ensures asked { AskForText (texts args.now)
        → IfErr result (λ e. status_of e ≢ 3 → status_of e ≡ 4) }
    ensures silent { IfOk result (λ ended. ended_status ended ≡ 0 → (err.new ≡ err.old)
        ⊎ TellsOnError (F.world files.old) (named_in (texts args.now))) }
    ensures reported { IfOk result (λ ended. ended_status ended ≢ 0
        → Prints F.world (named_in (texts args.now)) (ended_status ended) files.old files.new
        (out.new ≡ out.old) (O.contents out.old) (O.contents out.new) (E.contents err.old)
        (E.contents err.new)) }
    ensures err { IfErr result (λ e. status_of e ≢ 3 → out.new ≡ out.old) }
    ensures misused { IfErr result (λ e. status_of e ≡ 2
        → IsWrongUsage (F.world files.old).one_file (texts args.now)) }
    ensures failed { IfErr result (λ e. status_of e ≡ 3 → Fails F.world (texts args.now) files.old
        files.new (O.contents out.old) (O.contents out.new)) }
    ensures refused { IfOk result (λ ended. ended_status ended ≢ 0
        → (F.world files.new).log ≡ (F.world files.old).log) }
    ensures memory { IfErr result (λ e. status_of e ≢ 3
        → (F.world files.new).log ≡ (F.world files.old).log) }
    ensures alone { NamesNoLink (named_in (texts args.now))
        → (F.world files.new).log ≡ (F.world files.old).log }
    ensures part { IfErr result (λ _. ((F.world files.new).log ≡ (F.world files.old).log)
        ⊎ NamedLeavesPart F.world (named_in (texts args.now)) files.old files.new) }
{
    match parse(&Paths(&*files), heap, alloc, args)? {
        Request::Help(words) => {
            write_all_of(out, words.as_bytes())?;
            Ok(Ended::Done)
        }
        Request::Version => {
            write_all_of(out, b"pslink 0.4.0\n")?;
            Ok(Ended::Done)
        }
        Request::Task(task) => Ok(perform(files, alloc, task, out, err)?),
    }
}

/// Does what a command says, and returns how it ends.
fn perform<'a, F: CodeFiles, A: Allocator + Copy, O: Write, E: Write>(
    files: &mut F,
    alloc: A,
    task: Task<'a, A>,
    out: &mut O,
    err: &mut E,
) -> Result<Ended, RunError<'a>>
    ensures ok { (named : Option (Text × List Row))
        → IsNamedCommand (F.world files.old).one_file task.entry named
        → IfOk result (λ ended. Prints F.world named (ended_status ended) files.old files.new
        (out.new ≡ out.old) (O.contents out.old) (O.contents out.new) (E.contents err.old)
        (E.contents err.new)) }
    ensures silent { (named : Option (Text × List Row))
        → IsNamedCommand (F.world files.old).one_file task.entry named
        → IfOk result (λ ended. ended_status ended ≡ 0 → (err.new ≡ err.old)
        ⊎ TellsOnError (F.world files.old) named) }
    ensures err { IfErr result (λ e. e ≢ RunError.StandardOutput → out.new ≡ out.old) }
    ensures failed { (named : Option (Text × List Row))
        → IsNamedCommand (F.world files.old).one_file task.entry named
        → IfErr result (λ e. status_of (told_of e) ≡ 3 → FailsNamed F.world named files.old
        files.new (O.contents out.old) (O.contents out.new)) }
    ensures refused { IfOk result (λ ended. ended_status ended ≢ 0
        → (F.world files.new).log ≡ (F.world files.old).log) }
    ensures memory { IfErr result (λ e. status_of (told_of e) ≢ 3
        → (F.world files.new).log ≡ (F.world files.old).log) }
    ensures alone { (named : Option (Text × List Row))
        → IsNamedCommand (F.world files.old).one_file task.entry named → NamesNoLink named
        → (F.world files.new).log ≡ (F.world files.old).log }
    ensures part { (named : Option (Text × List Row))
        → IsNamedCommand (F.world files.old).one_file task.entry named
        → IfErr result (λ _. ((F.world files.new).log ≡ (F.world files.old).log)
        ⊎ NamedLeavesPart F.world named files.old files.new) }
{
    match task {
        Task::Link(asked) => link(files, alloc, asked, out, err),
        Task::Map {
            inputs,
            references,
            json,
        } => print(
            &*files,
            alloc,
            map_kind(references, json),
            json,
            inputs,
            out,
            err,
        ),
        Task::Show { file, json } => {
            let inputs = Inputs {
                host: file,
                libraries: Vec::new(alloc),
            };
            print(
                &*files,
                alloc,
                TextKind::OfHost(HostText::Show(form_of(json))),
                json,
                inputs,
                out,
                err,
            )
        }
        Task::Check {
            inputs,
            strict,
            unit,
            json,
        } => {
            if unit {
                return check_units(&*files, alloc, inputs, units_form(json), out, err);
            }
            check(&*files, alloc, form_of(json), strict, inputs, out, err)
        }
        Task::List { files: paths, json } => {
            Ok(print_lists(&*files, alloc, paths.as_slice(), list_form(json), out, err)?)
        }
    }
}

/// The text that `map` prints: the map of a link, and with `references` what the link stores.
fn map_kind(references: bool, json: bool) -> TextKind
    ensures { result ≡ map_kind_spec references json }
{
    let what = if references {
        LinkText::References
    } else {
        LinkText::Map
    };
    TextKind::OfLink(what, form_of(json))
}

/// Prints a text of these inputs, which were read, and returns how it ends. With `json` a refusal is
/// printed too.
fn print_read<'a, A: Allocator + Copy, O: Write, E: Write>(
    alloc: A,
    kind: TextKind,
    strict: bool,
    json: bool,
    inputs: &Inputs<'_, A>,
    bytes: &InputBytes<A>,
    out: &mut O,
    err: &mut E,
) -> Result<Ended, RunError<'a>>
    ensures ok { IfOk result (λ ended. IsPrinted kind strict json
        (inputs.now.host.now ∷ contents inputs.now.libraries.items) bytes.now.host.items
        (map (λ library. library.items) bytes.now.libraries.items) (ended_status ended)
        (out.new ≡ out.old) (O.contents out.old) (O.contents out.new) (E.contents err.old)
        (E.contents err.new)) }
    ensures silent { IfOk result (λ ended. ended_status ended ≡ 0 → err.new ≡ err.old) }
    ensures err { IfErr result (λ e. e ≢ RunError.StandardOutput → out.new ≡ out.old) }
    ensures cut { IfErr result (λ e. status_of (told_of e) ≡ 3 → CutsText kind strict json
        (inputs.now.host.now ∷ contents inputs.now.libraries.items) bytes.now.host.items
        (map (λ library. library.items) bytes.now.libraries.items) (O.contents out.old)
        (O.contents out.new)) }
{
    let views = views(alloc, bytes.libraries.as_slice())?;
    let files = NamedFiles {
        host_path: inputs.host,
        paths: inputs.libraries.as_slice(),
        host: bytes.host.as_slice(),
        libs: views.as_slice(),
    };
    print_files(alloc, kind, strict, json, &files, out, err)
}

/// Prints a text of these files, once all is read and checked, and returns how it ends. With `json` a
/// refusal is printed too.
fn print_files<'a, A: Allocator + Copy, O: Write, E: Write>(
    alloc: A,
    kind: TextKind,
    strict: bool,
    json: bool,
    files: &NamedFiles<'_>,
    out: &mut O,
    err: &mut E,
) -> Result<Ended, RunError<'a>>
    ensures ok { IfOk result (λ ended. IsPrinted kind strict json (paths_in files.now)
        files.now.host.now (contents files.now.libs.now) (ended_status ended) (out.new ≡ out.old)
        (O.contents out.old) (O.contents out.new) (E.contents err.old) (E.contents err.new)) }
    ensures silent { IfOk result (λ ended. ended_status ended ≡ 0 → err.new ≡ err.old) }
    ensures err { IfErr result (λ e. e ≢ RunError.StandardOutput → out.new ≡ out.old) }
    ensures cut { IfErr result (λ e. status_of (told_of e) ≡ 3 → CutsText kind strict json
        (paths_in files.now) files.now.host.now (contents files.now.libs.now) (O.contents out.old)
        (O.contents out.new)) }
{
    match text_of(alloc, kind, files) {
        Ok(text) => Ok(print_text(&text, strict, out)?),
        Err(Unmade::Refused(refusal)) => Ok(refuse(files, None, refusal, json, out, err)?),
        Err(Unmade::Memory) => Err(RunError::Memory),
    }
}

/// Prints a text, and returns how it ends. Nothing is let go here where a write fails: the text is the
/// caller's.
fn print_text<A: Allocator + Copy, O: Write>(
    text: &FilesText<'_, A>,
    strict: bool,
    out: &mut O,
) -> Result<Ended, WriteFault>
    ensures ended { IfOk result (λ ended. ended_status ended ≡ status_in strict text.now) }
    ensures all { OnOk result (Appends (O.contents out.old) (O.contents out.new)
        (bytes_in text.now)) }
    ensures cut { OnErr result (AppendsPrefix (O.contents out.old) (O.contents out.new)
        (bytes_in text.now)) }
{
    write_text(text, out)?;
    Ok(Ended::of(text.status(strict) == 1))
}

/// Reads the inputs, and prints a text of them, or with `json` a refusal. Returns how it ends.
fn print<'a, R: CodeFiles, A: Allocator + Copy, O: Write, E: Write>(
    rt: &R,
    alloc: A,
    kind: TextKind,
    json: bool,
    inputs: Inputs<'a, A>,
    out: &mut O,
    err: &mut E,
) -> Result<Ended, RunError<'a>>
    ensures ok { IfOk result (λ ended. PrintsOrRefuses (R.world rt.now) kind json inputs.entry.host.now
        (contents inputs.entry.libraries.items) (ended_status ended) (out.new ≡ out.old)
        (O.contents out.old) (O.contents out.new) (E.contents err.old) (E.contents err.new)) }
    ensures silent { IfOk result (λ ended. ended_status ended ≡ 0 → err.new ≡ err.old) }
    ensures err { IfErr result (λ e. e ≢ RunError.StandardOutput → out.new ≡ out.old) }
    ensures failed { IfErr result (λ e. status_of (told_of e) ≡ 3
        → FailsToPrint (R.world rt.now) kind false json inputs.entry.host.now
        (contents inputs.entry.libraries.items) (O.contents out.old) (O.contents out.new)) }
{
    let bytes = files::read_inputs(rt, alloc, &inputs)?;
    print_read(alloc, kind, false, json, &inputs, &bytes, out, err)
}

/// Reads the inputs, and prints the report of a check. Returns how it ends. What cannot be read is
/// reported with its cause.
fn check<'a, R: CodeFiles, A: Allocator + Copy, O: Write, E: Write>(
    rt: &R,
    alloc: A,
    form: Form,
    strict: bool,
    inputs: Inputs<'a, A>,
    out: &mut O,
    err: &mut E,
) -> Result<Ended, RunError<'a>>
    ensures ok { IfOk result (λ ended. PrintsTextOf (R.world rt.now)
        (TextKind.Named (NamedText.OfReport ReportText.Whole form)) strict inputs.entry.host.now
        (contents inputs.entry.libraries.items) (ended_status ended) (O.contents out.old)
        (O.contents out.new)) }
    ensures silent { IfOk result (λ ended. ended_status ended ≡ 0 → err.new ≡ err.old) }
    ensures err { IfErr result (λ e. e ≢ RunError.StandardOutput → out.new ≡ out.old) }
    ensures failed { IfErr result (λ e. status_of (told_of e) ≡ 3
        → FailsToPrint (R.world rt.now)
        (TextKind.Named (NamedText.OfReport ReportText.Whole form)) strict false
        inputs.entry.host.now (contents inputs.entry.libraries.items) (O.contents out.old)
        (O.contents out.new)) }
{
    let kind = TextKind::Named(NamedText::OfReport(ReportText::Whole, form));
    match files::read_inputs(rt, alloc, &inputs) {
        Ok(bytes) => print_read(alloc, kind, strict, false, &inputs, &bytes, out, err),
        Err(error) => Err(RunError::Unchecked(error)),
    }
}

/// How a list is printed.
fn list_form(json: bool) -> ListForm
    ensures { result ≡ list_form_spec json }
{
    if json {
        ListForm::Json
    } else {
        ListForm::Lines
    }
}

/// How the lists of files are printed that have their units.
fn units_form(json: bool) -> ListForm
    ensures { result ≡ units_form_spec json }
{
    if json {
        ListForm::JsonUnits
    } else {
        ListForm::Units
    }
}

/// Prints the list of each of the inputs, with its units by themselves, and returns the worst end of
/// all.
fn check_units<'a, R: CodeFiles, A: Allocator + Copy, O: Write, E: Write>(
    rt: &R,
    alloc: A,
    inputs: Inputs<'a, A>,
    how: ListForm,
    out: &mut O,
    err: &mut E,
) -> Result<Ended, RunError<'a>>
    ensures ok { IfOk result (λ ended. PrintsLists (R.world rt.now) how
        (inputs.entry.host.now ∷ map (λ path. path.now) inputs.entry.libraries.items)
        (ended_status ended) (O.contents out.old) (O.contents out.new)) }
    ensures silent { IfOk result (λ ended. ended_status ended ≡ 0 → err.new ≡ err.old) }
    ensures err { IfErr result (λ e. e ≢ RunError.StandardOutput → out.new ≡ out.old) }
    ensures cut { IfErr result (λ e. status_of (told_of e) ≡ 3
        → TakesMore (O.contents out.old) (O.contents out.new)) }
{
    let Inputs {
        host,
        libraries: mut paths,
    } = inputs;
    paths.insert(0, host)?;
    Ok(print_lists(rt, alloc, paths.as_slice(), how, out, err)?)
}
