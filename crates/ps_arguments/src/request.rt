//! What the arguments of a command line ask the program to do.
ghost use Rattle.std.specs.Prelude.{◌≡◌, ◌⊎◌, IfErr, IfOk, IfSome, None, Some, [], ◌∷◌, codes, map, option_map, string_bytes};
ghost use Rattle.clap.specs.Words.{FailsBy, first_of, found_of, kind_of, rows_of, subcommand_rows_of};
ghost use Rattle.ps_arguments.specs.CommandLine.{AreAccepted, AskForText, faults_in, named_in, texts};
ghost use Rattle.ps_arguments.specs.Requests.{Answers, EndsWithLine, IsAsked, IsApartFrom, IsHost, IsNamedCommand, IsNoHost, IsOther, IsOtherCommand, IsSame, IsTask, IsWrongCheck, IsWrongLink, IsWrongMap, IsWrongNamed, IsWrongUsage, NamesInputs, file_of as file_spec, host_of, out_among};

use crate::command_line::command;
use crate::found::{has_flag, paths_of};
use crate::outputs::{MapContent, OutBy, Outputs, outputs_of};
use crate::same_file::{SameFile, first_to};
use crate::tips::{tip_of, word_in};
use crate::usage::UsageError;
use crate::wrong::{
    missing_argument, missing_out, references_alone, strict_units, tipped, written_by_map,
    written_host, written_library,
};
use clap::ArgMatches;
use clap::error::ErrorKind;
use std::alloc::{AllocError, Allocator, Global};

/// What the arguments of a command line ask the program to do.
#[derive(Drop)]
pub enum Request<'a, A: Allocator> {
    /// Prints the help, which ends with a line end. Its words are clap's.
    Help(String),
    /// Prints the version.
    Version,
    /// Does what a command says.
    Task(Task<'a, A>),
}

/// What a command says, with the files and the flags that are named for it.
#[derive(Drop)]
pub enum Task<'a, A: Allocator> {
    /// Links files, and writes the linked file.
    Link(Link<'a, A>),
    /// Prints the map of a link of the inputs, and with `references` what the link stores; with
    /// `json` as JSON.
    Map {
        inputs: Inputs<'a, A>,
        references: bool,
        json: bool,
    },
    /// Prints what `file` has, with `json` as JSON.
    Show {
        file: &'a str,
        json: bool,
    },
    /// Prints the report of a check of the inputs, with `json` as JSON; if it is `strict`, a
    /// warning is reported by the status too. With `unit` a list of each of the inputs, with its
    /// units by themselves, and no report; then it is not strict.
    Check {
        inputs: Inputs<'a, A>,
        strict: bool,
        unit: bool,
        json: bool,
    },
    /// Prints a line of each of these files and of each of its segments, or the same with `json` as
    /// JSON.
    List {
        files: Vec<&'a str, A>,
        json: bool,
    },
}

/// The paths of a host and of the libraries, in the order in which units are looked up in them.
#[derive(Drop)]
pub struct Inputs<'a, A: Allocator> {
    pub host: &'a str,
    pub libraries: Vec<&'a str, A>,
}

/// A link: its files, and what it writes and prints.
#[derive(Drop)]
pub struct Link<'a, A: Allocator> {
    pub inputs: Inputs<'a, A>,
    pub outputs: Outputs<'a>,
}

/// Reads the arguments, of which the first is the program's name. A link whose OUT is a library too,
/// at this path or at another that leads there, is wrong usage, and so is one whose OUT is the host, if
/// the option names it; or whose map would be written to a file of it, or that has no map to write what
/// it stores to; and a check of units that is strict.
pub fn parse<'a, F: SameFile, A: Allocator + Copy>(
    files: &F,
    heap: Global,
    alloc: A,
    args: &'a [&'a str],
) -> Result<Request<'a, A>, UsageError>
    ensures asked { IfOk result (λ r. IsAsked (F.one_file files.now) r (named_in (texts args.now))) }

    // The help or the version only where it is asked for, and a command only where clap finds no
    // fault.
    ensures answers { IfOk result (λ r. Answers r (faults_in (texts args.now))) }
    // Where they are refused, and not for want of memory, they are wrong usage.
    ensures wrong { IfErr result (λ e. (e ≡ UsageError.Memory)
        ⊎ IsWrongUsage (F.one_file files.now) (texts args.now)) }
    ensures text { AskForText (texts args.now) → IfErr result (λ e. e ≡ UsageError.Memory) }

    // Arguments that clap accepts name a command, and ask for no help.
    ensures named { AreAccepted (texts args.now)
        → IfOk result (λ r. IsTask (F.one_file files.now) r (named_in (texts args.now))) }
{
    match matches(heap, args) {
        Ok(matches) => Ok(Request::Task(task_of(files, heap, alloc, &matches)?)),
        Err(error) => match error.kind() {
            ErrorKind::DisplayHelp => Ok(Request::Help(help_words(heap, error)?)),
            ErrorKind::DisplayVersion => Ok(Request::Version),
            _ => Err(refused(files, heap, args, error)),
        },
    }
}

/// What `clap` finds in the arguments.
fn matches<'a>(heap: Global, args: &'a [&'a str]) -> Result<ArgMatches<'a>, clap::Error>
    ensures found { IfOk result (λ m. subcommand_rows_of m ≡ named_in (texts args.now)) }
    ensures faults { FailsBy (faults_in (texts args.now)) result }
    ensures memory { AreAccepted (texts args.now)
        → IfErr result (λ e. kind_of e ≡ ErrorKind.OutOfMemory) }
{
    command(heap)?.try_get_matches_from(args)
}

/// What is said of arguments that clap refuses: where the program knows what was meant, a tip too.
fn refused<F: SameFile>(files: &F, heap: Global, args: &[&str], error: clap::Error) -> UsageError
    ensures memory { kind_of error ≡ ErrorKind.OutOfMemory → result ≡ UsageError.Memory }
{
    match error.kind() {
        ErrorKind::UnknownArgument | ErrorKind::InvalidSubcommand => match tip_of(files, args) {
            Some(tip) => tipped(heap, error.kind(), tip, word_in(args)),
            None => refused_help(heap, args, error),
        },
        _ => UsageError::from(error),
    }
}

/// What is said where the help is asked of a word that is no command: what clap says of that word, with
/// the commands that are like it.
fn refused_help(heap: Global, args: &[&str], error: clap::Error) -> UsageError {
    match refused_command(heap, args) {
        Some(other) => UsageError::from(other),
        None => UsageError::from(error),
    }
}

/// What clap says of the word of which the help is asked, where it is no command.
fn refused_command(heap: Global, args: &[&str]) -> Option<clap::Error> {
    let [program, "help", word] = args else {
        return None;
    };
    let words = [*program, *word];
    let error = refusal_of(heap, &words)?;
    if error.kind() == ErrorKind::InvalidSubcommand {
        Some(error)
    } else {
        None
    }
}

/// What clap says of arguments that it refuses.
fn refusal_of<'a>(heap: Global, args: &'a [&'a str]) -> Option<clap::Error> {
    matches(heap, args).err()
}

/// The help, whose words are clap's, and a line end where these have none.
fn help_words(heap: Global, text: clap::Error) -> Result<String, AllocError>
    ensures { IfOk result (λ words. EndsWithLine (string_bytes words)) }
{
    let mut words = text.to_string(heap)?;
    if words.as_bytes().last() != Some(&b'\n') {
        words.push('\n')?;
    }
    Ok(words)
}

/// The command that was found, with its files.
fn task_of<'a, F: SameFile, A: Allocator + Copy>(
    files: &F,
    heap: Global,
    alloc: A,
    matches: &ArgMatches<'a>,
) -> Result<Task<'a, A>, UsageError>
    ensures named { IfOk result (λ t. IsNamedCommand (F.one_file files.now) t
        (subcommand_rows_of matches.now)) }
    ensures wrong { IfErr result (λ e. (e ≡ UsageError.Memory)
        ⊎ IsWrongNamed (F.one_file files.now) (subcommand_rows_of matches.now)) }
{
    let Some((name, found)) = matches.subcommand() else {
        return Err(missing_argument(heap));
    };
    match name {
        "link" => link_of(files, heap, alloc, found),
        "map" => map_of(heap, alloc, found),
        "show" => show_of(heap, found),
        "check" => check_of(heap, alloc, found),
        "list" => list_of(alloc, found),
        _ => Err(missing_argument(heap)),
    }
}

fn link_of<'a, F: SameFile, A: Allocator + Copy>(
    files: &F,
    heap: Global,
    alloc: A,
    found: &ArgMatches<'a>,
) -> Result<Task<'a, A>, UsageError>
    ensures named { IfOk result (λ t. IsNamedCommand (F.one_file files.now) t
        (Some (codes "link", rows_of (found_of found.now)))) }
    ensures wrong { IfErr result (λ e. (e ≡ UsageError.Memory)
        ⊎ IsWrongLink (F.one_file files.now) (rows_of (found_of found.now))) }
{
    let Inputs {
        host,
        mut libraries,
    } = inputs_of(heap, alloc, found)?;
    let out = out_of(heap, found, &mut libraries)?;
    let link = Link {
        inputs: Inputs { host, libraries },
        outputs: outputs_of(found, out),
    };
    check_out(files, heap, &link)?;
    check_host(files, heap, &link)?;
    check_map(files, heap, &link)?;
    Ok(Task::Link(link))
}

/// Refuses a link that would write a library of it.
fn check_out<F: SameFile, A: Allocator>(
    files: &F,
    heap: Global,
    link: &Link<'_, A>,
) -> Result<(), UsageError>
    ensures other { IfOk result (λ _. IsOther (F.one_file files.now) link.now.outputs.out.now
        (map (λ path. path.now) link.now.inputs.libraries.items)) }
    ensures same { IfErr result (λ _. IsSame (F.one_file files.now) link.now.outputs.out.now
        (map (λ path. path.now) link.now.inputs.libraries.items)) }
{
    match overwritten(files, link.inputs.libraries.as_slice(), link.outputs.out) {
        Some(library) => Err(written_library(heap, link.outputs.out, library)),
        None => Ok(()),
    }
}

/// Refuses a link whose option names the host as the file to write.
fn check_host<F: SameFile, A: Allocator>(
    files: &F,
    heap: Global,
    link: &Link<'_, A>,
) -> Result<(), UsageError>
    ensures apart { IfOk result (λ _. IsNoHost (F.one_file files.now) link.now.outputs.options.named
        link.now.outputs.out.now link.now.inputs.host.now) }
    ensures same { IfErr result (λ _. IsHost (F.one_file files.now) link.now.outputs.options.named
        link.now.outputs.out.now link.now.inputs.host.now) }
{
    match link.outputs.options.named {
        OutBy::Place => Ok(()),
        OutBy::Option => check_host_apart(files, heap, link.outputs.out, link.inputs.host),
    }
}

/// Refuses a host that would be written, by its path or by another that leads there.
fn check_host_apart<F: SameFile>(
    files: &F,
    heap: Global,
    out: &str,
    host: &str,
) -> Result<(), UsageError>
    ensures other { IfOk result (λ _. IsOther (F.one_file files.now) out.now (host.now ∷ [])) }
    ensures same { IfErr result (λ _. IsSame (F.one_file files.now) out.now (host.now ∷ [])) }
{
    let own = [host];
    match overwritten(files, &own, out) {
        Some(_) => Err(written_host(heap, out, host)),
        None => Ok(()),
    }
}

/// Refuses a link whose map would be written to a file of it, and one that is to write what it stores
/// and has no map.
fn check_map<F: SameFile, A: Allocator>(
    files: &F,
    heap: Global,
    link: &Link<'_, A>,
) -> Result<(), UsageError>
    ensures apart { IfOk result (λ _. IsApartFrom (F.one_file files.now)
        (option_map (λ path. path.now) link.now.outputs.map) link.now.outputs.options.content
        link.now.outputs.out.now link.now.inputs.host.now (map (λ path. path.now) link.now.inputs.libraries.items)) }
    ensures wrong { IfErr result (λ _. IsWrongMap (F.one_file files.now)
        (option_map (λ path. path.now) link.now.outputs.map) link.now.outputs.options.content
        link.now.outputs.out.now link.now.inputs.host.now (map (λ path. path.now) link.now.inputs.libraries.items)) }
{
    match link.outputs.map {
        Some(file) => check_map_file(files, heap, link, file),
        None => check_content(heap, link.outputs.options.content),
    }
}

/// Refuses a link without a map that is to write what it stores.
fn check_content(heap: Global, content: MapContent) -> Result<(), UsageError>
    ensures none { IfOk result (λ _. content ≡ MapContent.Places) }
    ensures wrong { IfErr result (λ _. content ≡ MapContent.References) }
{
    match content {
        MapContent::Places => Ok(()),
        MapContent::References => Err(references_alone(heap)),
    }
}

/// Refuses a link whose map would be written to a file of it, by its path or by another that leads
/// there.
fn check_map_file<F: SameFile, A: Allocator>(
    files: &F,
    heap: Global,
    link: &Link<'_, A>,
    file: &str,
) -> Result<(), UsageError>
    ensures own { IfOk result (λ _. IsOther (F.one_file files.now) file.now
        (link.now.outputs.out.now ∷ link.now.inputs.host.now ∷ [])) }
    ensures libraries { IfOk result (λ _. IsOther (F.one_file files.now) file.now
        (map (λ path. path.now) link.now.inputs.libraries.items)) }
    ensures same { IfErr result (λ _. IsSame (F.one_file files.now) file.now
        (link.now.outputs.out.now ∷ link.now.inputs.host.now ∷ [])
        ⊎ IsSame (F.one_file files.now) file.now
        (map (λ path. path.now) link.now.inputs.libraries.items)) }
{
    let own = [link.outputs.out, link.inputs.host];
    if let Some(other) = overwritten(files, &own, file) {
        return Err(written_by_map(heap, file, other));
    }
    match overwritten(files, link.inputs.libraries.as_slice(), file) {
        Some(other) => Err(written_by_map(heap, file, other)),
        None => Ok(()),
    }
}

/// The path of the file to write: that which the option names, or else the first of these libraries,
/// which is then none of them.
// clap's `required_unless_present` would say when OUT has to be named. What its contracts say of
// arguments that are accepted holds of commands without such a rule.
#[tactic(auto, using(crate::proofs::ByRows::by_rows))]
fn out_of<'a, A: Allocator>(
    heap: Global,
    found: &ArgMatches<'a>,
    libraries: &mut Vec<&'a str, A>,
) -> Result<&'a str, UsageError>
    ensures named { IfOk result (λ out. out_among
        (first_of (codes "OUT") (rows_of (found_of found.now)))
        (map (λ path. path.now) libraries.old.items)
        ≡ Some (out.now, map (λ path. path.now) libraries.new.items)) }
    ensures none { IfErr result (λ _. out_among
        (first_of (codes "OUT") (rows_of (found_of found.now)))
        (map (λ path. path.now) libraries.old.items) ≡ None) }
{
    match found.get_str("OUT") {
        Some(out) => Ok(out),
        None => first_as_out(heap, libraries),
    }
}

/// The first of these, which is then none of them.
fn first_as_out<'a, A: Allocator>(
    heap: Global,
    libraries: &mut Vec<&'a str, A>,
) -> Result<&'a str, UsageError>
    ensures named { IfOk result (λ out. out_among None (map (λ path. path.now) libraries.old.items)
        ≡ Some (out.now, map (λ path. path.now) libraries.new.items)) }
    ensures none { IfErr result (λ _. out_among None
        (map (λ path. path.now) libraries.old.items) ≡ None) }
{
    if libraries.is_empty() {
        return Err(missing_out(heap));
    }
    Ok(libraries.remove(0))
}

/// The first of these files that is written at `out`, by its path or by another that leads there.
fn overwritten<'a, F: SameFile>(files: &F, libraries: &[&'a str], out: &'a str) -> Option<&'a str>
    ensures none { result ≡ None → IsOther (F.one_file files.now) out.entry.now
        (map (λ path. path.now) libraries.now) }
    ensures some { IfSome result (λ _. IsSame (F.one_file files.now) out.entry.now
        (map (λ path. path.now) libraries.now)) }
{
    if libraries.contains(&out) {
        return Some(out);
    }
    first_to(files, libraries, out)
}

fn map_of<'a, A: Allocator + Copy>(
    heap: Global,
    alloc: A,
    found: &ArgMatches<'a>,
) -> Result<Task<'a, A>, UsageError>
    ensures named { IfOk result (λ t. IsOtherCommand t
        (Some (codes "map", rows_of (found_of found.now)))) }
    ensures wrong { IfErr result (λ e. (e ≡ UsageError.Memory)
        ⊎ (host_of (rows_of (found_of found.now)) ≡ None)) }
{
    let inputs = inputs_of(heap, alloc, found)?;
    let references = has_flag(found, "references");
    let json = has_flag(found, "json");
    Ok(Task::Map {
        inputs,
        references,
        json,
    })
}

fn show_of<'a, A: Allocator + Copy>(
    heap: Global,
    found: &ArgMatches<'a>,
) -> Result<Task<'a, A>, UsageError>
    ensures named { IfOk result (λ t. IsOtherCommand t
        (Some (codes "show", rows_of (found_of found.now)))) }
    ensures wrong { IfErr result (λ _. file_spec (rows_of (found_of found.now)) ≡ None) }
{
    let file = file_of(heap, found, "FILE")?;
    let json = has_flag(found, "json");
    Ok(Task::Show { file, json })
}

fn check_of<'a, A: Allocator + Copy>(
    heap: Global,
    alloc: A,
    found: &ArgMatches<'a>,
) -> Result<Task<'a, A>, UsageError>
    ensures named { IfOk result (λ t. IsOtherCommand t
        (Some (codes "check", rows_of (found_of found.now)))) }
    ensures wrong { IfErr result (λ e. (e ≡ UsageError.Memory)
        ⊎ IsWrongCheck (rows_of (found_of found.now))) }
{
    let inputs = inputs_of(heap, alloc, found)?;
    let strict = has_flag(found, "strict");
    let unit = has_flag(found, "unit");
    let json = has_flag(found, "json");
    if strict && unit {
        return Err(strict_units(heap));
    }
    Ok(Task::Check {
        inputs,
        strict,
        unit,
        json,
    })
}

fn list_of<'a, A: Allocator + Copy>(
    alloc: A,
    found: &ArgMatches<'a>,
) -> Result<Task<'a, A>, UsageError>
    ensures named { IfOk result (λ t. IsOtherCommand t
        (Some (codes "list", rows_of (found_of found.now)))) }
    ensures memory { IfErr result (λ e. e ≡ UsageError.Memory) }
{
    let files = paths_of(alloc, found, "FILE")?;
    let json = has_flag(found, "json");
    Ok(Task::List { files, json })
}

fn inputs_of<'a, A: Allocator + Copy>(
    heap: Global,
    alloc: A,
    found: &ArgMatches<'a>,
) -> Result<Inputs<'a, A>, UsageError>
    ensures named { IfOk result (λ inputs. NamesInputs inputs (rows_of (found_of found.now))) }
    ensures none { IfErr result (λ e. (e ≡ UsageError.Memory)
        ⊎ (host_of (rows_of (found_of found.now)) ≡ None)) }
{
    let host = file_of(heap, found, "HOST")?;
    let libraries = paths_of(alloc, found, "LIB")?;
    Ok(Inputs { host, libraries })
}

/// The path that is given for an argument.
#[tactic(auto, using(crate::proofs::ByRows::by_rows))]
fn file_of<'a>(heap: Global, found: &ArgMatches<'a>, argument: &str) -> Result<&'a str, UsageError>
    ensures named { IfOk result (λ path. first_of argument.now (rows_of (found_of found.now))
        ≡ Some path.now) }
    ensures none { IfErr result (λ _. first_of argument.now (rows_of (found_of found.now))
        ≡ None) }
{
    match found.get_str(argument) {
        Some(path) => Ok(path),
        None => Err(missing_argument(heap)),
    }
}
