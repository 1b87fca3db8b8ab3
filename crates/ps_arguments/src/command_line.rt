//! What the command line accepts, as a table, and the command of clap that it makes.
ghost use Rattle.std.specs.Prelude.{◌≡◌, IfOk, None, Some, fold};
ghost use Rattle.clap.specs.Words.{App, app_of, new_app};
ghost use Rattle.ps_arguments.specs.CommandLine.{IsArgument, IsMade, app_in, bare_app, files_rule, flag_rule, name_of, pslink_app, rule_in, value_rule, with_form};

use Argument::{AnyFiles, File, Files, Flag, LetteredFlag, LetteredValue, Value};
use clap::{Arg, ArgAction, Command};
use std::alloc::{AllocError, Global};

/// What the help of the program ends with.
const ENDING: &str = "Example:
  pslink link -o linked.code host.code library.code

If the files are refused, pslink check with the same files says why.

Exit status:
  0  the command was done
  1  the files are refused
  2  wrong usage
  3  a file could not be read or written, or standard output failed
  4  out of memory

A name that begins with a dash is given as ./-name, or after --. See pslink(1).";

/// What the help of `link` names as its usage: with OUT by its option, and as the file after HOST.
const LINK_USAGE: &str = "pslink link [OPTIONS] -o <OUT> <HOST> [LIB]...
       pslink link [OPTIONS] <HOST> <OUT> [LIB]...";

/// What the help of `link` ends with.
const LINK_ENDING: &str = "Example:
  pslink link -o linked.code host.code library.code

OUT is opened once everything was checked, and is written in place. If a write fails,
OUT has the first part of the linked file. A linked file is no host any more, so keep
the host:
  pslink link -o linked.new host.code library.code &&
      mv linked.new linked.code
With --map FILE the map is written to FILE once OUT is whole: what map would print of
the same files. FILE may be neither OUT nor a file of the link.
The summary is printed on standard error where the OUT of -o or FILE is standard
output, as /dev/stdout. A file is read from a pipe as /dev/stdin.

Without -o the file after HOST is OUT. If that is HOST itself, the unlinked host is lost.
If OUT is forgotten there, the first LIB is taken as OUT: a unit that it alone has is
then missing, and if none is, it is overwritten.

If the files are refused, pslink check with the same files says why.

Exit status:
  0  the command was done
  1  the files are refused
  2  wrong usage
  3  a file could not be read or written, or standard output failed
  4  out of memory

A name that begins with a dash is given as ./-name, or after --. See pslink(1).";

/// What the help of `check` names as its usage: of a link, and of units by themselves.
const CHECK_USAGE: &str = "pslink check [OPTIONS] <HOST> [LIB]...
       pslink check --unit [--json] <FILE>...";

/// What the help of `map` ends with.
const MAP_ENDING: &str = "Example:
  pslink map host.code library.code

With --references a line follows for each place at which the link stores bytes: its
offset in the code and in the linked file, the bytes there before and after the link,
and the record. With --json the same values are printed as one JSON document, and so is
the fault of files that are refused.

Exit status:
  0  the map was printed
  1  the files are refused
  2  wrong usage
  3  a file could not be read, or standard output failed
  4  out of memory

A name that begins with a dash is given as ./-name, or after --. See pslink(1).";

/// What the help of `show` ends with.
const SHOW_ENDING: &str = "Example:
  pslink show library.code

With --json the same values are printed as one JSON document, and so is the fault of a
file that is refused.

Exit status:
  0  the segments were printed
  1  the file is refused
  2  wrong usage
  3  the file could not be read, or standard output failed
  4  out of memory

A name that begins with a dash is given as ./-name, or after --. See pslink(1).";

/// What the help of `check` ends with.
const CHECK_ENDING: &str = "Example:
  pslink check host.code library.code

The report is for a person: the files, where each segment comes from, whether they
link, and if not what is wrong and what to do. A line that begins with 'warning: ' is
certain and no fault, one with 'note: ' is a guess, and one with 'harmless: ' changes
no link. No file is written, so leave -o OUT out. With --json the verdict, what is
found and the report are printed as one JSON document.

With --unit, the files are listed as by list, and after the lines of each file comes a
line of each unit that it has, with its first fault in a link with a host that would
define each name: so a unit can be checked before there is a host. A file without a unit
is refused.

Exit status:
  0  the files link, and there may be warnings
  1  the files are refused, or with --strict there is a warning
  2  wrong usage
  3  a file could not be read, or standard output failed
  4  out of memory

A name that begins with a dash is given as ./-name, or after --. See pslink(1).";

/// What the help of `list` ends with.
const LIST_ENDING: &str = "Example:
  pslink list *.code | grep 'uses AUX'

Each line begins with the name of its file: first a line of the file, and then one
for each of its segments. A segment whose code, procedure tables or link information
are refused ends with the number of the fault. A file that cannot be read is reported,
and those after it are listed. With --json the same values are printed as one JSON
document.

Exit status, the greatest that applies:
  0  all files were listed
  1  a file or a segment is refused, or a file has no segment or is no code file
  2  wrong usage
  3  a file could not be read, or standard output failed
  4  out of memory

A name that begins with a dash is given as ./-name, or after --. See pslink(1).";

/// An argument of a command: its name, and what the help says of it.
#[derive(Clone, Copy)]
enum Argument {
    /// A file that has to be named.
    File(&'static str, &'static str),
    /// Files, of which at least one has to be named.
    Files(&'static str, &'static str),
    /// Files, of which none has to be named.
    AnyFiles(&'static str, &'static str),
    /// An option without a value.
    Flag(&'static str, &'static str),
    /// An option without a value, and its letter.
    LetteredFlag(&'static str, char, &'static str),
    /// An option with a value: the value, and its name.
    Value(&'static str, &'static str, &'static str),
    /// An option with a value, and its letter.
    LetteredValue(&'static str, &'static str, char, &'static str),
}

/// What the help of a command ends with: the table of the commands names the texts and does not hold
/// them.
#[derive(Clone, Copy)]
enum Ending {
    Link,
    Map,
    Show,
    Check,
    List,
}

impl Ending {
    fn text(self) -> &'static str {
        match self {
            Ending::Link => LINK_ENDING,
            Ending::Map => MAP_ENDING,
            Ending::Show => SHOW_ENDING,
            Ending::Check => CHECK_ENDING,
            Ending::List => LIST_ENDING,
        }
    }

    /// What the help names as the usage; none where clap makes it of the arguments.
    fn usage(self) -> Option<&'static str> {
        match self {
            Ending::Link => Some(LINK_USAGE),
            Ending::Check => Some(CHECK_USAGE),
            Ending::Map | Ending::Show | Ending::List => None,
        }
    }
}

/// A command: its name, what the help says of it and ends with, and its arguments.
#[derive(Clone, Copy)]
struct CommandForm {
    name: &'static str,
    about: &'static str,
    ending: Ending,
    arguments: &'static [Argument],
}

const HOST: Argument = File("HOST", "The code file that holds the host program");

const LIBRARIES: Argument = AnyFiles("LIB", "A library to search for units, in the order given");

const JSON: Argument = Flag("json", "Prints the same values as one JSON document");

const LINK: CommandForm = CommandForm {
    name: "link",
    about: "Links a host with the units that it uses, and writes the linked file",
    ending: Ending::Link,
    arguments: &[
        HOST,
        LIBRARIES,
        LetteredValue(
            "OUT",
            "output",
            'o',
            "The code file to write, which is no file of the link",
        ),
        Value("FILE", "map", "Writes the map of the link to FILE, too"),
        Flag(
            "references",
            "Writes to FILE what the link stores at each place, too",
        ),
        Flag(
            "json",
            "Prints the summary and writes the map as JSON documents",
        ),
        LetteredFlag("quiet", 'q', "Prints no summary"),
    ],
};

const CHECK: CommandForm = CommandForm {
    name: "check",
    about: "Says in words whether the files link, what is wrong and what looks wrong",
    ending: Ending::Check,
    arguments: &[
        HOST,
        LIBRARIES,
        Flag("strict", "Ends with status 1 on a warning too"),
        Flag(
            "unit",
            "Lists each file, and what refuses each of its units by itself",
        ),
        JSON,
    ],
};

const MAP: CommandForm = CommandForm {
    name: "map",
    about: "Prints where a link would put each segment and private variable, and writes no file",
    ending: Ending::Map,
    arguments: &[
        HOST,
        LIBRARIES,
        Flag(
            "references",
            "Prints what the link stores at each place, too",
        ),
        JSON,
    ],
};

const SHOW: CommandForm = CommandForm {
    name: "show",
    about: "Prints the segments of one code file and the link information of each",
    ending: Ending::Show,
    arguments: &[
        File(
            "FILE",
            "The code file to show: a host, a library, or a linked file",
        ),
        JSON,
    ],
};

const LIST: CommandForm = CommandForm {
    name: "list",
    about: "Prints a line of each file and of each of its segments, made for grep",
    ending: Ending::List,
    arguments: &[
        Files(
            "FILE",
            "A file of any kind, as a host, a library, or a linked file",
        ),
        JSON,
    ],
};

/// The commands, in the order in which the help names them.
static FORMS: [CommandForm; 5] = [LINK, MAP, SHOW, CHECK, LIST];

/// The name of a command.
#[derive(Clone, Copy)]
pub(crate) enum CommandName {
    Link,
    Map,
    Show,
    Check,
    List,
    Help,
}

impl CommandName {
    pub(crate) fn text(self) -> &'static str
        ensures { result.now ≡ name_of self }
    {
        match self {
            CommandName::Link => "link",
            CommandName::Map => "map",
            CommandName::Show => "show",
            CommandName::Check => "check",
            CommandName::List => "list",
            CommandName::Help => "help",
        }
    }
}

/// What the command line accepts.
pub(crate) fn command<'a>(heap: Global) -> Result<Command<'a>, AllocError>
    ensures { IfOk result (λ c. app_of c ≡ pslink_app) }
{
    with_commands(bare_command(heap), heap, &FORMS)
}

/// The command of this name, with the name that its usage has.
pub(crate) fn command_named<'a>(
    heap: Global,
    name: CommandName,
) -> Result<Command<'a>, AllocError> {
    match name {
        CommandName::Link => command_of(heap, &LINK)?.bin_name("pslink link"),
        CommandName::Map => command_of(heap, &MAP)?.bin_name("pslink map"),
        CommandName::Show => command_of(heap, &SHOW)?.bin_name("pslink show"),
        CommandName::Check => command_of(heap, &CHECK)?.bin_name("pslink check"),
        CommandName::List => command_of(heap, &LIST)?.bin_name("pslink list"),
        CommandName::Help => command(heap),
    }
}

/// The program, of which a command is required, without its commands.
fn bare_command<'a>(heap: Global) -> Command<'a>
    ensures { app_of result ≡ bare_app }
{
    Command::new(heap, "pslink")
        .version("0.4.0")
        .about("The Linker of UCSD Pascal II.0 for Pascal hosts and units")
        .after_help(ENDING)
        .subcommand_required(true)
}

/// Adds the commands of these forms.
fn with_commands<'a>(
    app: Command<'a>,
    heap: Global,
    forms: &[CommandForm],
) -> Result<Command<'a>, AllocError>
    ensures { (whole : App) → app_of app.entry ≡ whole
        → IfOk result (λ c. app_of c ≡ fold with_form whole forms.now) }
{
    let mut app = app;
    for form in forms {
        app = with_command(app, heap, form)?;
    }
    Ok(app)
}

/// Adds the command of this form.
fn with_command<'a>(
    app: Command<'a>,
    heap: Global,
    form: &CommandForm,
) -> Result<Command<'a>, AllocError>
    ensures { IfOk result (λ c. app_of c ≡ with_form (app_of app.entry) form.now) }
{
    app.subcommand(command_of(heap, form)?)
}

fn command_of<'a>(heap: Global, form: &CommandForm) -> Result<Command<'a>, AllocError>
    ensures { IfOk result (IsMade (app_in form.now)) }
{
    let mut command = bare_command_of(heap, form);
    for argument in form.arguments {
        command = command.arg(argument_of(heap, *argument))?;
    }
    Ok(command)
}

/// The command of this form without its arguments.
fn bare_command_of<'a>(heap: Global, form: &CommandForm) -> Command<'a>
    ensures { IsMade (new_app form.now.name.now) result }
{
    let command = Command::new(heap, form.name)
        .about(form.about)
        .after_help(form.ending.text());
    match form.ending.usage() {
        Some(usage) => command.override_usage(usage),
        None => command,
    }
}

fn argument_of<'a>(heap: Global, form: Argument) -> Arg<'a>
    ensures { IsArgument (rule_in form) result }
{
    match form {
        File(name, help) => file(heap, name, help, ArgAction::Set, true),
        Files(name, help) => file(heap, name, help, ArgAction::Append, true),
        AnyFiles(name, help) => file(heap, name, help, ArgAction::Append, false),
        Flag(name, help) => flag(heap, name, help),
        LetteredFlag(name, letter, help) => flag_by_letter(heap, name, letter, help),
        Value(id, name, help) => value(heap, id, name, help),
        LetteredValue(id, name, letter, help) => value_by_letter(heap, id, name, letter, help),
    }
}

/// A file, or with `Append` files, and whether one has to be named.
fn file<'a>(
    heap: Global,
    name: &'a str,
    help: &'a str,
    action: ArgAction,
    required: bool,
) -> Arg<'a>
    ensures { IsArgument (files_rule name.entry.now action required) result }
{
    Arg::new(heap, name)
        .required(required)
        .action(action)
        .help(help)
}

/// An option without a value.
fn flag<'a>(heap: Global, name: &'a str, help: &'a str) -> Arg<'a>
    ensures { IsArgument (flag_rule name.entry.now None) result }
{
    Arg::new(heap, name)
        .long(name)
        .action(ArgAction::SetTrue)
        .help(help)
}

/// A flag with a letter too.
fn flag_by_letter<'a>(heap: Global, name: &'a str, letter: char, help: &'a str) -> Arg<'a>
    ensures { IsArgument (flag_rule name.entry.now (Some letter)) result }
{
    flag(heap, name, help).short(letter)
}

/// An option whose value has this name.
fn value<'a>(heap: Global, id: &'a str, name: &'a str, help: &'a str) -> Arg<'a>
    ensures { IsArgument (value_rule id.entry.now name.entry.now None) result }
{
    Arg::new(heap, id)
        .long(name)
        .action(ArgAction::Set)
        .help(help)
}

/// An option with a value, and a letter too.
fn value_by_letter<'a>(
    heap: Global,
    id: &'a str,
    name: &'a str,
    letter: char,
    help: &'a str,
) -> Arg<'a>
    ensures { IsArgument (value_rule id.entry.now name.entry.now (Some letter)) result }
{
    value(heap, id, name, help).short(letter)
}
