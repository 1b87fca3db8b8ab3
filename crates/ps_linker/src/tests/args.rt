//! The arguments of the command line: help, version and wrong usage.
use super::inputs::save_text;
use super::outcome::{clean, done, gives};
use super::wanted::Text;
use super::wanted::Text::{
    CheckHelp, EmptyOut, Help, LinkHelp, ListHelp, MapHelp, NoArgs, NoCheckedFile, NoCommand,
    NoFile, NoHost, NoLinkedHost, NoListedFile, NoOut, NotListed, NotThere, NotThereToCheck,
    Nothing, OutIsLibrary, ShowHelp, StrictUnits, TwoFiles, TwoOuts, UnknownOption,
    UnknownOptionOfMap, Version,
};
use std::process::Abort;
use std::rt::Files;

pub const VERSION: &str = "pslink 0.4.0\n";

pub const HELP: &str = "The Linker of UCSD Pascal II.0 for Pascal hosts and units

Usage: pslink <COMMAND>

Commands:
  link   Links a host with the units that it uses, and writes the linked file
  map    Prints where a link would put each segment and private variable, and writes no file
  show   Prints the segments of one code file and the link information of each
  check  Says in words whether the files link, what is wrong and what looks wrong
  list   Prints a line of each file and of each of its segments, made for grep
  help   Print this message or the help of the given subcommand(s)

Options:
  -h, --help     Print help
  -V, --version  Print version

Example:
  pslink link -o linked.code host.code library.code

If the files are refused, pslink check with the same files says why.

Exit status:
  0  the command was done
  1  the files are refused
  2  wrong usage
  3  a file could not be read or written, or standard output failed
  4  out of memory

A name that begins with a dash is given as ./-name, or after --. See pslink(1).
";

pub const LINK_HELP: &str = "Links a host with the units that it uses, and writes the linked file

Usage: pslink link [OPTIONS] -o <OUT> <HOST> [LIB]...
       pslink link [OPTIONS] <HOST> <OUT> [LIB]...

Arguments:
  <HOST>    The code file that holds the host program
  [LIB]...  A library to search for units, in the order given

Options:
  -o, --output <OUT>  The code file to write, which is no file of the link
      --map <FILE>    Writes the map of the link to FILE, too
      --references    Writes to FILE what the link stores at each place, too
      --json          Prints the summary and writes the map as JSON documents
  -q, --quiet         Prints no summary
  -h, --help          Print help

Example:
  pslink link -o linked.code host.code library.code

OUT is opened once everything was checked, and is written in place. If a write fails,
OUT has the first part of the linked file. A linked file is no host any more, so keep
the host:
  pslink link -o linked.new host.code library.code &&
      mv linked.new linked.code
With --map FILE the map is written to FILE once OUT is whole: what map would print of
the same files. FILE may be neither OUT nor a file of the link.
The summary is printed on standard error where the OUT of -o or FILE is standard
output, as /dev/stdout. A file is read from a pipe as /dev/stdin.

Without -o the file after HOST is OUT. If that is HOST itself, the unlinked host is lost.
If OUT is forgotten there, the first LIB is taken as OUT: a unit that it alone has is
then missing, and if none is, it is overwritten.

If the files are refused, pslink check with the same files says why.

Exit status:
  0  the command was done
  1  the files are refused
  2  wrong usage
  3  a file could not be read or written, or standard output failed
  4  out of memory

A name that begins with a dash is given as ./-name, or after --. See pslink(1).
";

pub const MAP_HELP: &str =
    "Prints where a link would put each segment and private variable, and writes no file

Usage: pslink map [OPTIONS] <HOST> [LIB]...

Arguments:
  <HOST>    The code file that holds the host program
  [LIB]...  A library to search for units, in the order given

Options:
      --references  Prints what the link stores at each place, too
      --json        Prints the same values as one JSON document
  -h, --help        Print help

Example:
  pslink map host.code library.code

With --references a line follows for each place at which the link stores bytes: its
offset in the code and in the linked file, the bytes there before and after the link,
and the record. With --json the same values are printed as one JSON document, and so is
the fault of files that are refused.

Exit status:
  0  the map was printed
  1  the files are refused
  2  wrong usage
  3  a file could not be read, or standard output failed
  4  out of memory

A name that begins with a dash is given as ./-name, or after --. See pslink(1).
";

pub const SHOW_HELP: &str = "Prints the segments of one code file and the link information of each

Usage: pslink show [OPTIONS] <FILE>

Arguments:
  <FILE>  The code file to show: a host, a library, or a linked file

Options:
      --json  Prints the same values as one JSON document
  -h, --help  Print help

Example:
  pslink show library.code

With --json the same values are printed as one JSON document, and so is the fault of a
file that is refused.

Exit status:
  0  the segments were printed
  1  the file is refused
  2  wrong usage
  3  the file could not be read, or standard output failed
  4  out of memory

A name that begins with a dash is given as ./-name, or after --. See pslink(1).
";

pub const CHECK_HELP: &str =
    "Says in words whether the files link, what is wrong and what looks wrong

Usage: pslink check [OPTIONS] <HOST> [LIB]...
       pslink check --unit [--json] <FILE>...

Arguments:
  <HOST>    The code file that holds the host program
  [LIB]...  A library to search for units, in the order given

Options:
      --strict  Ends with status 1 on a warning too
      --unit    Lists each file, and what refuses each of its units by itself
      --json    Prints the same values as one JSON document
  -h, --help    Print help

Example:
  pslink check host.code library.code

The report is for a person: the files, where each segment comes from, whether they
link, and if not what is wrong and what to do. A line that begins with 'warning: ' is
certain and no fault, one with 'note: ' is a guess, and one with 'harmless: ' changes
no link. No file is written, so leave -o OUT out. With --json the verdict, what is
found and the report are printed as one JSON document.

With --unit, the files are listed as by list, and after the lines of each file comes a
line of each unit that it has, with its first fault in a link with a host that would
define each name: so a unit can be checked before there is a host. A file without a unit
is refused.

Exit status:
  0  the files link, and there may be warnings
  1  the files are refused, or with --strict there is a warning
  2  wrong usage
  3  a file could not be read, or standard output failed
  4  out of memory

A name that begins with a dash is given as ./-name, or after --. See pslink(1).
";

pub const LIST_HELP: &str = "Prints a line of each file and of each of its segments, made for grep

Usage: pslink list [OPTIONS] <FILE>...

Arguments:
  <FILE>...  A file of any kind, as a host, a library, or a linked file

Options:
      --json  Prints the same values as one JSON document
  -h, --help  Print help

Example:
  pslink list *.code | grep 'uses AUX'

Each line begins with the name of its file: first a line of the file, and then one
for each of its segments. A segment whose code, procedure tables or link information
are refused ends with the number of the fault. A file that cannot be read is reported,
and those after it are listed. With --json the same values are printed as one JSON
document.

Exit status, the greatest that applies:
  0  all files were listed
  1  a file or a segment is refused, or a file has no segment or is no code file
  2  wrong usage
  3  a file could not be read, or standard output failed
  4  out of memory

A name that begins with a dash is given as ./-name, or after --. See pslink(1).
";

pub const NO_ARGS: &str = "error: 'pslink' requires a subcommand but one was not provided
  [subcommands: link, map, show, check, list, help]

Usage: pslink <COMMAND>

For more information, try '--help'.
";

pub const NO_COMMAND: &str = "error: unrecognized subcommand 'frob'

Usage: pslink <COMMAND>

For more information, try '--help'.
";

pub const NO_OUT: &str = "error: the following required arguments were not provided:
  <OUT>

Usage: pslink link [OPTIONS] -o <OUT> <HOST> [LIB]...
       pslink link [OPTIONS] <HOST> <OUT> [LIB]...

For more information, try '--help'.
";

pub const NO_LINKED_HOST: &str = "error: the following required arguments were not provided:
  <HOST>

Usage: pslink link [OPTIONS] -o <OUT> <HOST> [LIB]...
       pslink link [OPTIONS] <HOST> <OUT> [LIB]...

For more information, try '--help'.
";

pub const NO_HOST: &str = "error: the following required arguments were not provided:
  <HOST>

Usage: pslink map <HOST> [LIB]...

For more information, try '--help'.
";

pub const NO_CHECKED_FILE: &str = "error: the following required arguments were not provided:
  <HOST>

Usage: pslink check [OPTIONS] <HOST> [LIB]...
       pslink check --unit [--json] <FILE>...

For more information, try '--help'.
";

pub const NO_FILE: &str = "error: the following required arguments were not provided:
  <FILE>

Usage: pslink show <FILE>

For more information, try '--help'.
";

pub const NO_LISTED_FILE: &str = "error: the following required arguments were not provided:
  <FILE>...

Usage: pslink list <FILE>...

For more information, try '--help'.
";

pub const UNKNOWN_OPTION: &str = "error: unexpected argument '--frob' found

Usage: pslink <COMMAND>

For more information, try '--help'.
";

pub const UNKNOWN_OPTION_OF_MAP: &str = "error: unexpected argument '--frob' found

  tip: to pass '--frob' as a value, use '-- --frob'

Usage: pslink map [OPTIONS] <HOST> [LIB]...

For more information, try '--help'.
";

pub const TWO_FILES: &str = "error: unexpected argument 'b' found

Usage: pslink show [OPTIONS] <FILE>

For more information, try '--help'.
";

pub const OUT_IS_LIBRARY: &str = "error: invalid value 'b' for '<OUT>': it is named as a library too

Usage: pslink link [OPTIONS] -o <OUT> <HOST> [LIB]...
       pslink link [OPTIONS] <HOST> <OUT> [LIB]...

For more information, try '--help'.
";

pub const TWO_OUTS: &str = "error: the argument '--output <OUT>' cannot be used multiple times

Usage: pslink link [OPTIONS] -o <OUT> <HOST> [LIB]...
       pslink link [OPTIONS] <HOST> <OUT> [LIB]...

For more information, try '--help'.
";

pub const EMPTY_OUT: &str = "error: a value is required for '--output <OUT>' but none was supplied

For more information, try '--help'.
";

pub const STRICT_UNITS: &str = "error: the argument '--strict' cannot be used with '--unit'

Usage: pslink check [OPTIONS] <HOST> [LIB]...
       pslink check --unit [--json] <FILE>...

For more information, try '--help'.
";

pub const NOT_LISTED: &str = "{\"files\":[
{\"path\":\"not-there\",\"length\":null,\"type\":null,\"order\":null,\"contents\":null,\"fault\":null,\"segments\":[
]}
]}
";

pub const NOT_THERE: &str = "pslink: cannot read not-there\n";

pub const NOT_THERE_TO_CHECK: &str = "pslink: cannot read not-there (no such file)\n";

/// Args, and the status and the two texts that they give. HOST may be a library, or by its place OUT, and
/// no file of these is there.
static ROWS: [(&str, u8, Text, Text); 56] = [
    ("pslink --help", 0, Help, Nothing),
    ("pslink -h", 0, Help, Nothing),
    ("pslink link --help", 0, LinkHelp, Nothing),
    ("pslink map --help", 0, MapHelp, Nothing),
    ("pslink show --help", 0, ShowHelp, Nothing),
    ("pslink check --help", 0, CheckHelp, Nothing),
    ("pslink list --help", 0, ListHelp, Nothing),
    ("pslink --version", 0, Version, Nothing),
    ("pslink help", 0, Help, Nothing),
    ("pslink help link", 0, LinkHelp, Nothing),
    ("pslink help map", 0, MapHelp, Nothing),
    ("pslink help show", 0, ShowHelp, Nothing),
    ("pslink help check", 0, CheckHelp, Nothing),
    ("pslink help list", 0, ListHelp, Nothing),
    ("pslink help frob", 2, Nothing, NoCommand),
    ("pslink", 2, Nothing, NoArgs),
    ("", 2, Nothing, NoArgs),
    ("pslink frob", 2, Nothing, NoCommand),
    ("pslink --frob", 2, Nothing, UnknownOption),
    ("pslink map --frob a", 2, Nothing, UnknownOptionOfMap),
    ("pslink link", 2, Nothing, NoLinkedHost),
    ("pslink link host", 2, Nothing, NoOut),
    ("pslink map", 2, Nothing, NoHost),
    ("pslink show", 2, Nothing, NoFile),
    ("pslink list", 2, Nothing, NoListedFile),
    ("pslink check", 2, Nothing, NoCheckedFile),
    ("pslink check --strict", 2, Nothing, NoCheckedFile),
    (
        "pslink check not-there --strict",
        3,
        Nothing,
        NotThereToCheck,
    ),
    ("pslink show a b", 2, Nothing, TwoFiles),
    ("pslink link a b b", 2, Nothing, OutIsLibrary),
    ("pslink link a b c d b", 2, Nothing, OutIsLibrary),
    ("pslink link b b c b c", 2, Nothing, OutIsLibrary),
    ("pslink link -o out", 2, Nothing, NoLinkedHost),
    ("pslink link --output out", 2, Nothing, NoLinkedHost),
    ("pslink link -q", 2, Nothing, NoLinkedHost),
    ("pslink link host -q", 2, Nothing, NoOut),
    ("pslink link host -o", 2, Nothing, EmptyOut),
    ("pslink link -o a -o b host", 2, Nothing, TwoOuts),
    ("pslink link -o a host --output=b", 2, Nothing, TwoOuts),
    ("pslink link -o b a b", 2, Nothing, OutIsLibrary),
    ("pslink link a b -ob", 2, Nothing, OutIsLibrary),
    (
        "pslink link a -q c --output=b -- d b",
        2,
        Nothing,
        OutIsLibrary,
    ),
    ("pslink link -o b not-there c", 3, Nothing, NotThere),
    ("pslink link not-there -o b", 3, Nothing, NotThere),
    ("pslink map --frob -- -o", 2, Nothing, UnknownOptionOfMap),
    ("pslink link not-there b c --output d", 3, Nothing, NotThere),
    ("pslink link not-there -qo d -- b", 3, Nothing, NotThere),
    ("pslink link -o -q not-there b", 2, Nothing, EmptyOut),
    ("pslink check --unit --strict a", 2, Nothing, StrictUnits),
    ("pslink check a b --strict --unit", 2, Nothing, StrictUnits),
    (
        "pslink check --strict --json --unit a",
        2,
        Nothing,
        StrictUnits,
    ),
    ("pslink check --unit not-there", 3, Nothing, NotThereToCheck),
    (
        "pslink check --unit --json not-there",
        3,
        NotListed,
        NotThereToCheck,
    ),
    ("pslink link not-there not-there b", 3, Nothing, NotThere),
    ("pslink link not-there b not-there", 3, Nothing, NotThere),
    ("pslink link not-there b ./b B bb", 3, Nothing, NotThere),
];

const USAGE: &str = "

Usage: pslink <COMMAND>

For more information, try '--help'.
";

const USAGE_OF_MAP: &str = "

Usage: pslink map [OPTIONS] <HOST> [LIB]...

For more information, try '--help'.
";

const USAGE_OF_SHOW: &str = "

Usage: pslink show [OPTIONS] <FILE>

For more information, try '--help'.
";

const USAGE_OF_CHECK: &str = "

Usage: pslink check [OPTIONS] <HOST> [LIB]...
       pslink check --unit [--json] <FILE>...

For more information, try '--help'.
";

const USAGE_OF_LIST: &str = "

Usage: pslink list [OPTIONS] <FILE>...

For more information, try '--help'.
";

const OPTION_OF_LINK: &str = "error: unexpected argument '-o' found

  tip: 'link -o' exists";

const WORD_OF_LINK: &str = "error: unexpected argument '--output' found

  tip: 'link --output' exists";

const NO_FILE_OF_MAP: &str = "error: unexpected argument '--output' found

  tip: map writes no file: leave --output OUT out";

const NO_FILE_OF_SHOW: &str = "error: unexpected argument '-o' found

  tip: show writes no file: leave -o OUT out";

const NO_FILE_OF_CHECK: &str = "error: unexpected argument '-o' found

  tip: check writes no file: leave -o OUT out";

const NO_FILE_OF_LIST: &str = "error: unexpected argument '-o' found

  tip: list writes no file: leave -o OUT out";

const LIKE_LINK: &str = "error: unrecognized subcommand 'lnik'

  tip: a similar subcommand exists: 'link'";

const LINK_IN_CAPITALS: &str = "error: unrecognized subcommand 'LINK'

  tip: a similar subcommand exists: 'link'";

const HELP_IN_CAPITALS: &str = "error: unrecognized subcommand 'Help'

  tip: a similar subcommand exists: 'help'";

const VERSION_WORD: &str = "error: unrecognized subcommand 'version'

  tip: a similar argument exists: '--version'";

const FILE_FIRST: &str = "error: unrecognized subcommand 'tips-file'

  tip: to link files, use 'pslink link -o <OUT> <HOST> [LIB]...'";

/// Args that are wrong usage, what is said of them, and the usage after it. Of the files `tips-file` alone
/// is there.
static TIPS: [(&str, &str, &str); 18] = [
    ("pslink tips-file b", FILE_FIRST, USAGE),
    ("pslink help tips-file", FILE_FIRST, USAGE),
    ("pslink -o a tips-file", OPTION_OF_LINK, USAGE),
    ("pslink --output a b", WORD_OF_LINK, USAGE),
    ("pslink lnik", LIKE_LINK, USAGE),
    ("pslink help lnik", LIKE_LINK, USAGE),
    ("pslink LINK -o a b", LINK_IN_CAPITALS, USAGE),
    ("pslink help LINK", LINK_IN_CAPITALS, USAGE),
    ("pslink Help", HELP_IN_CAPITALS, USAGE),
    ("pslink version", VERSION_WORD, USAGE),
    ("pslink help version", VERSION_WORD, USAGE),
    ("pslink map a --output b", NO_FILE_OF_MAP, USAGE_OF_MAP),
    ("pslink show -o b a", NO_FILE_OF_SHOW, USAGE_OF_SHOW),
    (
        "pslink check -o a tips-file",
        NO_FILE_OF_CHECK,
        USAGE_OF_CHECK,
    ),
    ("pslink check a b -o c", NO_FILE_OF_CHECK, USAGE_OF_CHECK),
    (
        "pslink check --unit --frob -o a",
        NO_FILE_OF_CHECK,
        USAGE_OF_CHECK,
    ),
    ("pslink list a b -o c", NO_FILE_OF_LIST, USAGE_OF_LIST),
    ("pslink list -o -- -o", NO_FILE_OF_LIST, USAGE_OF_LIST),
];

/// Each row is wrong usage, and says what was meant.
fn says_what_is_meant<R: Files + AllocGlobal + Abort>(rt: &R) {
    save_text(rt, "tips-file", "a file of any kind");
    for (args, complained, usage) in &TIPS {
        done(rt, *args).is_wrong_usage(rt, *args, *complained, *usage);
    }
    clean(rt, "tips-file");
}

#[test]
fn wrong_usage_says_what_is_meant(rt: HostRuntime) {
    says_what_is_meant(&rt)
}

#[test]
fn args_are_taken_or_are_wrong_usage(rt: HostRuntime) {
    for (args, status, out, err) in &ROWS {
        gives(&rt, *args, *status, out.text(), err.text());
    }
}
