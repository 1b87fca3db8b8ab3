//! What was meant by arguments that clap refuses, where the program knows it.

use crate::command_line::CommandName;
use crate::same_file::SameFile;
use std::alloc::{AllocError, Global};

/// What was meant: a line of the refusal says it.
#[derive(Clone, Copy)]
pub(crate) enum Tip {
    /// This command, whose name is typed in other letters.
    Command(CommandName),
    /// The version.
    Version,
    /// This command, which pslink.mjs has alone.
    OfModule(&'static str),
    /// A link: a file stands where the command does.
    Link,
    /// A link: the option of OUT stands where the command does.
    OfLink(OutOption),
    /// This command, which writes no file, without the option of OUT.
    NoFile(CommandName, OutOption),
}

/// The option that names OUT.
#[derive(Clone, Copy)]
pub(crate) enum OutOption {
    Letter,
    Word,
}

impl OutOption {
    fn text(self) -> &'static str {
        match self {
            OutOption::Letter => "-o",
            OutOption::Word => "--output",
        }
    }
}

/// What was meant by the arguments of a program, of which the first is its name.
pub(crate) fn tip_of<F: SameFile>(files: &F, args: &[&str]) -> Option<Tip> {
    let [_, first, rest @ ..] = args else {
        return None;
    };
    if let Some(command) = without_file(first) {
        return option_among(rest).map(|option| Tip::NoFile(command, option));
    }
    if let Some(option) = out_option(first) {
        return Some(Tip::OfLink(option));
    }
    meant_by(files, word_of(first, rest))
}

/// The word that is taken for a command in the arguments of a program.
pub(crate) fn word_in<'a>(args: &[&'a str]) -> &'a str {
    match args {
        [_, first, rest @ ..] => word_of(first, rest),
        _ => "",
    }
}

/// The word that is taken for a command: the first, or that which the help is asked of.
fn word_of<'a>(first: &'a str, rest: &[&'a str]) -> &'a str {
    match rest {
        [asked, ..] if first == "help" => asked,
        _ => first,
    }
}

/// What was meant by a word that stands where a command does.
fn meant_by<F: SameFile>(files: &F, word: &str) -> Option<Tip> {
    if let Some(command) = in_letters(word) {
        return if word == command.text() {
            None
        } else {
            Some(Tip::Command(command))
        };
    }
    if word.eq_ignore_ascii_case("version") {
        return Some(Tip::Version);
    }
    if let Some(command) = of_module(word) {
        return Some(Tip::OfModule(command));
    }
    if files.lead_to_one_file(word, word) {
        return Some(Tip::Link);
    }
    None
}

/// The command of this name, in small letters or in capitals.
fn in_letters(word: &str) -> Option<CommandName> {
    [
        CommandName::Link,
        CommandName::Map,
        CommandName::Show,
        CommandName::Check,
        CommandName::List,
        CommandName::Help,
    ]
    .into_iter()
    .find(|command| word.eq_ignore_ascii_case(command.text()))
}

/// The command of this name that pslink.mjs has and this program has not.
fn of_module(word: &str) -> Option<&'static str> {
    ["volume", "picture"]
        .into_iter()
        .find(|command| word.eq_ignore_ascii_case(command))
}

/// The command of this name, if it is one that writes no file.
fn without_file(word: &str) -> Option<CommandName> {
    match word {
        "map" => Some(CommandName::Map),
        "show" => Some(CommandName::Show),
        "check" => Some(CommandName::Check),
        "list" => Some(CommandName::List),
        _ => None,
    }
}

/// The word is the option of OUT.
fn out_option(word: &str) -> Option<OutOption> {
    match word {
        "-o" => Some(OutOption::Letter),
        "--output" => Some(OutOption::Word),
        _ => None,
    }
}

/// The first of the words that is the option of OUT; behind `--` none is an option.
fn option_among(words: &[&str]) -> Option<OutOption> {
    words
        .iter()
        .take_while(|word| **word != "--")
        .find_map(|word| out_option(word))
}

impl Tip {
    /// The command whose usage the refusal has; `help` for that of the program.
    pub(crate) fn command(self) -> CommandName {
        match self {
            Tip::NoFile(command, _) => command,
            Tip::Command(_) | Tip::Version | Tip::OfModule(_) | Tip::Link | Tip::OfLink(_) => {
                CommandName::Help
            }
        }
    }

    /// What is said of the word that stands where a command does, in clap's words, with the tip.
    pub(crate) fn message(self, heap: Global, word: &str) -> Result<String, AllocError> {
        match self {
            Tip::Command(command) => similar_text(heap, word, command.text()),
            Tip::Version => version_text(heap, word),
            Tip::OfModule(command) => of_module_text(heap, word, command),
            Tip::Link => link_text(heap, word),
            Tip::OfLink(option) => of_link_text(heap, option.text()),
            Tip::NoFile(command, option) => no_file_text(heap, command.text(), option.text()),
        }
    }
}

fn similar_text(heap: Global, word: &str, name: &str) -> Result<String, AllocError> {
    format!(in heap;
        "unrecognized subcommand '{word}'\n\n  tip: a similar subcommand exists: '{name}'"
    )
}

fn version_text(heap: Global, word: &str) -> Result<String, AllocError> {
    format!(in heap;
        "unrecognized subcommand '{word}'\n\n  tip: a similar argument exists: '--version'"
    )
}

fn of_module_text(heap: Global, word: &str, name: &str) -> Result<String, AllocError> {
    format!(in heap; "unrecognized subcommand '{word}'\n\n  tip: {name} is a command of pslink.mjs")
}

fn link_text(heap: Global, word: &str) -> Result<String, AllocError> {
    format!(in heap;
        "unrecognized subcommand '{word}'\n\n  tip: to link files, use 'pslink link -o <OUT> <HOST> [LIB]...'"
    )
}

fn of_link_text(heap: Global, option: &str) -> Result<String, AllocError> {
    format!(in heap; "unexpected argument '{option}' found\n\n  tip: 'link {option}' exists")
}

fn no_file_text(heap: Global, name: &str, option: &str) -> Result<String, AllocError> {
    format!(in heap;
        "unexpected argument '{option}' found\n\n  tip: {name} writes no file: leave {option} OUT out"
    )
}
