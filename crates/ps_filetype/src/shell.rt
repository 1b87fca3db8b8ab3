//! Commands for a shell, with the paths of files in them.
ghost use Rattle.std.specs.Prelude.{◌≡◌, ◌++◌, Some, chars, codes};
ghost use Rattle.std.specs.Fmt.{WritesOnOk};
ghost use Rattle.std.specs.List.{flat_map, list_all};
ghost use Rattle.ps_filetype.specs.ShellWords.{Bare, command_words, here as here_spec, is_plain_byte as is_plain_byte_spec, is_plain_path as is_plain_path_spec, quoted_for_shell, shell_reads, shell_word, whole_word};

use std::fmt::{self, Formatter};

/// The word of a command for a path: a shell reads it as the path, whatever characters it has.
#[derive(Clone, Copy)]
struct ShellWord<'a>(&'a str);

/// The byte means itself to a shell.
fn is_plain_byte(byte: u8) -> bool
    ensures { result ≡ is_plain_byte_spec byte }
{
    matches!(byte, b'a'..=b'z' | b'@'..=b'Z' | b'+'..=b':' | b'%' | b'=' | b'_')
}

/// Each byte means itself to a shell.
fn are_plain(bytes: &[u8]) -> bool
    ensures { result ≡ list_all is_plain_byte_spec bytes.now }
{
    bytes.iter().all(|byte| is_plain_byte(*byte))
}

/// The path needs no quotes.
fn is_plain_path(path: &str) -> bool
    ensures { result ≡ is_plain_path_spec path.now }
{
    !path.is_empty() && are_plain(path.as_bytes())
}

/// Writes a character between single quotes.
fn write_character<W: fmt::Write>(f: &mut Formatter<W>, c: char) -> fmt::Result
    ensures { WritesOnOk W.write_str_gives f.old result (quoted_for_shell c) f.new }
{
    if c == '\'' {
        f.write_str("'\\''")
    } else {
        f.write_char(c)
    }
}

/// Writes the characters of a path between single quotes, one after another.
fn write_characters<W: fmt::Write>(f: &mut Formatter<W>, path: &str) -> fmt::Result
    ensures { WritesOnOk W.write_str_gives f.old result
        (flat_map quoted_for_shell (chars path.now)) f.new }
{
    for c in path.chars() {
        write_character(f, c)?;
    }
    Ok(())
}

/// What is put before a path that begins with a hyphen, or with `=`, which zsh would expand.
fn here(path: &str) -> &'static str
    ensures { result.now ≡ here_spec path.now }
{
    if path.starts_with("-") || path.starts_with("=") {
        "./"
    } else {
        ""
    }
}

impl fmt::Display for ShellWord<'_> {
    ghost output = { λ word. Some (shell_word word.0.now) };

    #[tactic(auto, unfolding(crate::specs::ShellWords::shell_word, crate::specs::ShellWords::quoted_path))]
    fn fmt<W: fmt::Write>(&self, f: &mut Formatter<W>) -> fmt::Result {
        let path = self.0;
        f.write_str(here(path))?;
        if is_plain_path(path) {
            return f.write_str(path);
        }
        f.write_str("'")?;
        write_characters(f, path)?;
        f.write_str("'")
    }
}

/// A shell reads the word for a path as the path itself, and that for the file that a command writes as
/// its path.
#[tactic(auto, using(crate::proofs::ShellWords::reads_word, crate::proofs::ShellWords::reads_whole))]
pub(crate) fn word_is_read(path: &str)
    ensures path { shell_reads Bare (shell_word path.now) ≡ Some (here_spec path.now ++ path.now) }
    ensures whole { shell_reads Bare (whole_word path.now)
        ≡ Some (here_spec path.now ++ (path.now ++ codes ".whole")) }
{
    let _path = path;
}

/// What is said around the path in a command and the file that it writes.
#[derive(Clone, Copy)]
pub(crate) struct Steps {
    pub before: &'static str,
    pub between: &'static str,
    pub after: &'static str,
    pub end: &'static str,
}

/// A command on the file at a path that writes another file, whose path is that of the file with `.whole`
/// behind it, and what to do with that. Its text is sentences.
#[derive(Clone, Copy)]
pub(crate) struct Command<'a> {
    pub steps: Steps,
    pub path: &'a str,
}

impl fmt::Display for Command<'_> {
    ghost output = { λ c. Some (command_words c.steps.before.now c.path.now c.steps.between.now
        c.steps.after.now c.steps.end.now) };

    #[tactic(auto, unfolding(crate::specs::ShellWords::command_words))]
    fn fmt<W: fmt::Write>(&self, f: &mut Formatter<W>) -> fmt::Result {
        word_is_read(self.path);
        let Steps {
            before,
            between,
            after,
            end,
        } = self.steps;
        let path = ShellWord(self.path);
        write!(
            f,
            "{before}{path}{between}{path}.whole{after}{path}.whole{end}"
        )
    }
}
