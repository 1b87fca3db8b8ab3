//! Paths as they are shown.
ghost use Rattle.std.specs.Prelude.{◌≡◌, Some, chars};
ghost use Rattle.std.specs.Fmt.{WritesOnOk};
ghost use Rattle.std.specs.List.{flat_map, list_any};
ghost use Rattle.ps_filetype.specs.Shown.{control_escape, escape_letter as escape_letter_spec, is_hidden as is_hidden_spec, is_separator as is_separator_spec, is_unseen as is_unseen_spec, other_char, quoted_char, shown_path};

use std::fmt::{self, Formatter};

/// A path in a line for a person: as it is, or, where it has a hidden character, in quotes with
/// each of these escaped. So it never ends the line, and no part of it looks like another text.
#[derive(Clone, Copy)]
pub struct ShownPath<'a>(pub &'a str);

/// The character ends a line or a paragraph.
fn is_separator(c: char) -> bool
    ensures { result ≡ is_separator_spec c }
{
    matches!(c, '\u{2028}' | '\u{2029}')
}

/// The character takes no room on a line, or turns the direction of what follows.
fn is_unseen(c: char) -> bool
    ensures { result ≡ is_unseen_spec c }
{
    matches!(
        c,
        '\u{AD}'
            | '\u{34F}'
            | '\u{61C}'
            | '\u{115F}'..='\u{1160}'
            | '\u{17B4}'..='\u{17B5}'
            | '\u{180B}'..='\u{180F}'
            | '\u{200B}'..='\u{200F}'
            | '\u{202A}'..='\u{202E}'
            | '\u{2060}'..='\u{206F}'
            | '\u{3164}'
            | '\u{FE00}'..='\u{FE0F}'
            | '\u{FEFF}'
            | '\u{FFA0}'
            | '\u{FFF0}'..='\u{FFFB}'
            | '\u{1BCA0}'..='\u{1BCA3}'
            | '\u{1D173}'..='\u{1D17A}'
            | '\u{E0000}'..='\u{E0FFF}'
    )
}

/// The character is not shown as it is: it is a control character, as the end of a line, or ends a
/// line or a paragraph, as U+2028 does, or takes no room on a line, as U+200B, or turns the direction
/// of what follows, as U+202E.
///
/// Source: this project's profile, over the Unicode Character Database.
pub fn is_hidden(c: char) -> bool
    ensures { result ≡ is_hidden_spec c }
{
    c.is_control() || is_separator(c) || is_unseen(c)
}

/// A character of the path is hidden.
pub(crate) fn has_hidden(path: &str) -> bool
    ensures { result ≡ list_any is_hidden_spec (chars path.now) }
{
    path.chars().any(is_hidden)
}

/// Writes a hidden character by its number.
fn write_escape<W: fmt::Write>(f: &mut Formatter<W>, c: char) -> fmt::Result
    ensures { WritesOnOk W.write_str_gives f.old result (control_escape c) f.new }
{
    let code = c as u32;
    write!(f, "\\u{{{code:x}}}")
}

/// The letter that stands for a character after a backslash.
fn escape_letter(c: char) -> Option<char>
    ensures { result ≡ escape_letter_spec c }
{
    match c {
        '\0' => Some('0'),
        '\t' => Some('t'),
        '\n' => Some('n'),
        '\r' => Some('r'),
        '"' => Some('"'),
        '\\' => Some('\\'),
        _ => None,
    }
}

/// Writes a character of a path in quotes that has no letter of its own.
fn write_other<W: fmt::Write>(f: &mut Formatter<W>, c: char) -> fmt::Result
    ensures { WritesOnOk W.write_str_gives f.old result (other_char c) f.new }
{
    if is_hidden(c) {
        write_escape(f, c)
    } else {
        f.write_char(c)
    }
}

/// Writes a character of a path in quotes.
#[tactic(auto, unfolding(crate::specs::Shown::quoted_char))]
fn write_character<W: fmt::Write>(f: &mut Formatter<W>, c: char) -> fmt::Result
    ensures { WritesOnOk W.write_str_gives f.old result (quoted_char c) f.new }
{
    match escape_letter(c) {
        Some(letter) => write!(f, "\\{letter}"),
        None => write_other(f, c),
    }
}

/// Writes the characters of a path in quotes, one after another.
fn write_quoted<W: fmt::Write>(f: &mut Formatter<W>, path: &str) -> fmt::Result
    ensures { WritesOnOk W.write_str_gives f.old result (flat_map quoted_char (chars path.now))
        f.new }
{
    for c in path.chars() {
        write_character(f, c)?;
    }
    Ok(())
}

impl fmt::Display for ShownPath<'_> {
    ghost output = { λ path. Some (shown_path path.0.now) };

    #[tactic(auto, unfolding(crate::specs::Shown::shown_path))]
    fn fmt<W: fmt::Write>(&self, f: &mut Formatter<W>) -> fmt::Result {
        let path = self.0;
        if !has_hidden(path) {
            return f.write_str(path);
        }
        f.write_str("\"")?;
        write_quoted(f, path)?;
        f.write_str("\"")
    }
}
