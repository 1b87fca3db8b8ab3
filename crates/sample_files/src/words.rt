//! The words of the texts by which files and records are described.
use crate::information::Name;
use std::str::SplitWhitespace;

/// A name of blanks.
const BLANK: Name = [b' '; 8];

/// The words of a statement that are not read yet. A word that is not there, or is not what is looked
/// for, makes the statement wrong.
#[derive(Drop)]
pub(crate) struct Words<'a> {
    words: SplitWhitespace<'a>,
    is_right: bool,
}

impl<'a> Words<'a> {
    /// All words of a statement.
    pub(crate) fn of(statement: &'a str) -> Words<'a> {
        Words {
            words: statement.split_whitespace(),
            is_right: true,
        }
    }

    /// The next word, if there is one.
    pub(crate) fn next(&mut self) -> Option<&'a str> {
        self.words.next()
    }

    /// Whether each word was right, and none is left.
    pub(crate) fn is_right(&mut self) -> bool {
        self.is_right && self.words.next().is_none()
    }

    /// This has to be so.
    pub(crate) fn holds(&mut self, is_so: bool) {
        self.is_right = self.is_right && is_so
    }

    /// The next word as a number.
    pub(crate) fn number(&mut self) -> usize {
        let number = self.words.next().unwrap_or("").parse();
        self.holds(number.is_ok());
        number.unwrap_or(0)
    }

    /// The next word as a number of sixteen bits.
    pub(crate) fn word(&mut self) -> u16 {
        let number = u16::try_from(self.number());
        self.holds(number.is_ok());
        number.unwrap_or(0)
    }

    /// The next word as a number of eight bits.
    pub(crate) fn byte(&mut self) -> u8 {
        let number = u8::try_from(self.number());
        self.holds(number.is_ok());
        number.unwrap_or(0)
    }

    /// A byte in two hexadecimal digits.
    pub(crate) fn hex(&mut self, digits: &str) -> u8 {
        let byte = u8::from_str_radix(digits, 16);
        self.holds(digits.len() == 2 && byte.is_ok());
        byte.unwrap_or(0)
    }

    /// The number behind a word that says what it is.
    pub(crate) fn value(&mut self, what: &str) -> u16 {
        self.is_next(what);
        self.word()
    }

    /// The next word has to be this one.
    pub(crate) fn is_next(&mut self, what: &str) {
        let next = self.words.next();
        self.holds(next == Some(what))
    }

    /// The next word as a name.
    pub(crate) fn name(&mut self) -> Name {
        let word = self.words.next().unwrap_or("no name is there");
        self.name_of(word)
    }

    /// A name of eight bytes at most, filled up with blanks; a dash is the name of blanks.
    pub(crate) fn name_of(&mut self, word: &str) -> Name {
        let word = if word == "-" { "" } else { word };
        self.holds(word.len() <= 8);
        let mut name = BLANK;
        for (to, from) in name.iter_mut().zip(word.as_bytes()) {
            *to = *from;
        }
        name
    }
}

/// What stands behind a name and this mark in the line of a text that begins with them.
pub fn behind_name<'a>(text: &'a str, mark: &str, name: &str) -> Option<&'a str> {
    for line in text.lines() {
        if let Some((found, rest)) = line.split_once(mark) {
            if found == name {
                return Some(rest);
            }
        }
    }
    None
}
