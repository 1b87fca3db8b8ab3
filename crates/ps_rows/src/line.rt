//! Texts of what a call answers, made word by word.
use crate::notation::holds;
use std::alloc::Global;
use std::fmt::{Debug, Display};
use std::process::Abort;

/// A text that is being made; it is none once memory was wanting.
#[derive(Drop)]
pub struct Line {
    text: String,
    is_whole: bool,
}

impl Line {
    /// No text yet.
    pub fn new(alloc: Global) -> Line {
        Line {
            text: String::new(alloc),
            is_whole: true,
        }
    }

    /// A line of this text.
    pub fn of(alloc: Global, text: &str) -> Line {
        let mut line = Line::new(alloc);
        line.word(text);
        line
    }

    /// Adds a text.
    pub fn word(&mut self, word: &str) {
        if self.text.push_str(word).is_err() {
            self.is_whole = false;
        }
    }

    /// Adds lines, which have semicolons between them.
    pub fn lines(&mut self, lines: &str) {
        for line in lines.split(';') {
            self.word(line);
            self.word("\n");
        }
    }

    /// Adds a text, and a number behind it.
    pub fn number(&mut self, word: &str, number: usize) {
        if write!(self.text, "{word}{number}").is_err() {
            self.is_whole = false;
        }
    }

    /// Adds a name, which is ASCII.
    pub fn name(&mut self, name: &[u8]) {
        self.word(str::from_utf8(name).unwrap_or("no text"))
    }

    /// Adds a text, and a value behind it as `Debug` prints it.
    pub fn value<D: Debug>(&mut self, word: &str, value: &D) {
        if write!(self.text, "{word}{value:?}").is_err() {
            self.is_whole = false;
        }
    }

    /// Adds a value as `Display` prints it.
    pub fn shown<D: Display>(&mut self, value: &D) {
        if write!(self.text, "{value}").is_err() {
            self.is_whole = false;
        }
    }

    /// The text, for which there has to be memory.
    pub fn text(self, rt: &impl Abort) -> String {
        let Line { text, is_whole } = self;
        holds(rt, is_whole, "no memory");
        text
    }
}
