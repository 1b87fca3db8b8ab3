//! Code files that tests make from text: statements with semicolons between them, each of which
//! changes what is in the file.
//!
//! | Statement | What it changes |
//! |---|---|
//! | `slot 7 name UTIL kind 3 address 1 length 24` | these parts of a slot, or some of them |
//! | `at 300 2A07` | the bytes from a place of the file on |
//! | `code 1 18 2A07` | the bytes from a place of the code on that begins with a block |
//! | `word 1 4 18` | a word of the code that begins with a block |
//! | `fill 512 510 D7` | so many bytes from a place of the file on |
//! | `names 64 UTIL AUX` | the names from a place of the file on; a dash is a name of blanks |
//! | `demo-code 1` | the base host's code, from a block's start on |
//! | `util-code 2 7` | the base unit's code with this segment number |
//! | `records 2` | nothing: the records behind it, as `EOFMARK next 0`, are from this block on |
//! | `size 2048` | the file's length: it is truncated, or made longer by zeros |
//!
//! Each statement changes a byte or the length; of a list of records one does. Where none does, where a
//! byte would lie past the file's end, and where a record is behind no `records`, the file is not right.
use crate::base::{BASE_LENGTH, demo_code, util_code};
use crate::information::{Information, bytes_of, put};
use crate::texts::TEXTS;
use crate::words::{Words, behind_name};
use ps_words::{BLOCK_SIZE, Order};
use std::alloc::Global;

/// Where the names and the kinds of a segment dictionary begin.
const NAMES: usize = 64;

const KINDS: usize = 192;

/// The bytes of a slot's pair of address and length, of its name and of a word.
const PAIR_SIZE: usize = 4;

const NAME_SIZE: usize = 8;

const WORD_SIZE: usize = 2;

/// A code file that is being made: its bytes, and the order of its words.
#[derive(Drop)]
pub struct CodeFile {
    order: Order,
    bytes: Vec<u8>,
    /// Where the next record is written, after a `records`.
    record: Option<usize>,
    /// Whether the last statement changed the file, or the last list of records.
    has_changed: bool,
    is_right: bool,
}

impl CodeFile {
    /// A file of three blocks, all 0 but for the names, which are blank, with the texts of these
    /// names, one after the other.
    pub fn new(alloc: Global, order: Order, names: &str) -> CodeFile {
        let mut file = CodeFile {
            order,
            bytes: Vec::new(alloc),
            record: None,
            has_changed: false,
            is_right: true,
        };
        file.resize(BASE_LENGTH);
        file.put(NAMES, &[b' '; KINDS - NAMES]);
        for name in names.split_whitespace() {
            file.add_text(alloc, name);
        }
        file
    }

    /// The file's bytes.
    pub fn as_slice(&self) -> &[u8] {
        self.bytes.as_slice()
    }

    /// Whether each change could be made, and changed the file.
    pub fn is_right(&self) -> bool {
        self.is_right
    }

    fn add_text(&mut self, alloc: Global, name: &str) {
        let text = behind_name(TEXTS, ": ", name);
        self.holds(text.is_some());
        self.change(alloc, text.unwrap_or(""))
    }

    /// Puts bytes at a place of the file.
    pub fn put(&mut self, place: usize, bytes: &[u8]) {
        let has_changed = put(self.bytes.as_mut_slice(), place, bytes);
        self.holds(has_changed.is_some());
        self.has_changed = self.has_changed || has_changed.unwrap_or(false)
    }

    /// Makes these changes.
    pub fn change(&mut self, alloc: Global, changes: &str) {
        self.has_changed = true;
        for statement in changes.split(';') {
            self.make(alloc, statement);
        }
        self.settle()
    }

    /// Makes the change of a statement, if it has any word.
    fn make(&mut self, alloc: Global, statement: &str) {
        let mut words = Words::of(statement);
        if let Some(kind) = words.next() {
            self.state(alloc, kind, &mut words);
            self.holds(words.is_right())
        }
    }

    /// This has to be so.
    fn holds(&mut self, is_so: bool) {
        self.is_right = self.is_right && is_so
    }

    /// What is before this statement has to have changed the file.
    fn settle(&mut self) {
        self.holds(self.has_changed);
        self.has_changed = false;
        self.record = None
    }

    /// Makes the change of a statement: its first word, and the words behind it.
    fn state(&mut self, alloc: Global, kind: &str, words: &mut Words<'_>) {
        if let Some(b'A'..=b'Z') = kind.as_bytes().first() {
            return self.add_record(alloc, kind, words);
        }
        self.settle();
        self.state_change(kind, words)
    }

    /// Makes the change of a statement that is no record.
    fn state_change(&mut self, kind: &str, words: &mut Words<'_>) {
        match kind {
            "slot" => self.slot(words),
            "at" => self.at(words),
            "code" => self.code(words),
            "word" => self.code_word(words),
            "fill" => self.fill(words),
            _ => self.state_part(kind, words),
        }
    }

    /// Makes the change of a statement that is about a whole part of the file.
    fn state_part(&mut self, kind: &str, words: &mut Words<'_>) {
        match kind {
            "size" => self.resize(words.number()),
            "names" => self.names(words),
            "records" => self.record = Some(code_place(words.word(), 0)),
            "demo-code" => self.put(code_place(words.word(), 0), &demo_code(self.order)),
            "util-code" => self.util(words),
            _ => words.holds(false),
        }
    }

    fn resize(&mut self, size: usize) {
        self.has_changed = size != self.bytes.len();
        let is_made = self.bytes.resize(size, 0).is_ok();
        self.holds(is_made)
    }

    fn at(&mut self, words: &mut Words<'_>) {
        self.hex(words.number(), words)
    }

    fn code(&mut self, words: &mut Words<'_>) {
        self.hex(place_in_code(words), words)
    }

    fn code_word(&mut self, words: &mut Words<'_>) {
        self.word(place_in_code(words), words)
    }

    fn slot(&mut self, words: &mut Words<'_>) {
        let slot = words.word();
        words.holds(slot < 16);
        for _ in 0..4 {
            if let Some(part) = words.next() {
                self.slot_part(slot, part, words);
            }
        }
    }

    /// A part of a slot.
    fn slot_part(&mut self, slot: u16, part: &str, words: &mut Words<'_>) {
        if part == "name" {
            self.put(NAMES + NAME_SIZE * usize::from(slot), &words.name())
        } else {
            self.word(word_place(words, slot, part), words)
        }
    }

    fn util(&mut self, words: &mut Words<'_>) {
        let place = code_place(words.word(), 0);
        self.put(place, &util_code(self.order, words.byte()))
    }

    /// Bytes in two hexadecimal digits each.
    fn hex(&mut self, place: usize, words: &mut Words<'_>) {
        let digits = words.next().unwrap_or("no bytes").as_bytes();
        let mut place = place;
        for pair in digits.chunks(2) {
            self.hex_byte(place, pair, words);
            place = place.saturating_add(1);
        }
    }

    fn hex_byte(&mut self, place: usize, pair: &[u8], words: &mut Words<'_>) {
        let byte = words.hex(str::from_utf8(pair).unwrap_or("no text"));
        self.put(place, &[byte])
    }

    /// So many bytes of one value.
    fn fill(&mut self, words: &mut Words<'_>) {
        let place = words.number();
        let count = words.number();
        let digits = words.next().unwrap_or("no byte");
        let byte = words.hex(digits);
        for k in 0..count {
            self.put(place.saturating_add(k), &[byte]);
        }
    }

    fn names(&mut self, words: &mut Words<'_>) {
        let place = words.number();
        for k in 0..16 {
            if let Some(word) = words.next() {
                self.put(place.saturating_add(NAME_SIZE * k), &words.name_of(word));
            }
        }
    }

    /// Writes a record behind the one before it.
    fn add_record(&mut self, alloc: Global, kind: &str, words: &mut Words<'_>) {
        let mut information = Information::empty(alloc, self.order);
        information.record(kind, words);
        self.holds(information.is_right());
        self.put_record(information.as_slice())
    }

    fn put_record(&mut self, bytes: &[u8]) {
        let record = self.record;
        self.holds(record.is_some());
        let place = record.unwrap_or(0);
        self.put(place, bytes);
        self.record = Some(place.saturating_add(bytes.len()))
    }

    /// The next word, as a number of two bytes.
    fn word(&mut self, place: usize, words: &mut Words<'_>) {
        self.put(place, &bytes_of(self.order, words.word()))
    }
}

/// Where the word of a slot is that this part of a statement names.
fn word_place(words: &mut Words<'_>, slot: u16, part: &str) -> usize {
    let slot = usize::from(slot);
    match part {
        "kind" => KINDS + WORD_SIZE * slot,
        "address" => PAIR_SIZE * slot,
        "length" => PAIR_SIZE * slot + WORD_SIZE,
        _ => {
            words.holds(false);
            0
        }
    }
}

/// The next two words, a block and a place of the code that begins with it, as a place of the file.
fn place_in_code(words: &mut Words<'_>) -> usize {
    let block = words.word();
    code_place(block, words.number())
}

/// Where a place of the code is in the file that begins with a block.
fn code_place(block: u16, place: usize) -> usize {
    (BLOCK_SIZE * usize::from(block)).saturating_add(place)
}
