//! Link information that tests write as `show` does: `PUBLREF COUNT at 1 4; PRIVREF STATE words 4
//! at 7; EOFMARK next 0`.
use crate::words::Words;
use ps_words::Order;
use std::alloc::Global;

/// A name in a segment dictionary or a record: eight bytes, padded with blanks.
pub type Name = [u8; 8];

/// The type words of link records (the published II.0 Linker source).
const END_MARK: u16 = 0;

const UNIT_REFERENCE: u16 = 1;

const PUBLIC_REFERENCE: u16 = 3;

const PRIVATE_REFERENCE: u16 = 4;

const PUBLIC_DEFINITION: u16 = 7;

const CONSTANT_DEFINITION: u16 = 8;

/// The format words of reference records.
const BYTE_FORMAT: u16 = 1;

const BIG_FORMAT: u16 = 2;

/// The name of an EOFMARK, which no one reads.
const NO_NAME: Name = [b' '; 8];

/// How many references a piece of a record's list holds.
const REFERENCES_PER_PIECE: u16 = 8;

/// The bytes of a record before its list, and where the number of its references is in them.
const HEAD_SIZE: usize = 16;

const COUNT_PLACE: usize = 12;

/// Link information: the bytes of its records, in one byte order.
#[derive(Drop)]
pub struct Information {
    order: Order,
    bytes: Vec<u8>,
    is_right: bool,
}

impl Information {
    /// No records.
    pub fn empty(alloc: Global, order: Order) -> Information {
        Information {
            order,
            bytes: Vec::new(alloc),
            is_right: true,
        }
    }

    /// The records of a text, one after the other, each with its list.
    pub fn new(alloc: Global, order: Order, text: &str) -> Information {
        let mut information = Information::empty(alloc, order);
        for record in text.split(';') {
            information.add(record);
        }
        information
    }

    /// The records' bytes.
    pub fn as_slice(&self) -> &[u8] {
        self.bytes.as_slice()
    }

    /// Whether each record is one, and there was memory for all.
    pub fn is_right(&self) -> bool {
        self.is_right
    }

    /// Adds the record of a text, if it has any word.
    fn add(&mut self, record: &str) {
        let mut words = Words::of(record);
        if let Some(kind) = words.next() {
            self.record(kind, &mut words);
            self.is_right = words.is_right() && self.is_right;
        }
    }

    /// Adds a record: its kind, and the words behind it.
    pub(crate) fn record(&mut self, kind: &str, words: &mut Words<'_>) {
        match kind {
            "UNITREF" => self.references(UNIT_REFERENCE, BYTE_FORMAT, words),
            "PUBLREF" => self.references(PUBLIC_REFERENCE, BIG_FORMAT, words),
            "PRIVREF" => self.private(words),
            "PUBLDEF" => self.definition(PUBLIC_DEFINITION, words),
            "CONSTDEF" => self.definition(CONSTANT_DEFINITION, words),
            _ => self.other_record(kind, words),
        }
    }

    /// Adds a record that neither refers to a name nor defines one.
    fn other_record(&mut self, kind: &str, words: &mut Words<'_>) {
        match kind {
            "EOFMARK" => self.head(&NO_NAME, END_MARK, [words.value("next"), 0, 0]),
            "TYPE" => self.other(words),
            _ => words.holds(false),
        }
    }

    /// UNITREF and PUBLREF: the name, and the references.
    fn references(&mut self, kind: u16, format: u16, words: &mut Words<'_>) {
        self.head(&words.name(), kind, [format, 0, 0]);
        self.list(words)
    }

    /// PRIVREF: the variable's name and words, and the references.
    fn private(&mut self, words: &mut Words<'_>) {
        let name = words.name();
        let size = words.value("words");
        self.head(&name, PRIVATE_REFERENCE, [BIG_FORMAT, 0, size]);
        self.list(words)
    }

    /// PUBLDEF and CONSTDEF: the name and its value.
    fn definition(&mut self, kind: u16, words: &mut Words<'_>) {
        let name = words.name();
        self.head(&name, kind, [words.value("value"), 0, 0])
    }

    /// Any type word, a name, the three words after them, and no list.
    fn other(&mut self, words: &mut Words<'_>) {
        let kind = words.word();
        let name = words.name();
        let further = [words.word(), words.word(), words.word()];
        self.head(&name, kind, further)
    }

    fn head(&mut self, name: &Name, kind: u16, further: [u16; 3]) {
        self.bytes(name);
        self.word(kind);
        for word in further {
            self.word(word);
        }
    }

    /// The references of a record, and how many they are.
    fn list(&mut self, words: &mut Words<'_>) {
        let place = self.bytes.len().saturating_sub(HEAD_SIZE - COUNT_PLACE);
        words.is_next("at");
        let count = self.all_references(words);
        for _ in 0..zeros_behind(count) {
            self.word(0);
        }
        let count = bytes_of(self.order, count);
        words.holds(put(self.bytes.as_mut_slice(), place, &count).is_some())
    }

    /// The references alone. Returns how many they are.
    fn all_references(&mut self, words: &mut Words<'_>) -> u16 {
        let mut count = 0u16;
        for _ in 0..u16::MAX {
            let Some(reference) = words.next() else {
                return count;
            };
            self.reference(reference);
            count = count.saturating_add(1);
        }
        count
    }

    fn reference(&mut self, reference: &str) {
        let place = reference.parse();
        self.is_right = self.is_right && place.is_ok();
        self.word(place.unwrap_or(0))
    }

    fn word(&mut self, word: u16) {
        self.bytes(&bytes_of(self.order, word))
    }

    fn bytes(&mut self, bytes: &[u8]) {
        if self.bytes.extend_from_slice(bytes).is_err() {
            self.is_right = false;
        }
    }
}

/// How many zeros fill up the last piece of a list of so many references.
fn zeros_behind(count: u16) -> u16 {
    (REFERENCES_PER_PIECE - count % REFERENCES_PER_PIECE) % REFERENCES_PER_PIECE
}

/// A word as it is in a file.
pub(crate) fn bytes_of(order: Order, word: u16) -> [u8; 2] {
    match order {
        Order::Little => word.to_le_bytes(),
        Order::Big => word.to_be_bytes(),
    }
}

/// Puts bytes at a place that has room for them. Returns whether one of them was another before.
pub fn put(all: &mut [u8], place: usize, bytes: &[u8]) -> Option<bool> {
    let end = place.saturating_add(bytes.len());
    let part = all.get_mut(place..end)?;
    change(part, bytes)
}

/// Puts bytes in place of as many others. Returns whether one of them was another before.
fn change(part: &mut [u8], bytes: &[u8]) -> Option<bool> {
    if part.len() != bytes.len() {
        return None;
    }
    let has_changed = *part != *bytes;
    part.copy_from_slice(bytes);
    Some(has_changed)
}
