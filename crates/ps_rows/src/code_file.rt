//! The code files and the link information of `sample_files`. A text that makes none ends the test, and is
//! printed.
use crate::notation::holds;
use ps_words::Order;
use std::process::Abort;

/// Changes of a file, one after the other.
pub type Changes<'a> = &'a str;

/// A code file that is being made.
#[derive(Drop)]
pub struct CodeFile {
    file: sample_files::CodeFile,
}

impl CodeFile {
    /// A file with the texts of these names, one after the other.
    pub fn new(rt: &(impl Abort + AllocGlobal), order: Order, names: &str) -> CodeFile {
        let file = sample_files::CodeFile::new(rt.alloc(), order, names);
        holds(rt, file.is_right(), names);
        CodeFile { file }
    }

    /// A file with the texts of these names, and with these changes.
    pub fn of(
        rt: &(impl Abort + AllocGlobal),
        order: Order,
        names: &str,
        changes: Changes<'_>,
    ) -> CodeFile {
        let mut file = CodeFile::new(rt, order, names);
        file.change(rt, changes);
        file
    }

    /// The file's bytes.
    pub fn as_slice(&self) -> &[u8] {
        self.file.as_slice()
    }

    /// Puts bytes at a place of the file.
    pub fn put(&mut self, rt: &impl Abort, place: usize, bytes: &[u8]) {
        self.file.put(place, bytes);
        holds(rt, self.file.is_right(), "no room")
    }

    /// Makes these changes.
    pub fn change(&mut self, rt: &(impl Abort + AllocGlobal), changes: Changes<'_>) {
        self.file.change(rt.alloc(), changes);
        holds(rt, self.file.is_right(), changes)
    }
}

/// Link information: the bytes of its records, in one byte order.
#[derive(Drop)]
pub struct Information {
    records: sample_files::Information,
}

impl Information {
    /// The records of a text, one after the other, each with its list.
    pub fn new(rt: &(impl Abort + AllocGlobal), order: Order, text: &str) -> Information {
        let records = sample_files::Information::new(rt.alloc(), order, text);
        holds(rt, records.is_right(), text);
        Information { records }
    }

    /// The records' bytes.
    pub fn as_slice(&self) -> &[u8] {
        self.records.as_slice()
    }
}

/// Puts bytes at a place that has room for them.
pub fn put(rt: &impl Abort, all: &mut [u8], place: usize, bytes: &[u8]) {
    let _ = sample_files::put(all, place, bytes).expect(rt, "no room");
}
