//! Files that fail.
ghost use Rattle.ps_output_files.specs.World.{unknown_world};

use ps_command::CodeFiles;
use std::alloc::{Alloc, Global};
use std::cell::Cell;
use std::io::{Read, Write};
use std::rt::Files;
use std::{fs, io};

/// Which file fails, as the one that is opened as the `nth`, from 1, after how many reads and writes,
/// and how many bytes a write takes at most.
pub type Faults = (u64, u64, usize);

/// No file fails.
pub const NO_FAULTS: Faults = (0, 0, usize::MAX);

/// A file that may not be read.
const FORBIDDEN: &str = "forbidden";

/// The files of `inner`, of which the one that is opened as the `nth`, from 1, fails after so many
/// reads and writes. A read gives 500 bytes at most, and a write takes so many.
#[derive(Drop)]
pub struct Faulty<'a, R: Files> {
    inner: &'a R,
    nth: u64,
    calls: u64,
    per_write: usize,
    opened: Cell<u64>,
    created: u64,
}

impl<'a, R: Files> Faulty<'a, R> {
    /// A write takes so many bytes at most.
    pub fn taking(inner: &'a R, (nth, calls, per_write): Faults) -> Faulty<'a, R> {
        Faulty {
            inner,
            nth,
            calls,
            per_write,
            opened: Cell::new(0),
            created: 0,
        }
    }

    /// The next file that is opened.
    fn faulty(&self, inner: R::File) -> FaultyFile<R::File> {
        self.opened.set(self.opened.get().saturating_add(1));
        let calls = if self.opened.get() == self.nth {
            self.calls
        } else {
            u64::MAX
        };
        FaultyFile {
            inner,
            calls,
            per_write: self.per_write,
        }
    }

    /// How many files a program tried to open to be written.
    pub fn created(&self) -> u64 {
        self.created
    }
}

#[derive(Drop)]
pub struct FaultyFile<F> {
    inner: F,
    calls: u64,
    per_write: usize,
}

impl<F> FaultyFile<F> {
    // An interrupted call is one that other programs repeat.
    fn call(&mut self) -> io::Result<()> {
        if self.calls == 0 {
            return Err(io::Error::from(io::ErrorKind::Interrupted));
        }
        self.calls -= 1;
        Ok(())
    }
}

impl<F: Read> Read for FaultyFile<F> {
    fn read(&mut self, buf: &mut [u8]) -> io::Result<usize> {
        self.call()?;
        let most = buf.len().min(500);
        self.inner.read(&mut buf[..most])
    }
}

impl<F: Write> Write for FaultyFile<F> {
    fn write(&mut self, buf: &[u8]) -> io::Result<usize> {
        self.call()?;
        let most = buf.len().min(self.per_write);
        self.inner.write(&buf[..most])
    }

    fn flush(&mut self) -> io::Result<()> {
        self.inner.flush()
    }
}

impl<R: Files> CodeFiles for Faulty<'_, R> {
    type Opened = FaultyFile<R::File>;

    type Created = FaultyFile<R::File>;

    ghost world = { λ rt. unknown_world };

    fn open(&self, path: &str) -> io::Result<FaultyFile<R::File>> {
        if path == FORBIDDEN {
            return Err(io::Error::from(io::ErrorKind::PermissionDenied));
        }
        let inner = fs::open(self.inner, path)?;
        Ok(self.faulty(inner))
    }

    fn create(&mut self, path: &str) -> io::Result<FaultyFile<R::File>> {
        self.created = self.created.saturating_add(1);
        let inner = fs::create(self.inner, path)?;
        Ok(self.faulty(inner))
    }

    fn close(&mut self, path: &str, file: FaultyFile<R::File>) -> io::Result<()> {
        let FaultyFile { inner, .. } = file;
        let mut files = self.inner;
        files.close(path, inner)
    }

    fn lead_to_one_file(&self, path: &str, other: &str) -> bool {
        self.inner.lead_to_one_file(path, other)
    }

    // A path that begins so stands for one that leads to standard output.
    fn leads_to_output(&self, path: &str) -> bool {
        path.starts_with("to-output")
    }

    fn length_hint(file: &FaultyFile<R::File>) -> usize {
        R::length_hint(&file.inner)
    }
}

impl<R: Files + AllocGlobal> Alloc for Faulty<'_, R> {
    type A = Global;

    fn alloc(&self) -> Global {
        self.inner.alloc()
    }
}
