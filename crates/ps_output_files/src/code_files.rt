//! The files of a command: those that it reads, and those that it creates.
ghost use Rattle.std.specs.Prelude.{◌≡◌, IfErr, IfOk};
ghost use Rattle.ps_output_files.specs.Log.{IsClosed, IsCreated};
ghost use Rattle.ps_output_files.specs.World.{World, unknown_world};

use std::fs::OpenFile;
use std::io::{Read, Write};
use std::os::unix::fs::MetadataExt;
use std::rt::Files;
use std::{fs, io};

/// Opens the files of a command. What runs a command is generic over it, so that contracts say of
/// bytes at which path they were read, and of files in which order they were created and what each
/// took: no contract says what a file of the system holds. It is lent as `&mut` to what creates files,
/// and to nothing else.
pub trait CodeFiles {
    /// A file that is read.
    type Opened: Read + Drop;

    /// A file that is written.
    type Created: Write + Drop;

    // What is known of the files.
    ghost world: { Self → World };

    /// Opens the file at `path` to be read.
    fn open(&self, path: &str) -> io::Result<Self::Opened>
        ensures opened { IfOk result (λ file. (world self.now).opened path.now
            (Self.Opened.remaining file)) }
        ensures unopened { IfErr result (λ _. (world self.now).unopened path.now) };

    /// Creates or empties the file at `path`.
    fn create(&mut self, path: &str) -> io::Result<Self::Created>
        ensures created { IfOk result (λ file. IsCreated (world self.old).log (world self.new).log
            path.now (Self.Created.contents file)) }
        ensures err { IfErr result (λ _. (world self.new).log ≡ (world self.old).log) }
        ensures uncreated { IfErr result (λ _. (world self.new).uncreated path.now) };

    /// Closes the file that was created at `path`, whether all was written to it or not: no more is.
    fn close(&mut self, path: &str, file: Self::Created) -> io::Result<()>
        ensures { IsClosed (world self.old).log (world self.new).log path.now
            (Self.Created.contents file) };

    /// The paths lead to one file, as two names of it or a link do. Where no file is, or no regular
    /// one, they do not.
    fn lead_to_one_file(&self, path: &str, other: &str) -> bool
        ensures { (world self.now).one_file path.now other.now result };

    /// The path leads to what standard output is: a file, a pipe or a terminal.
    fn leads_to_output(&self, path: &str) -> bool
        ensures { (world self.now).leads path.now result };

    /// How many bytes `file` is said to have, and 0 where nothing is said of it. A read may give
    /// more bytes than that, or less.
    fn length_hint(file: &Self::Opened) -> usize;
}

// The files of the system: no contract of the kit says what they hold or take, or where a path leads. So
// nothing is known of them, and what contracts say of a log binds the code alone that is generic over
// these.
impl<R: Files> CodeFiles for R {
    type Opened = R::File;

    type Created = R::File;

    ghost world = { λ rt. unknown_world };

    fn open(&self, path: &str) -> io::Result<R::File> {
        fs::open(self, path)
    }

    fn create(&mut self, path: &str) -> io::Result<R::File> {
        fs::create(&*self, path)
    }

    fn close(&mut self, _path: &str, file: R::File) -> io::Result<()> {
        let mut file = file;
        file.flush()
    }

    // A pipe or a terminal may well be read and written.
    fn lead_to_one_file(&self, path: &str, other: &str) -> bool {
        match (fs::metadata(self, path), fs::metadata(self, other)) {
            (Ok(one), Ok(two)) => one.is_file() && are_one(&one, &two),
            _ => false,
        }
    }

    fn leads_to_output(&self, path: &str) -> bool {
        match (fs::metadata(self, path), fs::metadata(self, OUTPUT)) {
            (Ok(one), Ok(two)) => are_one(&one, &two),
            _ => false,
        }
    }

    // The length of what is no regular file says nothing of what it gives.
    fn length_hint(file: &R::File) -> usize {
        match file.metadata() {
            Ok(metadata) if metadata.is_file() => {
                usize::try_from(metadata.len()).unwrap_or(usize::MAX)
            }
            _ => 0,
        }
    }
}

/// The path that leads to standard output.
const OUTPUT: &str = "/dev/stdout";

/// Two files are one, by their inode, which is 0 where none is known, and its device.
fn are_one(one: &fs::Metadata, two: &fs::Metadata) -> bool {
    let node = one.ino();
    node != 0 && node == two.ino() && one.dev() == two.dev()
}
