//! A writer that takes little, and then stalls or fails.
use std::alloc::Global;
use std::io;
use std::io::{ErrorKind, Write};
use std::process::Abort;

/// An error that a write fails with.
#[derive(Clone, Copy)]
pub(crate) enum Broken {
    /// Of this kind.
    Of(ErrorKind),
    /// The system's of this number.
    OfSystem(i32),
    /// One that has a text.
    Torn,
}

impl Broken {
    pub(crate) fn error(self) -> io::Error {
        match self {
            Broken::Of(kind) => io::Error::from(kind),
            Broken::OfSystem(code) => io::Error::from_raw_os_error(code),
            Broken::Torn => io::Error::other("the tape is torn"),
        }
    }
}

/// What a writer with no room left does at the next write.
#[derive(Clone, Copy)]
pub(crate) enum Full {
    Stalls,
    Fails(Broken),
}

/// How most writers fail.
pub(crate) const FAILS: Full = Full::Fails(Broken::Of(ErrorKind::Interrupted));

/// A writer's room, how much a write takes at most, and what it does where it has no room.
pub(crate) type Writer = (usize, usize, Full);

/// What a writer counts: its writes, those that failed, those that took none of at least one byte
/// and returned no error, and those that took fewer bytes than there were and returned none.
pub(crate) type Counts = [u64; 4];

/// A writer with room for so many bytes, of which each write takes at most so many. Each flush
/// fails.
#[derive(Drop)]
pub(crate) struct Room {
    bytes: Vec<u8>,
    room: usize,
    per_write: usize,
    full: Full,
    writes: u64,
    failures: u64,
    stalls: u64,
    shorts: u64,
    /// How many flushes there were.
    pub flushes: u64,
}

impl Room {
    /// Room for so many bytes; the memory is taken here, and no write takes any.
    pub(crate) fn new(alloc: Global, (room, per_write, full): Writer) -> Room {
        Room {
            bytes: Vec::with_capacity(alloc, room).unwrap_or(Vec::new(alloc)),
            room,
            per_write,
            full,
            writes: 0,
            failures: 0,
            stalls: 0,
            shorts: 0,
            flushes: 0,
        }
    }

    /// The bytes that were taken.
    pub(crate) fn written(&self) -> &[u8] {
        self.bytes.as_slice()
    }

    /// What was counted.
    pub(crate) fn counts(&self) -> Counts {
        [self.writes, self.failures, self.stalls, self.shorts]
    }
}

/// Room for so many bytes, for which there is memory.
pub(crate) fn room_for(rt: &(impl Abort + AllocGlobal), writer: Writer) -> Room {
    Room::new(rt.alloc(), writer)
}

impl Write for Room {
    fn write(&mut self, buf: &[u8]) -> io::Result<usize> {
        self.writes = self.writes.saturating_add(1);
        let left = self.room.saturating_sub(self.bytes.len());
        let count = buf.len().min(self.per_write).min(left);
        if count == 0 && !buf.is_empty() {
            return match self.full {
                Full::Stalls => {
                    self.stalls = self.stalls.saturating_add(1);
                    self.shorts = self.shorts.saturating_add(1);
                    Ok(0)
                }
                Full::Fails(broken) => {
                    self.failures = self.failures.saturating_add(1);
                    Err(broken.error())
                }
            };
        }
        if count < buf.len() {
            self.shorts = self.shorts.saturating_add(1);
        }
        let taken = buf.get(..count).unwrap_or(buf);
        match self.bytes.extend_from_slice(taken) {
            Ok(_) => Ok(count),
            Err(_) => Err(io::Error::from(io::ErrorKind::OutOfMemory)),
        }
    }

    fn flush(&mut self) -> io::Result<()> {
        self.flushes = self.flushes.saturating_add(1);
        Err(io::Error::from(io::ErrorKind::BrokenPipe))
    }
}
