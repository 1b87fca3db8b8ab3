//! A writer that takes all, or little at a time, or is stuck after some writes. Each run has this one,
//! so that the program is compiled for one.
use std::alloc::Global;
use std::io;
use std::io::Write;

/// What a writer does that is stuck.
#[derive(Clone, Copy, Debug)]
pub enum Stuck {
    Broken,
    TakesNothing,
    /// The first write is interrupted, and each later one takes what others take.
    Interrupted,
    Freed,
}

/// A writer that takes so many bytes a write at most, and is stuck after so many writes.
#[derive(Drop)]
pub struct Limited {
    pub taken: Vec<u8>,
    most: usize,
    writes: u64,
    stuck: Stuck,
}

impl Limited {
    pub fn new(alloc: Global, (most, writes): (usize, u64), stuck: Stuck) -> Limited {
        Limited {
            taken: Vec::new(alloc),
            most,
            writes,
            stuck,
        }
    }

    /// A writer that takes all.
    pub fn taking_all(alloc: Global) -> Limited {
        Limited::new(alloc, (usize::MAX, u64::MAX), Stuck::Freed)
    }

    /// A writer that is stuck at its first write.
    pub fn stuck(alloc: Global, stuck: Stuck) -> Limited {
        Limited::new(alloc, (usize::MAX, 0), stuck)
    }
}

impl Write for Limited {
    fn write(&mut self, buf: &[u8]) -> io::Result<usize> {
        if self.writes == 0 {
            match self.stuck {
                Stuck::Broken => return Err(io::Error::from(io::ErrorKind::BrokenPipe)),
                Stuck::TakesNothing => return Ok(0),
                Stuck::Interrupted => {
                    self.stuck = Stuck::Freed;
                    return Err(io::Error::from(io::ErrorKind::Interrupted));
                }
                Stuck::Freed => (),
            }
        }
        self.writes = self.writes.saturating_sub(1);
        let part = buf.get(..self.most).unwrap_or(buf);
        match self.taken.extend_from_slice(part) {
            Ok(()) => Ok(part.len()),
            Err(_) => Err(io::Error::from(io::ErrorKind::OutOfMemory)),
        }
    }

    fn flush(&mut self) -> io::Result<()> {
        Ok(())
    }
}
