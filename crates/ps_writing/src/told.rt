ghost use Rattle.std.specs.Prelude.{◌≡◌, length};
ghost use Rattle.std.specs.Io.{WritesAtMost};
ghost use Rattle.std.specs.Io.KnownBytes.{WriteAppends, Keeps};
ghost use Rattle.ps_writing.specs.declared.counts.Counts.{Counts};
ghost use Rattle.ps_writing.specs.Counts.{AreBelow, counts_after, no_counts};

use crate::counts::Counts;
use crate::write_counter::WriteCounter;
use std::io;
use std::io::Write;

/// A writer that counts the writes made by `told_write`, and reports the counts.
pub trait ToldWriter: Write {
    /// The four counts.
    ghost counts: { Self → Counts };

    /// How many calls of `told_write` there were.
    fn writes(&self) -> u64
        ensures { result ≡ (counts self.now).writes };

    /// How many of them returned an error.
    fn errors(&self) -> u64
        ensures { result ≡ (counts self.now).errors };

    /// How many of them took none of at least one byte.
    fn stalls(&self) -> u64
        ensures { result ≡ (counts self.now).stalls };

    /// How many of them took fewer bytes than they were handed, those of `stalls` among them. A
    /// write that returned an error is none of these.
    fn shorts(&self) -> u64
        ensures { result ≡ (counts self.now).shorts };

    /// Writes `bytes` as `write` does, and adds one to each count that applies to what it returns.
    ///
    /// Each count is below `u64::MAX` before. Returns how many of the bytes, from the first on,
    /// were taken, or the error of the write.
    fn told_write(&mut self, bytes: &[u8]) -> io::Result<usize>
        requires { AreBelow (counts self.old) 18446744073709551615 }
        ensures bound { WritesAtMost result bytes.now }
        ensures bytes { WriteAppends (Self.contents self.old) (Self.contents self.new) result
            bytes.now }
        ensures counts { counts self.new
            ≡ counts_after (counts self.old) (length bytes.now) result };
}

/// Any writer, made to count. Its plain `write` and `flush` are the writer's, and count nothing.
#[derive(Drop)]
pub struct Counting<W: Write> {
    inner: W,
    counts: Counts,
}

impl<W: Write> Counting<W> {
    ghost use Rattle.ps_writing.specs.Told.{counts_of, inner_of};

    /// Makes `inner` count, from 0 on.
    pub fn new(inner: W) -> Self
        ensures inner { inner_of result ≡ inner }
        ensures counts { counts_of result ≡ no_counts }
    {
        Counting {
            inner,
            counts: Counts::new(),
        }
    }

    /// Gives the writer back.
    pub fn into_inner(self) -> W
        ensures { result ≡ inner_of self }
    {
        let Counting { inner, .. } = self;
        inner
    }
}

impl<W: Write> Write for Counting<W> {
    ghost use Rattle.ps_writing.specs.Told.{counts_of, inner_of};

    ghost contents = { λ writer. W.contents writer.inner };

    fn write(&mut self, buf: &[u8]) -> io::Result<usize>
        ensures bound { WritesAtMost result buf.now }
        ensures bytes { WriteAppends (W.contents (inner_of self.old))
            (W.contents (inner_of self.new)) result buf.now }
        ensures counts { counts_of self.new ≡ counts_of self.old }
    {
        self.inner.write(buf)
    }

    fn flush(&mut self) -> io::Result<()>
        ensures bytes { Keeps (W.contents (inner_of self.old)) (W.contents (inner_of self.new)) }
        ensures counts { counts_of self.new ≡ counts_of self.old }
    {
        self.inner.flush()
    }
}

impl<W: Write> ToldWriter for Counting<W> {
    ghost counts = { λ writer. writer.counts };

    fn writes(&self) -> u64 {
        self.counts.writes
    }

    fn errors(&self) -> u64 {
        self.counts.errors
    }

    fn stalls(&self) -> u64 {
        self.counts.stalls
    }

    fn shorts(&self) -> u64 {
        self.counts.shorts
    }

    #[tactic(auto, using(crate::proofs::Rising::none_saturated))]
    fn told_write(&mut self, bytes: &[u8]) -> io::Result<usize> {
        self.counts.write(&mut self.inner, bytes)
    }
}
