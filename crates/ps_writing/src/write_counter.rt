ghost use Rattle.std.specs.Prelude.{◌≡◌, Bool, false, length, true};
ghost use Rattle.std.specs.Io.{WritesAtMost};
ghost use Rattle.std.specs.Io.KnownBytes.{WriteAppends};
ghost use Rattle.ps_writing.specs.declared.counts.Counts.{Counts};
ghost use Rattle.ps_writing.specs.Counts.{HasRoom, saturated_after};

use crate::counts::Counts;
use crate::told::ToldWriter;
use std::io;
use std::io::Write;

/// Writes to a writer and keeps its counts: `Counts`, beside any writer, or `ByWriter`, where
/// the writer counts by itself.
pub trait WriteCounter<W: Write> {
    /// The counts of the writer.
    ghost counts: { Self → W → Counts };

    /// Whether a write is made only where the counts have room for it.
    ghost needs_room: { Bool };

    /// Makes one write of these bytes, and counts it by what it returns.
    ///
    /// Returns how many of the bytes, from the first on, were taken, or the error of the write.
    fn write(&mut self, out: &mut W, bytes: &[u8]) -> io::Result<usize>
        requires { HasRoom needs_room (counts self.old out.old) 1 }
        ensures bound { WritesAtMost result bytes.now }
        ensures bytes { WriteAppends (W.contents out.old) (W.contents out.new) result bytes.now }
        ensures counts { counts self.new out.new
            ≡ saturated_after (counts self.old out.old) (length bytes.now) result };
}

impl<W: Write> WriteCounter<W> for Counts {
    ghost counts = { λ counter out. counter };

    ghost needs_room = { false };

    fn write(&mut self, out: &mut W, bytes: &[u8]) -> io::Result<usize> {
        let answer = out.write(bytes);
        self.count(bytes.len(), &answer);
        answer
    }
}

/// The counter of a writer that counts by itself.
#[derive(Clone, Copy)]
pub struct ByWriter;

impl<W: ToldWriter> WriteCounter<W> for ByWriter {
    ghost counts = { λ counter out. W.counts out };

    ghost needs_room = { true };

    #[tactic(auto, using(crate::proofs::Rising::none_saturated))]
    fn write(&mut self, out: &mut W, bytes: &[u8]) -> io::Result<usize> {
        out.told_write(bytes)
    }
}
