//! Text that is written to a writer in pieces.
ghost use Rattle.std.specs.Prelude.{◌≡◌, ◌++◌, [], List, ℕ, OnOk, OnErr};
ghost use Rattle.std.specs.Io.KnownBytes.{Appends};
ghost use Rattle.ps_writing.specs.Prefixes.{AppendsPrefix};

use crate::text_writer::{Text, TextWriter};
use crate::write_fault::WriteFault;
use crate::writing::write_all_of;
use arrayvec::ArrayVec;
use std::io::Write;

/// How many bytes are gathered before they are written.
const BUFFER_LEN: usize = 16384;

/// The text that was gathered and not yet written.
type Gathered = ArrayVec<u8, BUFFER_LEN>;

/// Writes what was gathered.
fn flush<W: Write>(out: &mut W, gathered: &mut Gathered) -> Result<(), WriteFault>
    ensures bytes { OnOk result (Appends (W.contents out.old) (W.contents out.new)
        gathered.old.items) }
    ensures empty { OnOk result (gathered.new.items ≡ []) }
    ensures prefix { OnErr result (AppendsPrefix (W.contents out.old) (W.contents out.new)
        gathered.old.items) }
{
    write_all_of(out, gathered.as_slice())?;
    gathered.clear();
    Ok(())
}

/// Writes what was gathered, and gathers these bytes, or writes them where they do not fit.
fn send<W: Write>(out: &mut W, gathered: &mut Gathered, bytes: &[u8]) -> Result<(), WriteFault>
    ensures sent { OnOk result ((sent : List ℕ)
        × Appends (W.contents out.old) (W.contents out.new) sent
        × (sent ++ gathered.new.items ≡ gathered.old.items ++ bytes.now)) }
    ensures prefix { OnErr result (AppendsPrefix (W.contents out.old) (W.contents out.new)
        (gathered.old.items ++ bytes.now)) }
{
    flush(out, gathered)?;
    if gathered.try_extend_from_slice(bytes).is_ok() {
        return Ok(());
    }
    write_all_of(out, bytes)
}

/// A writer of text in front of a writer of bytes, which is not called again once it failed.
struct Stream<'w, 'g, W: Write> {
    out: &'w mut W,
    /// What was gathered stands with the caller, who writes what is left of it: so it is not
    /// copied.
    gathered: &'g mut Gathered,
    fault: Option<WriteFault>,
}

impl<W: Write> Stream<'_, '_, W> {
    ghost use Rattle.std.specs.Prelude.{◌≡◌, ◌++◌, false, is_some};
    ghost use Rattle.ps_writing.specs.Adding.{IsSent};

    /// Adds bytes for which there is no room beside what was gathered. It is rare, so it is no part
    /// of `add`.
    #[inline(never)]
    fn add_after_flush(&mut self, bytes: &[u8])
        requires { is_some self.old.fault ≡ false }
        ensures out { self.new.out.ghost_name ≡ self.old.out.ghost_name }
        ensures sent { IsSent (W.contents self.old.out.now)
            (self.old.gathered.now.items ++ bytes.now)
            (W.contents self.new.out.now) self.new.gathered.now.items self.new.fault }
    {
        match send(self.out, self.gathered, bytes) {
            Ok(()) => {}
            Err(fault) => self.fault = Some(fault),
        }
    }
}

impl<W: Write> TextWriter for Stream<'_, '_, W> {
    ghost use Rattle.std.specs.Prelude.{◌≡◌};
    ghost use Rattle.ps_writing.specs.Adding.{IsSent};

    ghost added = { λ first text now. (now.out.ghost_name ≡ first.out.ghost_name) × IsSent (W.contents first.out.now) text (W.contents now.out.now) now.gathered.now.items now.fault };

    #[inline]
    fn add(&mut self, bytes: &[u8]) {
        if self.fault.is_some() {
            return;
        }
        if self.gathered.try_extend_from_slice(bytes).is_ok() {
            return;
        }
        self.add_after_flush(bytes);
    }

    fn has_failed(&self) -> bool {
        self.fault.is_some()
    }
}

/// Writes the text, in pieces of at most 16384 bytes. It takes no memory.
///
/// Refuses `Device` where a write returned an error, and `Stalled` where a write of at least one byte
/// took none. Neither is repeated, and no write follows it. The writer then has a prefix of the text.
pub fn write_text<W: Write, T: Text>(text: &T, out: &mut W) -> Result<(), WriteFault>
    ensures all { OnOk result (Appends (W.contents out.old) (W.contents out.new)
        (T.bytes text.now)) }
    ensures prefix { OnErr result (AppendsPrefix (W.contents out.old) (W.contents out.new)
        (T.bytes text.now)) }
{
    let mut room = ArrayVec::new();
    let mut stream = Stream {
        out,
        gathered: &mut room,
        fault: None,
    };
    text.add_to(&mut stream);
    let Stream {
        out,
        gathered,
        fault,
    } = stream;
    match fault {
        Some(fault) => Err(fault),
        None => flush(out, gathered),
    }
}
