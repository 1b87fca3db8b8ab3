//! All bytes of a slice, written to a writer.
ghost use Rattle.std.specs.Prelude.{length, min, IfErr, OnOk, OnErr};
ghost use Rattle.std.specs.Io.KnownBytes.{Appends};
ghost use Rattle.ps_writing.specs.Prefixes.{AppendsPrefix};
ghost use Rattle.ps_writing.specs.Counts.{HasRoom, NoneFailed, OneFailed, Rises};

use crate::counts::Counts;
use crate::write_counter::WriteCounter;
use crate::write_fault::WriteFault;
use std::io::Write;

/// Writes all bytes, by writes that `counter` makes and counts, each of all that are left. It takes
/// no memory.
///
/// Where the counter needs room, each count has room for as many writes as there are bytes. After Ok
/// no write failed. Refuses `Device` where a write returned an error, which is not repeated: that
/// was one write, and none stalled. Refuses `Stalled` where a write of at least one byte took none:
/// that was one write, and none returned an error. The writer then has a prefix of the bytes.
pub fn write_all<W: Write, T: WriteCounter<W>>(
    out: &mut W,
    counter: &mut T,
    bytes: &[u8],
) -> Result<(), WriteFault>
    requires { HasRoom T.needs_room (T.counts counter.old out.old) (length bytes.now) }
    ensures all { OnOk result (Appends (W.contents out.old) (W.contents out.new) bytes.now) }
    ensures prefix { OnErr result (AppendsPrefix (W.contents out.old) (W.contents out.new)
        bytes.now) }
    ensures writes { Rises (T.counts counter.old out.old) (T.counts counter.new out.new)
        (length bytes.now) (min 1 (length bytes.now)) }
    ensures ok { OnOk result (NoneFailed (T.counts counter.old out.old)
        (T.counts counter.new out.new)) }
    ensures failed { IfErr result (λ fault. OneFailed fault (T.counts counter.old out.old)
        (T.counts counter.new out.new)) }
{
    let mut at = 0;
    while at < bytes.len() {
        match counter.write(out, &bytes[at..]) {
            Err(error) => return Err(WriteFault::Device(error)),
            Ok(0) => return Err(WriteFault::Stalled),
            Ok(taken) => at += taken,
        }
    }
    Ok(())
}

/// Writes all bytes, by writes each of all that are left. It takes no memory.
///
/// Refuses `Device` where a write returned an error, and `Stalled` where a write of at least one byte
/// took none. Neither is repeated, and no write follows it. The writer then has a prefix of the bytes.
pub fn write_all_of<W: Write>(out: &mut W, bytes: &[u8]) -> Result<(), WriteFault>
    ensures all { OnOk result (Appends (W.contents out.old) (W.contents out.new) bytes.now) }
    ensures prefix { OnErr result (AppendsPrefix (W.contents out.old) (W.contents out.new)
        bytes.now) }
{
    write_all(out, &mut Counts::new(), bytes)
}
