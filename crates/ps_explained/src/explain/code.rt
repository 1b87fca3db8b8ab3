//! What faults of a code say.
ghost use Rattle.std.specs.Prelude.{◌≡◌, ◌+◌, ◌*◌};

use crate::cases::Case;
use ps_check_segments::Source;
use ps_warnings::dead_run;
use ps_words::BLOCK_SIZE;
use std::fmt::{self, Formatter, Write};

/// The first byte of a code, whose address counts blocks, and the byte after its last.
fn extent_of(address: u16, length: u16) -> (usize, usize)
    ensures { result ≡ (512 * address, 512 * address + length) }
{
    let start = BLOCK_SIZE * usize::from(address);
    (start, start + usize::from(length))
}

/// Where the code would lie.
pub(super) fn write_extent<W: Write>(f: &mut Formatter<W>, case: &Case<'_, '_>) -> fmt::Result {
    let Some(found) = case.found() else {
        return Ok(());
    };
    let Some(Source { at, .. }) = case.source() else {
        return Ok(());
    };
    let (start, end) = extent_of(found.address, found.length);
    let (entry, length) = (at.index, found.length);
    let bytes = case.inputs.bytes(at.file).len();
    writeln!(
        f,
        "  entry {entry:02} has {length} bytes of code, from byte {start} to {end}; the file has {bytes}"
    )
}

/// Which procedure has the fault, which of the causes it has, and what of the code was not read.
pub(super) fn write_procedure<W: Write>(f: &mut Formatter<W>, case: &Case<'_, '_>) -> fmt::Result {
    if let Some(fault) = case.procedure_fault() {
        writeln!(f, "  {fault}")?;
    }
    match dead_run(case.code()) {
        Some(look) => writeln!(f, "  {look}"),
        None => Ok(()),
    }
}
