ghost use Rattle.std.specs.Prelude.{◌*◌, ◌≤◌, length, IfErr, OnOk, OnErr};
ghost use Rattle.std.specs.Io.KnownBytes.{Appends};
ghost use Rattle.ps_words.specs.Edits.{AreEdits};
ghost use Rattle.ps_words.specs.Words.{blocks};
ghost use Rattle.ps_codefile.specs.Dictionary.{block_len};
ghost use Rattle.ps_linkfile.specs.LinkedFile.{all_blocks, padded_code};
ghost use Rattle.ps_linkfile.specs.Writing.{file_in, padded_codes, summary_in, HaveEdits, IsReady};
ghost use Rattle.ps_writing.specs.Prefixes.{AppendsPrefix};
ghost use Rattle.ps_writing.specs.Counts.{HasRoom, NoneFailed, OneFailed, Rises};

use crate::block_layout::MAX_FILE_BLOCKS;
use crate::dictionary::dictionary_of;
use ps_patch::Patcher;
use ps_resolve::Plan;
use ps_words::{BLOCK_SIZE, Edit, Order};
use ps_writing::{WriteCounter, WriteFault, write_all};
use std::alloc::Allocator;
use std::io::Write;

/// Writes a code with its edits, in whole blocks, each of which passes through the same 512 bytes.
fn write_code<W: Write, T: WriteCounter<W>>(
    order: Order,
    code: &[u8],
    edits: &[Edit],
    out: &mut W,
    counter: &mut T,
) -> Result<(), WriteFault>
    requires edits { AreEdits (length code.now) edits.now }
    requires room { HasRoom T.needs_room (T.counts counter.old out.old)
        (block_len * blocks (length code.now)) }
    ensures all { OnOk result (Appends (W.contents out.old) (W.contents out.new)
        (padded_code order code.now edits.now)) }
    ensures prefix { OnErr result (AppendsPrefix (W.contents out.old) (W.contents out.new)
        (padded_code order code.now edits.now)) }
    ensures writes { Rises (T.counts counter.old out.old) (T.counts counter.new out.new)
        (block_len * blocks (length code.now)) (blocks (length code.now)) }
    ensures ok { OnOk result (NoneFailed (T.counts counter.old out.old)
        (T.counts counter.new out.new)) }
    ensures failed { IfErr result (λ fault. OneFailed fault (T.counts counter.old out.old)
        (T.counts counter.new out.new)) }
{
    let mut patcher = Patcher::new(order, code, edits);
    let mut block = [0; BLOCK_SIZE];
    while patcher.fill(&mut block) > 0 {
        write_all(out, counter, &block)?;
    }
    Ok(())
}

/// Writes the code of each segment, by slot.
fn write_codes<A: Allocator + Copy, W: Write, T: WriteCounter<W>>(
    plan: &Plan<'_, A>,
    out: &mut W,
    counter: &mut T,
) -> Result<(), WriteFault>
    requires edits { HaveEdits plan.now.sources plan.now.edits }
    requires room { HasRoom T.needs_room (T.counts counter.old out.old)
        (block_len * all_blocks plan.now.sources) }
    ensures all { OnOk result (Appends (W.contents out.old) (W.contents out.new)
        (padded_codes plan.now.order plan.now.sources plan.now.edits)) }
    ensures prefix { OnErr result (AppendsPrefix (W.contents out.old) (W.contents out.new)
        (padded_codes plan.now.order plan.now.sources plan.now.edits)) }
    ensures writes { Rises (T.counts counter.old out.old) (T.counts counter.new out.new)
        (block_len * all_blocks plan.now.sources) (all_blocks plan.now.sources) }
    ensures ok { OnOk result (NoneFailed (T.counts counter.old out.old)
        (T.counts counter.new out.new)) }
    ensures failed { IfErr result (λ fault. OneFailed fault (T.counts counter.old out.old)
        (T.counts counter.new out.new)) }
{
    for (k, source) in plan.sources().iter().enumerate() {
        write_code(plan.order(), source.code(), plan.edits(k), out, counter)?;
    }
    Ok(())
}

/// Writes the linked file: its segment dictionary, and then the codes.
pub(crate) fn write_file<A: Allocator + Copy, W: Write, T: WriteCounter<W>>(
    plan: &Plan<'_, A>,
    out: &mut W,
    counter: &mut T,
) -> Result<(), WriteFault>
    requires ready { IsReady plan.now }
    requires room { HasRoom T.needs_room (T.counts counter.old out.old)
        (block_len * MAX_FILE_BLOCKS) }
    ensures all { OnOk result (Appends (W.contents out.old) (W.contents out.new)
        (file_in plan.now)) }
    ensures prefix { OnErr result (AppendsPrefix (W.contents out.old) (W.contents out.new)
        (file_in plan.now)) }
    ensures writes { Rises (T.counts counter.old out.old) (T.counts counter.new out.new)
        (length (file_in plan.now)) (summary_in plan.now).blocks }
    ensures few { length (file_in plan.now) ≤ block_len * MAX_FILE_BLOCKS }
    ensures ok { OnOk result (NoneFailed (T.counts counter.old out.old)
        (T.counts counter.new out.new)) }
    ensures failed { IfErr result (λ fault. OneFailed fault (T.counts counter.old out.old)
        (T.counts counter.new out.new)) }
{
    write_all(out, counter, &dictionary_of(plan))?;
    write_codes(plan, out, counter)
}
