//! Where the code of each segment is in the linked file.
ghost use Rattle.std.specs.Prelude.{◌≡◌, ◌≤◌, ◌+◌, length, All};
ghost use Rattle.ps_linkfile.specs.LinkedFile.{all_blocks};
ghost use Rattle.ps_linkfile.specs.Writing.{starts_of, Ascend, IsReady};

use arrayvec::ArrayVec;
use ps_codefile::code_layout::{MAX_CODE_BLOCKS, MAX_CODE_LEN};
use ps_codefile::dictionary_layout::SLOT_COUNT;
use ps_resolve::{Plan, Source};
use ps_words::blocks_of;
use std::alloc::Allocator;

/// How many segments a linked file has at most: one in each slot.
const MAX_SEGMENTS: usize = SLOT_COUNT;

/// How many blocks a linked file has at most: one for its segment dictionary, and those of the
/// longest code in each slot.
pub const MAX_FILE_BLOCKS: usize = 1 + MAX_SEGMENTS * MAX_CODE_BLOCKS;

/// The blocks of a linked file.
#[derive(Drop)]
pub(crate) struct Layout {
    /// The first block of each code, by slot.
    pub(crate) starts: ArrayVec<u16, MAX_SEGMENTS>,
    /// How many blocks there are, the segment dictionary's counted.
    pub(crate) blocks: usize,
}

/// Lays the codes of these sources out, by slot, one after another from block 1 on.
fn layout_of(sources: &[Source]) -> Layout
    requires slots { Ascend 0 sources.now }
    requires sizes { All (λ o. length o.code ≤ MAX_CODE_LEN) sources.now }
    ensures starts { result.starts.items ≡ starts_of sources.now }
    ensures blocks { result.blocks ≡ 1 + all_blocks sources.now }
{
    let mut starts: ArrayVec<u16, MAX_SEGMENTS> = ArrayVec::new();
    let mut blocks = 1;
    for source in sources {
        starts.push(blocks as u16);
        blocks += blocks_of(source.code().len());
    }
    Layout { starts, blocks }
}

/// Lays the codes of a plan that can be written out, by slot, one after another from block 1 on.
pub(crate) fn lay_out<A: Allocator + Copy>(plan: &Plan<'_, A>) -> Layout
    requires { IsReady plan.now }
    ensures starts { result.starts.items ≡ starts_of plan.now.sources }
    ensures blocks { result.blocks ≡ 1 + all_blocks plan.now.sources }
{
    layout_of(plan.sources())
}
