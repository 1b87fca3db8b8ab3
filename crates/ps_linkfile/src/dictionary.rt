ghost use Rattle.std.specs.Prelude.{◌≡◌, ◌≤◌, ◌+◌, ◌++◌, length, take, drop, All};
ghost use Rattle.ps_linkfile.specs.LinkedFile.{all_pairs, dictionary};
ghost use Rattle.ps_linkfile.specs.Writing.{starts_of, Ascend, IsReady};

use crate::block_layout::lay_out;
use ps_codefile::code_layout::MAX_CODE_LEN;
use ps_codefile::dictionary_layout::{NAMES, PAIR, TAIL};
use ps_resolve::{Plan, Source};
use ps_words::{BLOCK_SIZE, Order, WORD_LEN, put};
use std::alloc::Allocator;

/// The sixteen pairs of the dictionary: for the slot of each source the block that its code begins
/// in and the code's length, and zeros for any other.
#[tactic(auto, using(crate::proofs::Views::slot_at))]
fn pairs_of(order: Order, sources: &[Source], starts: &[u16]) -> [u8; NAMES]
    requires slots { Ascend 0 sources.now }
    requires sizes { All (λ o. length o.code ≤ MAX_CODE_LEN) sources.now }
    requires starts { starts.now ≡ starts_of sources.now }
    ensures { result ≡ all_pairs order sources.now }
{
    let mut pairs = [0; NAMES];
    for (k, source) in sources.iter().enumerate() {
        let pair = PAIR * source.slot() as usize;
        put(order, &mut pairs, pair, starts[k]);
        put(
            order,
            &mut pairs,
            pair + WORD_LEN,
            source.code().len() as u16,
        );
    }
    pairs
}

/// Stores a part of the dictionary, from a place on.
fn store(dictionary: &mut [u8], place: usize, part: &[u8])
    requires { place + length part.now ≤ length dictionary.old }
    ensures stored { dictionary.new ≡ take place dictionary.old
        ++ (part.now ++ drop (place + length part.now) dictionary.old) }
    ensures length { length dictionary.new ≡ length dictionary.old }
{
    dictionary[place..place + part.len()].copy_from_slice(part);
}

/// The segment dictionary of the linked file, which is its block 0.
pub(crate) fn dictionary_of<A: Allocator + Copy>(plan: &Plan<'_, A>) -> [u8; BLOCK_SIZE]
    requires ready { IsReady plan.now }
    ensures { result ≡ dictionary plan.now.order plan.now.names plan.now.host plan.now.sources }
{
    let layout = lay_out(plan);
    let pairs = pairs_of(plan.order(), plan.sources(), layout.starts.as_slice());
    let mut dictionary = [0; BLOCK_SIZE];
    store(&mut dictionary, 0, &pairs);
    store(&mut dictionary, NAMES, plan.names().as_flattened());
    store(&mut dictionary, TAIL, plan.tail());
    dictionary
}
