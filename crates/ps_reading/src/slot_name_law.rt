//! Laws of a link: functions that do nothing, whose clauses are the laws. A caller that needs them
//! calls the function.
ghost use Rattle.std.specs.Prelude.{◌≡◌, ◌≤◌, ℕ, List, length, flat_map};
ghost use Rattle.ps_words.specs.declared.order.Order.{Order as ByteOrder};
ghost use Rattle.ps_reading.specs.Added.{segments, slot_names};

use ps_linkinfo::names_are_whole;

/// The names of the sixteen slots of a linked file have 128 bytes, eight each, where the host has a
/// whole segment dictionary.
#[tactic(auto, using(crate::proofs::WholeNames::names_whole))]
pub fn slot_names_are_whole()
    ensures { (order : ByteOrder) (host : List ℕ) (libs : List (List ℕ)) → 512 ≤ length host
        → length (flat_map (λ name. name) (slot_names host (segments order host libs))) ≡ 128 }
{
    names_are_whole();
}
