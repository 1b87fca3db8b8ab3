//! Where the faults go that are found in the slots of a host, one slot after another.
ghost use Rattle.std.specs.Prelude.{◌≡◌, ◌<◌, ◌++◌, ◌∷◌, [], List, Option, length, take};
ghost use Rattle.ps_words.specs.declared.fault.Fault.{Fault};
ghost use Rattle.ps_codefile.specs.declared.dictionary_layout.TheConstants.{SLOT_COUNT};
ghost use Rattle.ps_reading.specs.Searches.{first_of};

use ps_codefile::dictionary_layout::{SLOT_COUNT, SLOTS};
use ps_words::Fault;

/// What takes the faults of the slots of a host, from slot 0 on.
pub(crate) trait SlotFaults {
    /// It has taken these faults, of the slots from 0 on, where they have one.
    ghost has_taken: { Self → List (Option Fault) → Type 0 };

    /// Takes the fault of the next slot, if that has one.
    fn take_next(&mut self, slot: u8, fault: Option<Fault>)
        requires { slot < SLOTS }
        ensures { (faults : List (Option Fault)) → length faults ≡ slot
            → has_taken self.old faults → has_taken self.new (faults ++ fault ∷ []) };
}

/// Keeps the first fault, and no other.
impl SlotFaults for Option<Fault> {
    ghost has_taken = { λ s faults. s ≡ first_of (λ fault. fault) faults };

    #[inline(always)]
    #[tactic(auto, using(crate::proofs::ReadingSources::first_with))]
    fn take_next(&mut self, slot: u8, fault: Option<Fault>) {
        if fault.is_some() && self.is_none() {
            *self = fault;
        }
    }
}

/// Keeps the fault of each slot.
impl SlotFaults for [Option<Fault>; SLOT_COUNT] {
    ghost has_taken = { λ s faults. (length s ≡ SLOT_COUNT) × (take (length faults) s ≡ faults) };

    #[inline(always)]
    fn take_next(&mut self, slot: u8, fault: Option<Fault>) {
        self[slot as usize] = fault;
    }
}
