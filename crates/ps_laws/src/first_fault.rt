ghost use Rattle.std.specs.Prelude.{◌≡◌, ◌≢◌, ℕ, List, Some, None};
ghost use Rattle.ps_resolve.specs.AllFaults.{first_fault, reading_fault};
ghost use Rattle.ps_resolve.specs.FaultParts.{HasItsParts};
ghost use Rattle.ps_resolve.specs.Sources.{order_of};
ghost use Rattle.ps_resolve.specs.Standing.{IsFirst, FaultAt, NoneStandsInReading};
ghost use Rattle.ps_resolve.specs.Standing.Keys.{Step};
ghost use Rattle.ps_words.specs.FaultText.{number_of};
ghost use Rattle.ps_words.specs.declared.fault.Fault.{Fault};

use ps_linkinfo::one_reading;

/// The first fault of all is the one of smallest key among all that apply: it applies, its step is
/// the first that has any, and every other that applies comes later. There is one at most, and none
/// exactly where no fault applies. Each fault that applies has just the parts of its number; a
/// missing unit has no record just where its slot wants the unit. None is computed with the number
/// 30, which is no longer used. That no fault is computed for the steps of reading says that none
/// applies in them.
pub fn first_of_all()
    ensures some { (host : List ℕ) (libs : List (List ℕ)) (f : Fault)
        → first_fault host libs ≡ Some f → IsFirst host libs f }
    ensures none { (host : List ℕ) (libs : List (List ℕ)) → first_fault host libs ≡ None
        → (step : Step) (f : Fault) → FaultAt host libs step f → ⊥ }
    ensures one { (host : List ℕ) (libs : List (List ℕ)) (f g : Fault) → IsFirst host libs f
        → IsFirst host libs g → f ≡ g }
    ensures parts { (host : List ℕ) (libs : List (List ℕ)) (step : Step) (f : Fault)
        → FaultAt host libs step f → HasItsParts (order_of host) host libs f }
    ensures used { (host : List ℕ) (libs : List (List ℕ)) (f : Fault)
        → first_fault host libs ≡ Some f → number_of f.reason ≢ 30 }
    ensures only { (host : List ℕ) (libs : List (List ℕ)) (f : Fault) → IsFirst host libs f
        → first_fault host libs ≡ Some f }
    ensures read { (host : List ℕ) (libs : List (List ℕ)) → reading_fault host libs ≡ None
        → NoneStandsInReading host libs }
    ensures unread { (host : List ℕ) (libs : List (List ℕ)) → NoneStandsInReading host libs
        → reading_fault host libs ≡ None }
{
    one_reading();
}
