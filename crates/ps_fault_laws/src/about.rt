ghost use Rattle.std.specs.Prelude.{◌≡◌, ◌≤◌, ◌↔◌, ℕ, List, Option, is_some, true};
ghost use Rattle.ps_fault_laws.specs.About.{IsAbout};
ghost use Rattle.ps_reading.specs.FaultNames.{fault_name};
ghost use Rattle.ps_resolve.specs.Standing.{IsFirst};
ghost use Rattle.ps_words.specs.FaultText.{number_of};
ghost use Rattle.ps_words.specs.declared.fault.Fault.{Fault};

use ps_laws::first_of_all;
use ps_linkinfo::one_reading;

/// The name that is computed for the first fault is that of what the fault is about, and what it
/// is about has one name at most. The faults from number 5 on have a name, the others none.
pub fn faults_have_names()
    ensures about { (host : List ℕ) (libs : List (List ℕ)) (f : Fault) → IsFirst host libs f
        → IsAbout host libs f (fault_name host libs f) }
    ensures one { (host : List ℕ) (libs : List (List ℕ)) (f : Fault)
        (name other : Option (List ℕ)) → IsAbout host libs f name → IsAbout host libs f other
        → name ≡ other }
    ensures named { (host : List ℕ) (libs : List (List ℕ)) (f : Fault) → IsFirst host libs f
        → (is_some (fault_name host libs f) ≡ true) ↔ (5 ≤ number_of f.reason) }
{
    first_of_all();
    one_reading();
}
