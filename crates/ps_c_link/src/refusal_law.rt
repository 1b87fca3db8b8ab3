//! Laws of refusals: functions that do nothing, whose clauses are the laws.
ghost use Rattle.std.specs.Prelude.{◌≡◌, List, Option, Some, ℕ};
ghost use Rattle.ps_words.specs.declared.fault.Fault.{Fault};
ghost use Rattle.ps_resolve.specs.Standing.{FaultAt};
ghost use Rattle.ps_resolve.specs.Standing.Keys.{Step};
ghost use Rattle.ps_c_link.specs.Answers.{AreInMemory, HasIndexes, IsTellable, fault_like, fault_told, refusal};

use ps_linkinfo::one_reading;

/// The answer of a refusal has its fault, whole: for whoever knows which parts the fault has, and by
/// itself where each part is in the range of its type and no index is `NO_INDEX`.
pub fn refusals_tell_their_faults()
    ensures parts { (f : Fault) (name : Option (List ℕ)) → fault_like f (refusal f name) ≡ Some f }
    ensures told { (f : Fault) (name : Option (List ℕ)) → IsTellable f
        → fault_told (refusal f name) ≡ Some f }
{}

/// No index of a fault that applies to files in memory is `NO_INDEX`: a record takes 16 bytes of a
/// file, and a reference two.
pub fn faults_have_indexes_of_their_files()
    ensures { (host : List ℕ) (libs : List (List ℕ)) (step : Step) (f : Fault)
        → AreInMemory host libs → FaultAt host libs step f → HasIndexes f }
{
    one_reading();
}
