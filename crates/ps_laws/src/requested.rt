ghost use Rattle.std.specs.Prelude.{◌≡◌, ℕ, List, None};
ghost use Rattle.ps_resolve.specs.AllFaults.{reading_fault};
ghost use Rattle.ps_resolve.specs.RequestedUnits.{AreAddedUnits, AreOnlyUnits, HasAllRequested};

/// Where the files are read without a fault, the units that are added are those that are requested,
/// as this is said plainly.
///
/// The queue of requested names has each name that a UNITREF record of a linked segment requests
/// and no slot of role Unit or Wanted of the host has, none twice, in the order of the first
/// records that request them: those of the host's own segments by slot and record, then those of
/// the added ones; the record is one of a segment of the host's own or of one that was added for an
/// earlier name. The k-th name takes the k-th empty slot from 7 to 15, and its segment is that of
/// the first library that has a filled entry of the name. There is just one such queue, and one
/// such list of segments. Each unit that a record requests then is a segment of the link.
pub fn added_units()
    ensures units { (host : List ℕ) (libs : List (List ℕ)) → reading_fault host libs ≡ None
        → AreAddedUnits host libs }
    ensures one { (host : List ℕ) (libs : List (List ℕ)) → reading_fault host libs ≡ None
        → AreOnlyUnits host libs }
    ensures there { (host : List ℕ) (libs : List (List ℕ)) → reading_fault host libs ≡ None
        → HasAllRequested host libs }
{}
