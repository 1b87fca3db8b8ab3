ghost use Rattle.std.specs.Prelude.{List, ℕ};
ghost use Rattle.ps_resolve.specs.Standing.{NoneStands};
ghost use Rattle.ps_resolve.specs.LinkedBytes.{segments_of};
ghost use Rattle.ps_resolve.specs.Origins.{AreAdded, AreBySlot, AreInPlace, AreOfLibraries, AreOfRounds, AreOwn, AreRead, HaveOneEach};

use ps_linkinfo::one_reading;

/// Where no fault applies, the segments of a link have the origins that are said plainly.
///
/// Each of the host's sixteen slots that is not empty has one segment, and they are by slot. One
/// that was not added has its slot's role and name; one that was added has an empty slot and a
/// name that a UNITREF record requests. A segment of role Host, Unit or Plain is the host's own
/// entry of its slot; one of role Wanted is, in the first library that has a filled entry of its
/// name, the only such entry, a unit's. Its code is that entry's slice of its file, and its
/// records, where it is linked, are those that the bytes after that code spell.
pub fn segments_have_origins()
    ensures one_each { (host : List ℕ) (libs : List (List ℕ))
        → NoneStands host libs → HaveOneEach host (segments_of host libs) }
    ensures by_slot { (host : List ℕ) (libs : List (List ℕ))
        → NoneStands host libs → AreBySlot (segments_of host libs) }
    ensures own { (host : List ℕ) (libs : List (List ℕ))
        → NoneStands host libs → AreOwn host (segments_of host libs) }
    ensures added { (host : List ℕ) (libs : List (List ℕ))
        → NoneStands host libs → AreAdded host (segments_of host libs) }
    ensures rounds { (host : List ℕ) (libs : List (List ℕ))
        → NoneStands host libs → AreOfRounds host libs (segments_of host libs) }
    ensures in_place { (host : List ℕ) (libs : List (List ℕ))
        → NoneStands host libs → AreInPlace (segments_of host libs) }
    ensures wanted { (host : List ℕ) (libs : List (List ℕ))
        → NoneStands host libs → AreOfLibraries host libs (segments_of host libs) }
    ensures read { (host : List ℕ) (libs : List (List ℕ))
        → NoneStands host libs → AreRead host libs (segments_of host libs) }
{
    one_reading();
}
