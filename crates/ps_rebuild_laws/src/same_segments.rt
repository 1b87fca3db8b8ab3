ghost use Rattle.std.specs.Prelude.{List, ℕ};
ghost use Rattle.ps_resolve.specs.LinkedBytes.{segments_of};
ghost use Rattle.ps_resolve.specs.Standing.{NoneStands};
ghost use Rattle.ps_linkfile.specs.LinkedFile.{LinkedFile};
ghost use Rattle.ps_rebuild_laws.specs.SameSegments.{AreSameSegments, HaveSameHeads};

use ps_laws::first_of_all;
use ps_linkfile::linked_file_is_one;

/// A link is what its segments are. Where two links have the same segments, by slot, name, role,
/// code and records, and hosts of one byte order with the same names and the same tail of their
/// dictionaries, the linked files are the same, from whichever files the segments come.
pub fn link_is_its_segments()
    ensures { (host other : List ℕ) (libs others : List (List ℕ)) (file : List ℕ)
        → LinkedFile host libs file → NoneStands other others → HaveSameHeads host other
        → AreSameSegments (segments_of host libs) (segments_of other others)
        → LinkedFile other others file }
{
    first_of_all();
    linked_file_is_one();
}
