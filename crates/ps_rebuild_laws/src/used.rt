ghost use Rattle.std.specs.Prelude.{List, ℕ};
ghost use Rattle.ps_resolve.specs.LinkedBytes.{segments_of};
ghost use Rattle.ps_resolve.specs.Sources.{order_of};
ghost use Rattle.ps_linkfile.specs.LinkedFile.{LinkedFile};
ghost use Rattle.ps_rebuild_laws.specs.Used.{AreUsedAlike};

use crate::same_segments::link_is_its_segments;
use ps_laws::first_of_all;

/// What is not used does not matter. Where the files link, other libraries of which the link reads
/// the same, one by one, link to the same bytes. A library counts by the entries of the names that
/// the link looks for in it: those of the units that it takes from it or from a later one. The
/// same slots have such a name, and have the same kind, code and records. A unit that the link
/// does not take may change, come or go, if it has no such name.
pub fn what_is_not_used()
    ensures { (host : List ℕ) (libs others : List (List ℕ)) (file : List ℕ)
        → AreUsedAlike (order_of host) (segments_of host libs) 1 libs others
        → LinkedFile host libs file → LinkedFile host others file }
{
    first_of_all();
    link_is_its_segments();
}
