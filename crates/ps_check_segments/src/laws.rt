//! Laws of the segments of a link as they are seen: what is computed of them is what the pages say.
//! Functions that do nothing, whose clauses are the laws.
ghost use Rattle.std.specs.Prelude.{◌≡◌, ℕ, List, Ok};
ghost use Rattle.ps_resolve.specs.Readings.{HostFiles, opened_host};
ghost use Rattle.ps_check_segments.specs.SeenFacts.{AreSeen};
ghost use Rattle.ps_check_segments.specs.SeenSegments.{seen_segments};

/// Of a host that can be opened the segments are seen by slot, and then the first unit for which no
/// slot is left. Each slot that has or wants a segment has its item, and each segment that was read.
/// An item is of a segment that was read, or of an entry that is refused, or it comes from nowhere for
/// a reason that holds.
pub fn segments_are_seen()
    ensures { (host : List ℕ) (libs : List (List ℕ)) (h : HostFiles) → opened_host host libs ≡ Ok h
        → AreSeen host libs h (seen_segments host libs) }
{}
