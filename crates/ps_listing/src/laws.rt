//! What a list says of the segments of a file, computed on a small one. A function that does nothing,
//! whose clauses are the examples.
ghost use Rattle.std.specs.Prelude.{◌≡◌, ◌++◌, [], codes};
ghost use Rattle.ps_codefile.specs.Opened.{opened};
ghost use Rattle.ps_listing.specs.Listed.{segments_found};
ghost use Rattle.ps_listing.specs.ListText.{list_of};
ghost use Rattle.ps_listing.specs.LoneText.{lone_text};
ghost use Rattle.ps_listing.specs.SmallLists.{file_text, segments_text, small_file, small_segments, small_units, units_text};

/// The segments of a small file, each with its own length, and the lines of its list; and the lines of
/// three units by themselves.
pub fn lines_of_a_file()
    ensures segments { segments_found [] (opened small_file) ≡ small_segments }
    ensures lines { list_of (codes "a.code") [] small_file ≡ file_text ++ segments_text }
    ensures units { lone_text (codes "a.code") small_units ≡ units_text }
{}
