//! What a report says of libraries and slots that are not used, computed on small files. A function
//! that does nothing, whose clauses are the examples.
ghost use Rattle.std.specs.Prelude.{◌≡◌, [], ◌∷◌, ◌++◌};
ghost use Rattle.ps_explained.specs.OverviewText.{later_entries, overview_text, unused_libraries};
ghost use Rattle.ps_explained.specs.SmallOverviews.{aux_text, demo_text, host, libraries, missing_text, paths, rest_of_three, rest_without_aux, taken_from, three, util_text, without_aux};
ghost use Rattle.ps_warnings.specs.SmallEntries.{util};
ghost use Rattle.ps_warnings.specs.SmallFiles.{demo};

/// The text of the segments of a host with five libraries, of which two are used, and of the same link
/// where a unit is missing; the later libraries that have a name too; and the libraries from which
/// nothing is taken.
pub fn texts_of_segments()
    ensures three { overview_text paths host libraries three
        ≡ demo_text ++ (util_text ++ (aux_text ++ rest_of_three)) }
    ensures a_missing_unit { overview_text paths host libraries without_aux
        ≡ demo_text ++ (util_text ++ (missing_text ++ rest_without_aux)) }
    ensures no_segment { overview_text paths host libraries [] ≡ [] }
    ensures later_than_the_first { later_entries host libraries util 1
        ≡ (2, 3) ∷ (3, 5) ∷ (5, 13) ∷ [] }
    ensures later_than_the_host { later_entries host libraries demo 0 ≡ [] }
    ensures later_than_the_last { later_entries host libraries util 5 ≡ [] }
    ensures the_third_is_not_used { unused_libraries libraries
        (taken_from 5 ∷ taken_from 1 ∷ taken_from 4 ∷ taken_from 2 ∷ []) ≡ 3 ∷ [] }
    ensures two_are_not_used { unused_libraries libraries
        (taken_from 3 ∷ taken_from 0 ∷ taken_from 1 ∷ taken_from 4 ∷ []) ≡ 2 ∷ 5 ∷ [] }
    ensures each_is_used { unused_libraries (host ∷ host ∷ [])
        (taken_from 2 ∷ taken_from 1 ∷ []) ≡ [] }
{}
