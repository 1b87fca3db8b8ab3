ghost use Rattle.std.specs.Prelude.{◌≡◌, ◌≢◌, ◌∷◌, ◌++◌, [], List, ℕ, All, length, map};
ghost use Rattle.ps_resolve.specs.LinkedBytes.{segments_of};
ghost use Rattle.ps_resolve.specs.Sources.{library_file, order_of};
ghost use Rattle.ps_linkfile.specs.LinkedFile.{LinkedFile};
ghost use Rattle.ps_rebuild_laws.specs.Numbered.{exchanged, renumbered, without, HaveNoNameInCommon, IsOpened};

use crate::same_segments::link_is_its_segments;
use ps_laws::first_of_all;

/// A library that gives nothing may be left out. Where no segment of the link is of it, and the
/// files link, they link to the same bytes without it; the segments are the same, and the number of
/// each file after it is one less.
pub fn library_is_left_out()
    ensures linked { (host lib file : List ℕ) (before after : List (List ℕ))
        → All (λ s. s.file ≢ library_file (length before))
        (segments_of host (before ++ lib ∷ after))
        → LinkedFile host (before ++ lib ∷ after) file → LinkedFile host (before ++ after) file }
    ensures numbers { (host lib file : List ℕ) (before after : List (List ℕ))
        → All (λ s. s.file ≢ library_file (length before))
        (segments_of host (before ++ lib ∷ after))
        → LinkedFile host (before ++ lib ∷ after) file
        → segments_of host (before ++ after)
        ≡ map (renumbered (without (library_file (length before))))
        (segments_of host (before ++ lib ∷ after)) }
{
    first_of_all();
    link_is_its_segments();
}

/// A library may be appended. Where the files link and it can be opened beside the host, they link
/// to the same bytes with it as the last of the libraries; the segments are the same, of the same
/// files.
pub fn library_is_appended()
    ensures linked { (host lib file : List ℕ) (libs : List (List ℕ))
        → IsOpened (order_of host) lib
        → LinkedFile host libs file → LinkedFile host (libs ++ lib ∷ []) file }
    ensures segments { (host lib file : List ℕ) (libs : List (List ℕ))
        → IsOpened (order_of host) lib → LinkedFile host libs file
        → segments_of host (libs ++ lib ∷ []) ≡ segments_of host libs }
{
    first_of_all();
    link_is_its_segments();
}

/// Neighbours may be exchanged. Two libraries that follow one another and have no filled entry of
/// one name that the link takes a unit of: exchanged, the files link to the same bytes. The
/// segments are the same, but for the two numbers of their files. Files that do not link do not
/// link with the two exchanged, if these have no such entry of a name that the link would take a
/// unit of.
pub fn neighbours_are_exchanged()
    ensures linked { (host lib next file : List ℕ) (before after : List (List ℕ))
        → HaveNoNameInCommon (order_of host) (segments_of host (before ++ lib ∷ next ∷ after))
        lib next
        → LinkedFile host (before ++ lib ∷ next ∷ after) file
        → LinkedFile host (before ++ next ∷ lib ∷ after) file }
    ensures refused { (host lib next : List ℕ) (before after : List (List ℕ))
        → HaveNoNameInCommon (order_of host) (segments_of host (before ++ next ∷ lib ∷ after))
        lib next
        → ((file : List ℕ) → LinkedFile host (before ++ lib ∷ next ∷ after) file → ⊥)
        → (file : List ℕ) → LinkedFile host (before ++ next ∷ lib ∷ after) file → ⊥ }
    ensures numbers { (host lib next file : List ℕ) (before after : List (List ℕ))
        → HaveNoNameInCommon (order_of host) (segments_of host (before ++ lib ∷ next ∷ after))
        lib next
        → LinkedFile host (before ++ lib ∷ next ∷ after) file
        → segments_of host (before ++ next ∷ lib ∷ after)
        ≡ map (renumbered (exchanged (library_file (length before))))
        (segments_of host (before ++ lib ∷ next ∷ after)) }
{
    first_of_all();
    link_is_its_segments();
}
