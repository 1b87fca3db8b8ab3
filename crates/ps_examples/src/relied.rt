ghost use Rattle.std.specs.Prelude.{◌≡◌, [], ◌∷◌, map, replicate, slice_index, Some};
ghost use Rattle.ps_examples.specs.Expected.{linked_pair, linked_other_library};
ghost use Rattle.ps_examples.specs.ReadAlike.{library_elsewhere};
ghost use Rattle.ps_examples.specs.Files.{host, library, library_of_the_last, put_at, aux};
ghost use Rattle.ps_linkfile.specs.LinkedFile.{LinkedFile, linked_file};
ghost use Rattle.ps_rebuild_laws.specs.Alike.{AreFilesAlike};
ghost use Rattle.ps_rebuild_laws.specs.Numbered.{exchanged, renumbered, without, HaveNoNameInCommon};
ghost use Rattle.ps_rebuild_laws.specs.SameSegments.{AreSameSegments, HaveSameHeads};
ghost use Rattle.ps_rebuild_laws.specs.StoredLines.{all_stored, AreMadeByLines, IsLine};
ghost use Rattle.ps_rebuild_laws.specs.Used.{AreUsedAlike};
ghost use Rattle.ps_resolve.specs.AllFaults.{first_fault};
ghost use Rattle.ps_resolve.specs.LinkedBytes.{segments_of};
ghost use Rattle.ps_words.specs.FaultPlaces.{in_file, in_slot};
ghost use Rattle.ps_words.specs.declared.fault.Reason.TheVariants as reason;
ghost use Rattle.ps_words.specs.declared.order.Order.TheVariants.{Little};

use ps_laws::first_of_all;
use ps_linkfile::linked_file_is_one;
use ps_rebuild_laws::{
    library_is_appended, library_is_left_out, link_is_its_segments, neighbours_are_exchanged,
    references_make_the_file, what_is_not_read, what_is_not_used,
};

/// What a build may rely on, of the host and its library: the lines of the references and the bytes
/// that they make; a unit in other blocks of its library, a text address and a byte after an end
/// mark; a library that gives nothing, is appended, or stands elsewhere; another code of a unit that
/// an earlier library gives; and a unit in another slot.
pub fn what_may_be_relied_on()
    ensures made_by_its_lines { AreMadeByLines host (library ∷ []) (linked_pair Little) }
    ensures a_line { IsLine (all_stored host (library ∷ [])) 7 1 (128 ∷ 3 ∷ []) }
    ensures alike { AreFilesAlike host host (library ∷ []) (library_elsewhere ∷ []) }
    ensures linked_alike { LinkedFile host (library_elsewhere ∷ [])
        (linked_pair Little) }
    ensures without_one { LinkedFile host (library ∷ []) (linked_pair Little) }
    ensures its_number { segments_of host (library ∷ []) ≡ map (renumbered (without 1))
        (segments_of host (put_at 80 aux library ∷ library ∷ [])) }
    ensures appended { LinkedFile host (library ∷ put_at 80 aux library ∷ []) (linked_pair Little) }
    ensures apart { HaveNoNameInCommon Little
        (segments_of host (library ∷ put_at 80 aux library ∷ [])) library
        (put_at 80 aux library) }
    ensures exchanged { LinkedFile host (put_at 80 aux library ∷ library ∷ [])
        (linked_pair Little) }
    ensures used_alike { AreUsedAlike Little (segments_of host (library ∷ library ∷ [])) 1
        (library ∷ library ∷ []) (library ∷ put_at 518 (0 ∷ 0 ∷ []) library ∷ []) }
    ensures not_used { LinkedFile host (library ∷ put_at 518 (0 ∷ 0 ∷ []) library ∷ [])
        (linked_pair Little) }
    ensures same_segments { AreSameSegments (segments_of host (library ∷ []))
        (segments_of host (library_of_the_last ∷ [])) }
    ensures linked_of_the_last { LinkedFile host (library_of_the_last ∷ []) (linked_pair Little) }
{
    first_of_all();
    linked_file_is_one();
    library_is_appended();
    library_is_left_out();
    link_is_its_segments();
    neighbours_are_exchanged();
    references_make_the_file();
    what_is_not_read();
    what_is_not_used();
}

/// What the laws do not say: that a line names only bytes that change, or bytes of the input; that
/// a host's tail is not read; that a library may be left out that gives a segment, or that cannot be
/// opened; that libraries may be exchanged that have a unit in common; that a unit which is used may
/// change; and that the same segments make one file for hosts of other tails.
pub fn what_is_not_to_be_relied_on()
    ensures a_line_of_a_byte_that_stays { IsLine (all_stored host (library ∷ [])) 1 16 (1 ∷ []) }
    ensures a_byte_of_the_input { slice_index library 514 ≡ 0 }
    ensures a_byte_of_a_line { slice_index (linked_pair Little) 1026 ≡ 3 }
    ensures another_tail { AreFilesAlike host (put_at 300 (43 ∷ []) host) [] [] → ⊥ }
    ensures its_file { slice_index (linked_file (put_at 300 (43 ∷ []) host) (library ∷ [])) 300
        ≡ 43 }
    ensures a_library_that_gives { first_fault host [] ≡ Some (in_slot 0 7 reason.MissingUnit) }
    ensures a_library_that_is_refused { first_fault host (library ∷ replicate 511 0 ∷ [])
        ≡ Some (in_file 2 reason.ShortFile) }
    ensures the_first_of_two { linked_file host (library ∷ put_at 518 (0 ∷ 0 ∷ []) library ∷ [])
        ≡ linked_pair Little }
    ensures the_other_of_two { linked_file host (put_at 518 (0 ∷ 0 ∷ []) library ∷ library ∷ [])
        ≡ linked_other_library }
    ensures a_name_in_common { HaveNoNameInCommon Little
        (segments_of host (library ∷ put_at 518 (0 ∷ 0 ∷ []) library ∷ [])) library
        (put_at 518 (0 ∷ 0 ∷ []) library) → ⊥ }
    ensures a_unit_that_is_used { AreUsedAlike Little (segments_of host (library ∷ [])) 1
        (library ∷ []) (put_at 518 (0 ∷ 0 ∷ []) library ∷ []) → ⊥ }
    ensures another_head { HaveSameHeads host (put_at 300 (43 ∷ []) host) → ⊥ }
{}
