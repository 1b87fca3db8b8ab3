ghost use Rattle.std.specs.Prelude.{◌≡◌, ℕ, List, [], ◌∷◌, None, take};
ghost use Rattle.ps_codefile.specs.Dictionary.{entry_at};
ghost use Rattle.ps_codefile.specs.declared.entry.Role.TheVariants as role;
ghost use Rattle.ps_examples.specs.Files.{host, library, host_with_tools, put_at, with_slot, blank_name, util, aux, util_code, host_without_7, library_of_the_last, library_past_the_last};
ghost use Rattle.ps_examples.specs.Segments.{demo_segment, util_segment, using_segment, aux_segment, self_segment, count_segment, past_segment, tools_segment, nobody_segment, count_reference, pair, three, with_plain};
ghost use Rattle.ps_resolve.specs.Origins.{HasOne, IsOwn, IsAddedUnit, IsFile, IsInPlace, IsUnitOf, IsSliceOf, IsReadFrom};
ghost use Rattle.ps_resolve.specs.Sources.{Segment};
ghost use Rattle.ps_words.specs.declared.order.Order.TheVariants.{Little};

use ps_laws::{first_of_all, segments_have_origins};

/// Where the segments of a host and its libraries come from: the host's own, a unit of the first
/// library that has it, one that is added for another, and a plain segment.
pub fn origins_of_segments()
    ensures an_added_unit_s_segments { three ≡ demo_segment ∷ using_segment ∷ aux_segment ∷ [] }
    ensures a_plain_segment_s { with_plain ≡ demo_segment ∷ util_segment ∷ tools_segment ∷ [] }
    ensures a_slot_has_one { HasOne pair 7 }
    ensures file_0 { IsFile host (library ∷ []) 0 host }
    ensures file_1 { IsFile host (library ∷ []) 1 library }
    ensures a_host_segment_is_own { IsOwn Little host demo_segment }
    ensures a_wanted_unit_is_own { IsOwn Little host util_segment }
    ensures an_added_unit { IsAddedUnit Little host three aux_segment }
    ensures in_place { IsInPlace demo_segment }
    ensures in_the_library { IsUnitOf Little host (library ∷ []) util 1 2 }
    ensures in_the_last_entry { IsUnitOf Little host (library_of_the_last ∷ []) util 1 15 }
    ensures its_slice { IsSliceOf library (entry_at Little library 2) (util_code Little) }
    ensures read_from_the_host { IsReadFrom Little host (library ∷ []) demo_segment }
    ensures read_from_the_library { IsReadFrom Little host (library ∷ []) util_segment }
    ensures read_from_the_last_entry { IsReadFrom Little host (library_of_the_last ∷ [])
        (record util_segment { index = 15 }) }
    ensures a_plain_one_is_not_read { IsReadFrom Little
        host_with_tools (library ∷ []) tools_segment }
{
    first_of_all();
    segments_have_origins();
}

/// Where segments do not come from: each clause has one that looks like one of a link and lacks one
/// fact of it.
pub fn segments_of_no_link()
    ensures a_slot_with_two { HasOne (aux_segment ∷ tools_segment ∷ []) 8 → ⊥ }
    ensures a_slot_without_one { HasOne (demo_segment ∷ []) 7 → ⊥ }
    ensures not_of_another_role { IsOwn Little host
        (record demo_segment { role = role.Plain }) → ⊥ }
    ensures not_of_an_empty_slot { IsOwn Little host
        (record aux_segment { role = role.Empty; name = blank_name }) → ⊥ }
    ensures not_of_another_name { IsOwn Little host (record util_segment { name = aux }) → ⊥ }
    ensures not_in_a_taken_slot { (segs : List Segment)
        → IsAddedUnit Little host segs (record aux_segment { slot = 7 }) → ⊥ }
    ensures not_in_a_low_slot { (segs : List Segment)
        → IsAddedUnit Little host segs (record aux_segment { slot = 6 }) → ⊥ }
    ensures not_past_an_empty_slot { IsAddedUnit Little host
        (demo_segment ∷ using_segment ∷ past_segment ∷ []) past_segment → ⊥ }
    ensures not_past_slot_7 { IsAddedUnit Little host_without_7
        ((record using_segment { slot = 9 }) ∷ aux_segment ∷ []) aux_segment → ⊥ }
    ensures not_of_another_role_than_wanted { (segs : List Segment)
        → IsAddedUnit Little host segs (record aux_segment { role = role.Unit }) → ⊥ }
    ensures not_requested_by_itself_alone { IsAddedUnit Little host
        (util_segment ∷ self_segment ∷ []) self_segment → ⊥ }
    ensures not_requested_by_another_name { IsAddedUnit Little host
        (using_segment ∷ nobody_segment ∷ []) nobody_segment → ⊥ }
    ensures not_requested_by_a_publ_ref { IsAddedUnit Little host
        (util_segment ∷ count_segment ∷ []) count_segment → ⊥ }
    ensures not_of_a_name_of_blanks { (segs : List Segment)
        → IsAddedUnit Little host segs (record aux_segment { name = blank_name }) → ⊥ }
    ensures not_of_a_name_that_the_host_has { (segs : List Segment)
        → IsAddedUnit Little host segs (record aux_segment { name = util }) → ⊥ }
    ensures not_in_place_in_a_library { IsInPlace (record demo_segment { file = 1 }) → ⊥ }
    ensures not_in_place_at_another_entry { IsInPlace (record demo_segment { index = 2 }) → ⊥ }
    ensures not_in_the_host { IsUnitOf Little library [] util 0 2 → ⊥ }
    ensures not_in_a_later_library { IsUnitOf Little host (library ∷ library ∷ []) util 2 2 → ⊥ }
    ensures not_the_entry_of_another_name { IsUnitOf Little host (library ∷ []) aux 1 2 → ⊥ }
    ensures not_an_entry_without_a_length { IsUnitOf Little host
        (with_slot Little 2 util 3 1 0 library ∷ []) util 1 2 → ⊥ }
    ensures not_one_of_two_entries { IsUnitOf Little host
        (with_slot Little 15 util 3 1 24 library ∷ []) util 1 2 → ⊥ }
    ensures not_an_entry_of_another_kind { IsUnitOf Little host
        (put_at 196 (5 ∷ []) library ∷ []) util 1 2 → ⊥ }
    ensures not_in_a_file_that_is_not_there { IsUnitOf Little host
        (put_at 80 aux library ∷ []) util 2 2 → ⊥ }
    ensures not_an_entry_past_the_last { (name : List ℕ)
        → IsUnitOf Little host (library_past_the_last ∷ []) name 1 16 → ⊥ }
    ensures not_cut { IsSliceOf
        (take 530 library) (entry_at Little library 2) (take 18 (util_code Little)) → ⊥ }
    ensures not_other_bytes { IsSliceOf library
        (entry_at Little library 2) (put_at 5 (3 ∷ []) (util_code Little)) → ⊥ }
    ensures not_of_an_odd_length { IsReadFrom Little host
        (with_slot Little 2 util 3 1 23 library ∷ [])
        (record util_segment { code = take 23 (util_code Little) }) → ⊥ }
    ensures not_of_another_file { IsReadFrom Little host (library ∷ [])
        (record util_segment { file = 0 }) → ⊥ }
    ensures not_read_past_the_last_entry { IsReadFrom Little host (library_past_the_last ∷ [])
        (record util_segment { index = 16 }) → ⊥ }
    ensures not_without_its_tables { IsReadFrom Little host (library ∷ [])
        (record util_segment { tables = None }) → ⊥ }
    ensures not_in_another_block { IsReadFrom Little host (library ∷ [])
        (record util_segment { block = 3 }) → ⊥ }
    ensures not_without_its_records { IsReadFrom Little host (library ∷ [])
        (record util_segment { records = [] }) → ⊥ }
    ensures not_with_records_of_its_own { (libs : List (List ℕ)) → IsReadFrom Little
        host_with_tools libs (record tools_segment { records = count_reference ∷ [] }) → ⊥ }
{}
