ghost use Rattle.std.specs.Prelude.{◌≡◌, ℕ, List, [], ◌∷◌};
ghost use Rattle.ps_examples.specs.Files.{blank_name, util, aux, tools, count, state};
ghost use Rattle.ps_examples.specs.Segments.{state_reference, demo_segment, util_segment, using_segment, tools_segment, displaced_segment, displaced_pair, pair, three, with_plain, with_constant, with_unused, meeting_segment, twice_segment, numbered_segment, sized_segment};
ghost use Rattle.ps_linkinfo.specs.declared.record.Body.TheVariants.{UnitRef, PublRef, PrivRef, PublDef, ConstDef, Eof};
ghost use Rattle.ps_resolve.specs.LinkedBytes.{Reaches, Becomes, IsSlotOf, IsPublic, IsBase, IsNumberPlace, IsSizePlace, IsLinkedByte, IsOnePlace, private_offset};
ghost use Rattle.ps_words.specs.declared.order.Order.TheVariants.{Little};

use ps_laws::{bytes_are_linked, first_of_all};

/// The facts of linked bytes on a host and its library: which segments there are, what their
/// references become, and of each kind of place a byte: of a reference's operand, of the number
/// of a slot, of the data size, and one that is kept; and a place of one reference alone.
pub fn facts_of_bytes()
    ensures segments { pair ≡ demo_segment ∷ util_segment ∷ [] }
    ensures a_private { private_offset pair 7 1 ≡ 8 }
    ensures a_public_operand { Becomes pair
        util_segment 0 count (PublRef (1 ∷ [])) 1 (128 ∷ 3 ∷ []) }
    ensures a_private_operand { Becomes pair
        util_segment 1 state (PrivRef 4 (4 ∷ [])) 4 (128 ∷ 10 ∷ []) }
    ensures a_unit_operand { Becomes three using_segment 0 aux (UnitRef (2 ∷ [])) 2 (8 ∷ []) }
    ensures its_place { Reaches util_segment 1 state_reference 0 4 5 }
    ensures a_number_place { IsNumberPlace util_segment 22 }
    ensures a_size_place { IsSizePlace Little demo_segment 12 1 5 }
    ensures a_reference { IsLinkedByte Little pair util_segment 2 3 }
    ensures a_number { IsLinkedByte Little pair util_segment 22 7 }
    ensures a_size_byte { IsLinkedByte Little pair demo_segment 4 18 }
    ensures a_kept_byte { IsLinkedByte Little pair util_segment 0 165 }
    ensures a_place_of_one_reference { IsOnePlace Little util_segment 2 }
{
    first_of_all();
    bytes_are_linked();
}

/// What is not said of linked bytes: no other byte is at a place of each kind, as the input's, the
/// value without the displacement, the number of another slot, or the data size that did not grow.
/// And what is no number's place, no data size, no base offset, no unit of a name, no value of one,
/// and no place of one reference alone.
pub fn bytes_that_are_not_linked()
    ensures not_the_input_s_operand { IsLinkedByte Little pair util_segment 2 0 → ⊥ }
    ensures not_without_the_displacement { IsLinkedByte Little displaced_pair
        displaced_segment 1 128 → ⊥ }
    ensures not_the_private_s_offset_alone { IsLinkedByte Little pair util_segment 5 8 → ⊥ }
    ensures not_the_input_s_number { IsLinkedByte Little pair util_segment 22 2 → ⊥ }
    ensures not_the_number_of_another_slot { IsLinkedByte Little pair util_segment 22 1 → ⊥ }
    ensures not_the_input_s_size { IsLinkedByte Little pair demo_segment 4 10 → ⊥ }
    ensures not_grown_by_words { IsLinkedByte Little pair demo_segment 4 14 → ⊥ }
    ensures not_another_second_byte { IsLinkedByte Little pair demo_segment 5 1 → ⊥ }
    ensures not_another_byte { IsLinkedByte Little pair util_segment 0 166 → ⊥ }
    ensures a_plain_segment_has_no_number { IsNumberPlace tools_segment 3 → ⊥ }
    ensures a_unit_has_no_data_size { (t j p : ℕ) → IsSizePlace Little util_segment t j p → ⊥ }
    ensures a_data_size_has_two_bytes { IsSizePlace Little demo_segment 12 2 6 → ⊥ }
    ensures a_unit_s_end_mark_gives_no_base { IsBase pair 0 → ⊥ }
    ensures a_definition_gives_no_base { IsBase pair 3 → ⊥ }
    ensures not_the_slot_of_another_unit { Becomes three
        using_segment 0 aux (UnitRef (2 ∷ [])) 2 (7 ∷ []) → ⊥ }
    ensures not_without_the_base { Becomes pair
        util_segment 1 state (PrivRef 4 (4 ∷ [])) 4 (128 ∷ 2 ∷ []) → ⊥ }
    ensures a_definition_has_no_operand { (bytes : List ℕ)
        → Becomes pair demo_segment 0 count (PublDef 3) 1 bytes → ⊥ }
    ensures a_constant_has_no_operand { (bytes : List ℕ)
        → Becomes pair demo_segment 0 count (ConstDef 3) 1 bytes → ⊥ }
    ensures an_end_mark_has_no_operand { (bytes : List ℕ)
        → Becomes pair demo_segment 1 blank_name (Eof 8) 1 bytes → ⊥ }
    ensures a_plain_segment_is_no_unit { IsSlotOf with_plain tools 8 → ⊥ }
    ensures not_the_unit_of_another_name { IsSlotOf pair aux 7 → ⊥ }
    ensures not_another_slot { IsSlotOf pair util 1 → ⊥ }
    ensures a_constant_is_not_public { IsPublic with_constant count 3 → ⊥ }
    ensures not_the_value_of_another_name { IsPublic pair state 3 → ⊥ }
    ensures a_unit_defines_nothing { IsPublic with_unused state 9 → ⊥ }
    ensures a_place_of_two_records { IsOnePlace Little meeting_segment 2 → ⊥ }
    ensures a_place_twice_of_a_record { IsOnePlace Little twice_segment 2 → ⊥ }
    ensures a_reference_at_the_number { IsOnePlace Little numbered_segment 22 → ⊥ }
    ensures a_reference_at_the_data_size { IsOnePlace Little sized_segment 4 → ⊥ }
{
    first_of_all();
    bytes_are_linked();
}
