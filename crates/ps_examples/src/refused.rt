ghost use Rattle.std.specs.Prelude.{[], ◌∷◌, ◌++◌, take, Some, None};
ghost use Rattle.ps_examples.specs.Files.{host, library, library_in, host_with, library_with, library_of_used, put_at, with_slot, filled_host, demo, util, aux, tools, count, cuont, state, nobody, unit_ref, publ_ref, priv_ref, publ_def, const_def, eof_mark, util_information};
ghost use Rattle.ps_examples.specs.Refused.{IsRefusedWith};
ghost use Rattle.ps_words.specs.FaultPlaces.{in_file, in_slot, in_record, in_reference};
ghost use Rattle.ps_words.specs.declared.fault.Reason.TheVariants as reason;
ghost use Rattle.ps_words.specs.declared.order.Order.TheVariants.{Little, Big};

/// Faults 1 to 4, each of a file as a whole, and so about no name.
#[tactic(auto, unfolding(ps_resolve::specs::AllFaults::first_fault, ps_resolve::specs::AllFaults::reading_fault, ps_resolve::specs::Faults::slots_fault, ps_resolve::specs::Faults::no_host_fault, ps_resolve::specs::Faults::libraries_fault, ps_resolve::specs::Faults::sources_fault, ps_resolve::specs::Faults::linking_fault, ps_resolve::specs::Faults::definitions_fault, ps_resolve::specs::Faults::privates_fault, ps_resolve::specs::Faults::data_fault, ps_resolve::specs::Faults::references_fault, ps_reading::specs::Sources::own_segments, ps_reading::specs::Added::empty_slots, ps_reading::specs::Added::added_segments, ps_reading::specs::Added::rounds, ps_reading::specs::Added::segments, ps_reading::specs::FaultNames::fault_name, ps_reading::specs::Readings::read_segments, ps_reading::specs::Readings::read_rounds, ps_reading::specs::Readings::all_read, ps_reading::specs::Readings::read_requests, ps_reading::specs::KnownSegments::segments_in_slots))]
pub fn faults_of_files()
    ensures a_short_file { IsRefusedWith (take 511 host) (library ∷ [])
        (in_file 0 reason.ShortFile) None }
    ensures no_byte_order { IsRefusedWith host (put_at 193 (1 ∷ []) library ∷ [])
        (in_file 1 reason.NoOrder) None }
    ensures another_byte_order { IsRefusedWith host (library_in Big ∷ [])
        (in_file 1 reason.OrderMismatch) None }
    ensures no_host_segment { IsRefusedWith (with_slot Little 1 demo 0 1 18 host) (library ∷ [])
        (in_file 0 reason.NoHost) None }
{}

/// Faults 5 to 10, each of a slot of the host, with the name of its entry.
#[tactic(auto, unfolding(ps_resolve::specs::AllFaults::first_fault, ps_resolve::specs::AllFaults::reading_fault, ps_resolve::specs::Faults::slots_fault, ps_resolve::specs::Faults::no_host_fault, ps_resolve::specs::Faults::libraries_fault, ps_resolve::specs::Faults::sources_fault, ps_resolve::specs::Faults::linking_fault, ps_resolve::specs::Faults::definitions_fault, ps_resolve::specs::Faults::privates_fault, ps_resolve::specs::Faults::data_fault, ps_resolve::specs::Faults::references_fault, ps_reading::specs::Sources::own_segments, ps_reading::specs::Added::empty_slots, ps_reading::specs::Added::added_segments, ps_reading::specs::Added::rounds, ps_reading::specs::Added::segments, ps_reading::specs::FaultNames::fault_name, ps_reading::specs::Readings::read_segments, ps_reading::specs::Readings::read_rounds, ps_reading::specs::Readings::all_read, ps_reading::specs::Readings::read_requests, ps_reading::specs::KnownSegments::segments_in_slots))]
pub fn faults_of_slots()
    ensures two_host_segments { IsRefusedWith (with_slot Little 2 tools 1 1 18 host)
        (library ∷ []) (in_slot 0 2 reason.TwoHosts) (Some tools) }
    ensures a_unit_twice { IsRefusedWith (with_slot Little 8 util 3 0 0 host) (library ∷ [])
        (in_slot 0 8 reason.DoubledSegment) (Some util) }
    ensures a_segment_procedure { IsRefusedWith (with_slot Little 8 tools 2 1 18 host)
        (library ∷ []) (in_slot 0 8 reason.SegmentProcedure) (Some tools) }
    ensures a_native_segment { IsRefusedWith (with_slot Little 8 tools 4 1 18 host)
        (library ∷ []) (in_slot 0 8 reason.NativeSegment) (Some tools) }
    ensures an_intrinsic_unit { IsRefusedWith (with_slot Little 8 tools 6 1 18 host)
        (library ∷ []) (in_slot 0 8 reason.Intrinsic) (Some tools) }
    ensures an_unknown_kind { IsRefusedWith (with_slot Little 8 tools 8 1 18 host)
        (library ∷ []) (in_slot 0 8 reason.UnknownKind) (Some tools) }
{}

/// Faults 11 to 18, each of what a slot's code comes from, with the name of the slot.
#[tactic(auto, unfolding(ps_resolve::specs::AllFaults::first_fault, ps_resolve::specs::AllFaults::reading_fault, ps_resolve::specs::Faults::slots_fault, ps_resolve::specs::Faults::no_host_fault, ps_resolve::specs::Faults::libraries_fault, ps_resolve::specs::Faults::sources_fault, ps_resolve::specs::Faults::linking_fault, ps_resolve::specs::Faults::definitions_fault, ps_resolve::specs::Faults::privates_fault, ps_resolve::specs::Faults::data_fault, ps_resolve::specs::Faults::references_fault, ps_reading::specs::Sources::own_segments, ps_reading::specs::Added::empty_slots, ps_reading::specs::Added::added_segments, ps_reading::specs::Added::rounds, ps_reading::specs::Added::segments, ps_reading::specs::FaultNames::fault_name, ps_reading::specs::Readings::read_segments, ps_reading::specs::Readings::read_rounds, ps_reading::specs::Readings::all_read, ps_reading::specs::Readings::read_requests, ps_reading::specs::KnownSegments::segments_in_slots))]
pub fn faults_of_sources()
    ensures an_odd_length { IsRefusedWith (put_at 6 (17 ∷ []) host) (library ∷ [])
        (in_slot 0 1 reason.BadLength) (Some demo) }
    ensures block_0 { IsRefusedWith (put_at 4 (0 ∷ []) host) (library ∷ [])
        (in_slot 0 1 reason.BadAddress) (Some demo) }
    ensures a_missing_unit { IsRefusedWith host [] (in_slot 0 7 reason.MissingUnit) (Some util) }
    ensures no_unit { IsRefusedWith host (put_at 196 (5 ∷ []) library ∷ [])
        (in_slot 1 7 (reason.NotAUnit 5)) (Some util) }
    ensures two_units { IsRefusedWith host (with_slot Little 3 util 3 1 24 library ∷ [])
        (in_slot 1 7 reason.DoubledUnit) (Some util) }
    ensures a_cut_code { IsRefusedWith (take 529 host) (library ∷ [])
        (in_slot 0 1 reason.Truncated) (Some demo) }
    ensures no_outer_block { IsRefusedWith (put_at 526 (0 ∷ []) host) (library ∷ [])
        (in_slot 0 1 reason.BadProcDict) (Some demo) }
    ensures a_native_procedure { IsRefusedWith host (put_at 530 (0 ∷ []) library ∷ [])
        (in_slot 1 7 reason.NativeProcedure) (Some util) }
{}

/// Faults 19 to 23, each of a record that cannot be read, with the name of the slot.
#[tactic(auto, unfolding(ps_resolve::specs::AllFaults::first_fault, ps_resolve::specs::AllFaults::reading_fault, ps_resolve::specs::Faults::slots_fault, ps_resolve::specs::Faults::no_host_fault, ps_resolve::specs::Faults::libraries_fault, ps_resolve::specs::Faults::sources_fault, ps_resolve::specs::Faults::linking_fault, ps_resolve::specs::Faults::definitions_fault, ps_resolve::specs::Faults::privates_fault, ps_resolve::specs::Faults::data_fault, ps_resolve::specs::Faults::references_fault, ps_reading::specs::Sources::own_segments, ps_reading::specs::Added::empty_slots, ps_reading::specs::Added::added_segments, ps_reading::specs::Added::rounds, ps_reading::specs::Added::segments, ps_reading::specs::FaultNames::fault_name, ps_reading::specs::Readings::read_segments, ps_reading::specs::Readings::read_rounds, ps_reading::specs::Readings::all_read, ps_reading::specs::Readings::read_requests, ps_reading::specs::KnownSegments::segments_in_slots))]
pub fn faults_of_unread_records()
    ensures a_cut_record { IsRefusedWith (take 1023 host) (library ∷ [])
        (in_record 0 1 0 reason.RecordsTruncated) (Some demo) }
    ensures an_unknown_record { IsRefusedWith host (put_at 1032 (15 ∷ []) library ∷ [])
        (in_record 1 7 0 reason.UnknownRecord) (Some util) }
    ensures a_native_record { IsRefusedWith host (put_at 1032 (9 ∷ []) library ∷ [])
        (in_record 1 7 0 reason.NativeRecord) (Some util) }
    ensures a_separate_record { IsRefusedWith host (put_at 1032 (13 ∷ []) library ∷ [])
        (in_record 1 7 0 reason.SeparateRecord) (Some util) }
    ensures a_bad_format { IsRefusedWith host (put_at 1034 (1 ∷ []) library ∷ [])
        (in_record 1 7 0 reason.BadFormat) (Some util) }
{}

/// Faults 24 to 27, of definitions and privates, with the name of the symbol or the variable, and
/// of the data size, with that of the host's segment.
#[tactic(auto, unfolding(ps_resolve::specs::AllFaults::first_fault, ps_resolve::specs::AllFaults::reading_fault, ps_resolve::specs::Faults::slots_fault, ps_resolve::specs::Faults::no_host_fault, ps_resolve::specs::Faults::libraries_fault, ps_resolve::specs::Faults::sources_fault, ps_resolve::specs::Faults::linking_fault, ps_resolve::specs::Faults::definitions_fault, ps_resolve::specs::Faults::privates_fault, ps_resolve::specs::Faults::data_fault, ps_resolve::specs::Faults::references_fault, ps_reading::specs::Sources::own_segments, ps_reading::specs::Added::empty_slots, ps_reading::specs::Added::added_segments, ps_reading::specs::Added::rounds, ps_reading::specs::Added::segments, ps_reading::specs::FaultNames::fault_name, ps_reading::specs::Readings::read_segments, ps_reading::specs::Readings::read_rounds, ps_reading::specs::Readings::all_read, ps_reading::specs::Readings::read_requests, ps_reading::specs::KnownSegments::segments_in_slots))]
pub fn faults_of_symbols()
    ensures a_definition_twice { IsRefusedWith
        (host_with Little (publ_def Little count 3 ++ publ_def Little count 4 ++ eof_mark Little 8))
        (library ∷ []) (in_record 0 1 1 reason.DoubledDefinition) (Some count) }
    ensures a_private_twice { IsRefusedWith host (library_with Little
        (publ_ref Little count (1 ∷ []) ++ priv_ref Little state 4 (4 ∷ [])
        ++ priv_ref Little state 4 [] ++ eof_mark Little 0) ∷ [])
        (in_record 1 7 2 reason.DoubledPrivate) (Some state) }
    ensures a_private_without_room { IsRefusedWith
        (host_with Little (publ_def Little count 3 ++ eof_mark Little 32760))
        (library_with Little (publ_ref Little count (1 ∷ []) ++ priv_ref Little state 8 (4 ∷ [])
        ++ eof_mark Little 0) ∷ []) (in_record 1 7 1 reason.NoRoom) (Some state) }
    ensures too_large_data { IsRefusedWith (put_at 516 (248 ∷ 255 ∷ []) host) (library ∷ [])
        (in_slot 0 1 reason.DataTooLarge) (Some demo) }
{}

/// Faults 28, 29 and 31 to 34, of references, with the name of the symbol or the variable.
#[tactic(auto, unfolding(ps_resolve::specs::AllFaults::first_fault, ps_resolve::specs::AllFaults::reading_fault, ps_resolve::specs::Faults::slots_fault, ps_resolve::specs::Faults::no_host_fault, ps_resolve::specs::Faults::libraries_fault, ps_resolve::specs::Faults::sources_fault, ps_resolve::specs::Faults::linking_fault, ps_resolve::specs::Faults::definitions_fault, ps_resolve::specs::Faults::privates_fault, ps_resolve::specs::Faults::data_fault, ps_resolve::specs::Faults::references_fault, ps_reading::specs::Sources::own_segments, ps_reading::specs::Added::empty_slots, ps_reading::specs::Added::added_segments, ps_reading::specs::Added::rounds, ps_reading::specs::Added::segments, ps_reading::specs::FaultNames::fault_name, ps_reading::specs::Readings::read_segments, ps_reading::specs::Readings::read_rounds, ps_reading::specs::Readings::all_read, ps_reading::specs::Readings::read_requests, ps_reading::specs::KnownSegments::segments_in_slots))]
pub fn faults_of_references()
    ensures no_definition { IsRefusedWith host (library_with Little
        (publ_ref Little cuont (1 ∷ []) ++ priv_ref Little state 4 (4 ∷ []) ++ eof_mark Little 0)
        ∷ []) (in_record 1 7 0 reason.MissingDefinition) (Some cuont) }
    ensures a_constant { IsRefusedWith
        (host_with Little (const_def Little count 3 ++ eof_mark Little 8)) (library ∷ [])
        (in_record 1 7 0 reason.IllKind) (Some count) }
    ensures outside_the_code { IsRefusedWith host (library_with Little
        (publ_ref Little count (23 ∷ []) ++ priv_ref Little state 4 (4 ∷ []) ++ eof_mark Little 0)
        ∷ []) (in_reference 1 7 0 0 reason.OutsideCode) (Some count) }
    ensures a_reserved_place { IsRefusedWith host (library_with Little
        (publ_ref Little count (1 ∷ 9 ∷ []) ++ priv_ref Little state 4 (4 ∷ [])
        ++ eof_mark Little 0) ∷ []) (in_reference 1 7 0 1 reason.ReservedPlace) (Some count) }
    ensures two_operands_overlap { IsRefusedWith host (library_with Little
        (publ_ref Little count (1 ∷ []) ++ priv_ref Little state 4 (2 ∷ []) ++ eof_mark Little 0)
        ∷ []) (in_reference 1 7 1 0 reason.Overlap) (Some state) }
    ensures a_large_operand { IsRefusedWith
        (host_with Little (publ_def Little count 32767 ++ eof_mark Little 8))
        (put_at 514 (1 ∷ []) library ∷ []) (in_reference 1 7 0 0 reason.OperandTooLarge)
        (Some count) }
{}

/// Faults of units that only a unit requests: 13, with the name that the record requests; 35,
/// likewise; and one of a unit for an empty slot, with the name that is requested there.
#[tactic(auto, unfolding(ps_resolve::specs::AllFaults::first_fault, ps_resolve::specs::AllFaults::reading_fault, ps_resolve::specs::Faults::slots_fault, ps_resolve::specs::Faults::no_host_fault, ps_resolve::specs::Faults::libraries_fault, ps_resolve::specs::Faults::sources_fault, ps_resolve::specs::Faults::linking_fault, ps_resolve::specs::Faults::definitions_fault, ps_resolve::specs::Faults::privates_fault, ps_resolve::specs::Faults::data_fault, ps_resolve::specs::Faults::references_fault, ps_reading::specs::Sources::own_segments, ps_reading::specs::Added::empty_slots, ps_reading::specs::Added::added_segments, ps_reading::specs::Added::rounds, ps_reading::specs::Added::segments, ps_reading::specs::FaultNames::fault_name, ps_reading::specs::Readings::read_segments, ps_reading::specs::Readings::read_rounds, ps_reading::specs::Readings::all_read, ps_reading::specs::Readings::read_requests, ps_reading::specs::KnownSegments::segments_in_slots))]
pub fn faults_of_requested_units()
    ensures a_missing_unit { IsRefusedWith host
        (library_with Little (unit_ref Little nobody [] ++ eof_mark Little 0) ∷ [])
        (in_record 1 7 0 reason.MissingUnit) (Some nobody) }
    ensures a_missing_unit_of_an_added_one { IsRefusedWith host
        (library_of_used (unit_ref Little nobody [] ++ eof_mark Little 0) ∷ [])
        (in_record 1 8 0 reason.MissingUnit) (Some nobody) }
    ensures no_slot { IsRefusedWith (filled_host 8)
        (library_of_used (util_information Little) ∷ [])
        (in_record 1 7 0 reason.NoSlot) (Some aux) }
    ensures an_added_unit_of_odd_length { IsRefusedWith host
        (put_at 14 (23 ∷ []) (library_of_used (util_information Little)) ∷ [])
        (in_slot 1 8 reason.BadLength) (Some aux) }
{}
