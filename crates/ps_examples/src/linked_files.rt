ghost use Rattle.std.specs.Prelude.{◌≡◌, [], ◌∷◌, ◌++◌};
ghost use Rattle.ps_examples.specs.Files.{host, library, host_in, library_in, host_in_place, library_of_used, count, publ_ref, eof_mark, util_information};
ghost use Rattle.ps_examples.specs.Expected.{linked_pair, linked_in_place, linked_added};
ghost use Rattle.ps_linkfile.specs.LinkedFile.{linked_file};
ghost use Rattle.ps_words.specs.declared.order.Order.TheVariants.{Little, Big};

/// What is written of a host and its library, of a host with its unit in place, and of a unit that
/// only a unit names.
#[tactic(auto, unfolding(ps_reading::specs::Sources::own_segments, ps_reading::specs::Added::empty_slots, ps_reading::specs::Added::added_segments, ps_reading::specs::Added::segments, ps_reading::specs::Added::slot_names, ps_linkfile::specs::LinkedFile::dictionary, ps_linkfile::specs::LinkedFile::all_pairs))]
pub fn linked_bytes()
    ensures a_host_and_its_library { linked_file host (library ∷ []) ≡ linked_pair Little }
    ensures the_same_big_endian { linked_file (host_in Big) (library_in Big ∷ [])
        ≡ linked_pair Big }
    ensures a_unit_in_place { linked_file
        (host_in_place Little (publ_ref Little count (1 ∷ []) ++ eof_mark Little 0)) []
        ≡ linked_in_place }
    ensures a_unit_that_only_a_unit_names { linked_file host
        (library_of_used (util_information Little) ∷ []) ≡ linked_added }
{}
