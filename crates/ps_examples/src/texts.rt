ghost use Rattle.std.specs.Prelude.{◌≡◌, [], ◌∷◌, ◌++◌, codes};
ghost use Rattle.ps_examples.specs.Files.{host, library, host_with, library_with, util, count, state, limit, unit_ref, publ_ref, priv_ref, publ_def, const_def, eof_mark, util_information, library_of_used};
ghost use Rattle.ps_examples.specs.Texts.{json_of_the_pair, json_with_references, json_without_an_item, references_of_the_pair, map_of_the_pair, map_with_a_constant, map_of_an_added_unit, show_of_the_library, show_of_the_linked_file, links_of_every_kind};
ghost use Rattle.ps_writing.specs.JsonText.{json_name};
ghost use Rattle.ps_writing.specs.Lines.{shown_name};
ghost use Rattle.ps_linkfile.specs.LinkedFile.{linked_file};
ghost use Rattle.ps_linkfile.specs.MapText.{map_of, map_json_of};
ghost use Rattle.ps_linkfile.specs.ReferencesJson.{IsReferencesJson};
ghost use Rattle.ps_linkfile.specs.ReferencesText.{references_of};
ghost use Rattle.ps_linkfile.specs.ShowText.{show_of, links_lines};
ghost use Rattle.ps_words.specs.declared.order.Order.TheVariants.{Little};

/// What map prints of a link: of its segments, its definitions and its private variables.
pub fn map_texts()
    ensures a_host_and_its_library { map_of host (library ∷ []) ≡ map_of_the_pair }
    ensures a_constant_after_the_public_variable { map_of
        (host_with Little (publ_def Little count 3 ++ const_def Little limit 9
        ++ eof_mark Little 8)) (library ∷ []) ≡ map_with_a_constant }
    ensures a_unit_that_only_a_unit_names { map_of host
        (library_of_used (util_information Little) ∷ []) ≡ map_of_an_added_unit }
{}

/// What map prints of what a link stores, as lines.
pub fn reference_texts()
    ensures a_host_and_its_library { references_of host (library ∷ []) ≡ references_of_the_pair }
{}

/// What map prints as JSON.
pub fn json_documents()
    ensures a_host_and_its_library { map_json_of host (library ∷ []) ≡ json_of_the_pair }
    ensures with_its_references { IsReferencesJson host (library ∷ []) json_with_references }
    ensures an_item_less { IsReferencesJson host (library ∷ []) json_without_an_item → ⊥ }
    ensures a_name_that_ascii_does_not_print { json_name (34 ∷ 92 ∷ 0 ∷ 65 ∷ 126 ∷ 127 ∷ 255 ∷ 32 ∷ [])
        ≡ codes "\"name\":\"\\\"\\\\?A~?? \",\"name_hex\":\"225C00417E7FFF20\"" }
{}

/// What show prints of a file, of a name, and of the link information of a slot.
pub fn show_texts()
    ensures the_library { show_of library ≡ show_of_the_library }
    ensures the_linked_file_of_a_host_and_its_library { show_of (linked_file host (library ∷ []))
        ≡ show_of_the_linked_file }
    ensures a_name_of_bytes_at_the_edges { shown_name (31 ∷ 32 ∷ 126 ∷ 127 ∷ 255 ∷ []) ≡ codes "? ~??" }
    ensures a_record_of_every_kind { links_lines Little
        (library_with Little (unit_ref Little util (2 ∷ []) ++ publ_ref Little count (1 ∷ 4 ∷ [])
        ++ priv_ref Little state 4 [] ++ const_def Little limit 9 ++ eof_mark Little 0)) 2
        ≡ links_of_every_kind }
{}
