//! Laws of code files: what is tested of a file is what the pages say. Functions that do nothing,
//! whose clauses are the laws.
ghost use Rattle.std.specs.Prelude.{◌≡◌, ◌↔◌, ℕ, List, true};
ghost use Rattle.ps_filetype.specs.CodeFileFacts.{IsCodeFileAsItOughtToBe};
ghost use Rattle.ps_filetype.specs.CodeTypes.{is_code_type};

/// A file is a code file as it ought to be exactly where the facts of one hold: its entries show a
/// segment, it is not one byte throughout, it is of no later release, and its codes are not exchanged
/// in pairs.
pub fn code_files_are_as_they_ought_to_be()
    ensures { (file : List ℕ) → (is_code_type file ≡ true) ↔ IsCodeFileAsItOughtToBe file }
{}
