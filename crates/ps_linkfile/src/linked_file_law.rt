ghost use Rattle.std.specs.Prelude.{◌≡◌, ℕ, List, None};
ghost use Rattle.ps_resolve.specs.AllFaults.{first_fault};
ghost use Rattle.ps_linkfile.specs.LinkedFile.{LinkedFile, linked_file};

use ps_laws::{bytes_are_linked, first_of_all};
use ps_resolve::slot_names_are_whole;

/// The linked file of a host and its libraries is one list and no other, and it is there wherever
/// no fault applies.
pub fn linked_file_is_one()
    ensures one { (host : List ℕ) (libs : List (List ℕ)) (file : List ℕ)
        → LinkedFile host libs file → file ≡ linked_file host libs }
    ensures there { (host : List ℕ) (libs : List (List ℕ)) → first_fault host libs ≡ None
        → LinkedFile host libs (linked_file host libs) }
{
    first_of_all();
    bytes_are_linked();
    slot_names_are_whole();
}
