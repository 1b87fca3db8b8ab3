ghost use Rattle.std.specs.Prelude.{List, ℕ};
ghost use Rattle.ps_linkfile.specs.LinkedFile.{LinkedFile};
ghost use Rattle.ps_rebuild_laws.specs.StoredLines.{AreMadeByLines};

use ps_laws::{bytes_are_linked, first_of_all, offsets_are_sums};

/// The references make the file. In the linked file, each byte of a code that a line of the
/// references names is the byte that the line says is there now, and each other byte of a code is
/// the input's: so the inputs' codes with the stored values put at their places are those of the
/// linked file. What a line says was there is of the input's code. The record that a line names for a
/// reference has that kind and that name, and refers to the place.
pub fn references_make_the_file()
    ensures made { (host file : List ℕ) (libs : List (List ℕ)) → LinkedFile host libs file
        → AreMadeByLines host libs file }
{
    bytes_are_linked();
    first_of_all();
    offsets_are_sums();
}
