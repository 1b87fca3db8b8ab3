//! The number of the program that definitions cite by its name.
ghost use Rattle.std.specs.Prelude.{◌≡◌};

use crate::files::LONGEST;

/// How many bytes the longest file has that is read.
pub fn number_of_the_longest_file()
    ensures { LONGEST ≡ 67108864 }
{}
