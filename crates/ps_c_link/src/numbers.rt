//! The numbers of the calls, which definitions cite by their names.
ghost use Rattle.std.specs.Prelude.{◌≡◌};
ghost use Rattle.ps_c_link.specs.declared.answer.TheConstants.{MAX_BYTE, MAX_KIND};

use crate::answer::{
    DONE, MISUSE, NO_INDEX, NO_MEMORY, NO_NUMBER, REFUSED, TOO_SMALL, WRONG_NAMES,
};
use crate::libraries::LIBRARIES_IN_PLACE;
use crate::linking::LINKED_MAX;
use ps_linkfile::MAX_FILE_BLOCKS;

/// The statuses, limits and marks of the calls, as numbers.
pub fn numbers_of_the_calls()
    ensures statuses { (DONE ≡ 0) × (REFUSED ≡ 1) × (MISUSE ≡ 2) × (NO_MEMORY ≡ 4)
        × (TOO_SMALL ≡ 5) × (WRONG_NAMES ≡ 6) }
    ensures none { (NO_NUMBER ≡ 4294967295) × (NO_INDEX ≡ 18446744073709551615) }
    ensures most { (MAX_KIND ≡ 65535) × (MAX_BYTE ≡ 255) }
    ensures libraries { LIBRARIES_IN_PLACE ≡ 256 }
    ensures file { (MAX_FILE_BLOCKS ≡ 1025) × (LINKED_MAX ≡ 524800) }
{}
