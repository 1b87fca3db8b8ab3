//! The numbers of the texts, which definitions cite by their names.
ghost use Rattle.std.specs.Prelude.{◌≡◌};

use crate::fault_text::FAULT_TEXT_MAX;
use crate::kinds::{
    JSON, TEXT_CHECK, TEXT_FINDINGS, TEXT_HAD, TEXT_LIST, TEXT_MAP, TEXT_REFERENCES, TEXT_SHOW,
    TEXT_TYPE, TEXT_UNITS, TEXT_WANTED,
};

/// The number of each text, what a document adds to it, and the room for the line of a fault.
pub fn numbers_of_the_texts()
    ensures texts { (TEXT_MAP ≡ 0) × (TEXT_REFERENCES ≡ 1) × (TEXT_SHOW ≡ 2) × (TEXT_CHECK ≡ 3)
        × (TEXT_LIST ≡ 4) × (TEXT_UNITS ≡ 5) × (TEXT_FINDINGS ≡ 6) × (TEXT_WANTED ≡ 7)
        × (TEXT_HAD ≡ 8) × (TEXT_TYPE ≡ 9) }
    ensures document { JSON ≡ 256 }
    ensures line { FAULT_TEXT_MAX ≡ 160 }
{}
