//! The library for C: a link, and what the program prints of files, from memory to memory.
//!
//! Each export says by its contract what it leaves in the caller's memory, in the words of
//! `ps_c_link` and `ps_c_texts`, which do the calls. `library/pslink.c` declares them as C sees
//! them: a slice is a pointer and a length.
#![tactic(auto)]

mod exports;

pub use exports::{
    RELEASE_NUMBER, pslink_fault_text_nonnull, pslink_link_nonnull, pslink_release_number,
    pslink_text_nonnull,
};
pub use ps_c_link::{
    Answer, DONE, LIBRARIES_IN_PLACE, LINKED_MAX, MISUSE, NO_INDEX, NO_MEMORY, NO_NUMBER, REFUSED,
    TOO_SMALL, WRONG_NAMES, faults_have_indexes_of_their_files, refusals_tell_their_faults,
};
pub use ps_c_texts::{FAULT_TEXT_MAX, kinds};
