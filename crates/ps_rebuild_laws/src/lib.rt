//! Laws of the linked file that a build may rely on: which changes of the files change nothing in
//! it, and what the lines of the references say of its bytes.
#![tactic(auto)]

mod alike;
mod libraries;
mod same_segments;
mod stored_lines;
mod used;

pub use alike::what_is_not_read;
pub use libraries::{library_is_appended, library_is_left_out, neighbours_are_exchanged};
pub use same_segments::link_is_its_segments;
pub use stored_lines::references_make_the_file;
pub use used::what_is_not_used;
