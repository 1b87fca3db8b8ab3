//! Laws of the definitions of a link: the first fault that the layers compute is the fault of
//! smallest key among all that apply, the units that are added are those that are requested, the
//! segments of a link come from where it is said that they do, and its edits make its bytes. The
//! numbers that the definitions cite by name are a law too.
#![tactic(auto)]

mod first_fault;
mod linked_bytes;
mod numbers;
mod origins;
mod requested;

pub use first_fault::first_of_all;
pub use linked_bytes::{bytes_are_linked, offsets_are_sums};
pub use numbers::numbers_of_the_format;
pub use origins::segments_have_origins;
pub use requested::added_units;
