//! The definitions of a link, computed on small files: what is written, what map and show print, where
//! each byte and each segment comes from, what is refused, and what may be relied on. Each function's
//! contract states examples. Its body is empty, or calls the laws of which they are instances; one
//! returns what a caller knows of a source. Further links are in the test vectors.
#![tactic(auto)]

mod byte_facts;
mod linked_files;
mod origins;
mod refused;
mod relied;
mod sources;
mod texts;

pub use byte_facts::{bytes_that_are_not_linked, facts_of_bytes};
pub use linked_files::linked_bytes;
pub use origins::{origins_of_segments, segments_of_no_link};
pub use refused::{
    faults_of_files, faults_of_references, faults_of_requested_units, faults_of_slots,
    faults_of_sources, faults_of_symbols, faults_of_unread_records,
};
pub use relied::{what_is_not_to_be_relied_on, what_may_be_relied_on};
pub use sources::is_linked_by_role;
pub use texts::{json_documents, map_texts, reference_texts, show_texts};
