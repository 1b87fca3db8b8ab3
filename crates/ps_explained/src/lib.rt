//! What a check says in words for a person: the files, and the segments with where each comes from;
//! and of a refusal what the files say of a fault, as values, what it is in them, and what to do about
//! it. Nothing is linked here.
#![tactic(auto)]

mod cases;
mod explain;
mod file_lines;
mod laws;
mod orders;
mod overview;
mod passed_over;
mod privates;
mod record_head;
mod records;
mod reference_lines;
mod references;
mod sentences;
mod slot_lines;
mod unsupported;

pub use cases::Case;
pub use explain::Explanation;
pub use laws::texts_of_segments;
pub use orders::ByteOrder;
pub use overview::{Overview, overview_of};
pub use reference_lines::lines_of_references;
pub use sentences::{SENTENCE_LEN, meaning_of, remedy_of};
pub use slot_lines::indent;
pub use unsupported::{UnsupportedLines, UnsupportedRecord, unsupported_records};
