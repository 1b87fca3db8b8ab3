//! Patching of a segment's code by its edits: all at once in place, or in blocks of 512 bytes as
//! the code goes out.
#![tactic(auto)]

mod patcher;
mod whole;

pub use patcher::Patcher;
pub use whole::apply;
