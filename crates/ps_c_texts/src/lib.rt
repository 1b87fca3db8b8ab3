//! The calls of the library for C that make a text, from memory to memory: what the program prints
//! of files, the report of a check with its verdict among them, and names of units are put into the
//! caller's room, and so is the line of a fault. The link itself is in `ps_c_link`.
//!
//! Each call says by its contract what it leaves in the room, in the words of the crate that makes
//! the text.
#![tactic(auto)]

mod fault_text;
mod file_names;
pub mod kinds;
mod making;
mod numbers;
mod printing;
mod room;

pub use fault_text::{FAULT_TEXT_MAX, put_fault};
pub use kinds::text_kind;
pub use numbers::numbers_of_the_texts;
pub use printing::text;
