//! What a file is, by its first bytes and a few more: a code file, and which, or something else
//! that was given in place of one, with the way from there to the code file. How the paths of files,
//! the numbers of slots and the names of segments and records are shown: as they are, or quoted
//! where a byte of them could be taken for the end of a line or move the cursor of a terminal. Which
//! names look wrong.
#![tactic(auto)]

mod bytes;
mod code_file;
mod file_type;
mod images;
mod laws;
mod line_ends;
mod name;
mod odd_names;
mod path;
mod release;
mod remedy;
mod shell;
mod signatures;
mod slot;
mod texts;

pub use bytes::only_byte;
pub use code_file::{CodeFile, has_procedure_dictionary, is_code_type, is_host_type, is_swapped};
pub use file_type::FileType;
pub use images::Image;
pub use laws::code_files_are_as_they_ought_to_be;
pub use line_ends::LineEnds;
pub use name::ShownName;
pub use odd_names::{Oddity, has_any, is_near, is_respelled, oddity_of, plain};
pub use path::{ShownPath, is_hidden};
pub use release::Release;
pub use remedy::Remedy;
pub use slot::ShownSlot;
