//! A link of files that were read, to files: which files it creates, when, and what each of them
//! takes. `link_files` writes OUT, then the map of the link, and prints its summary.
#![tactic(auto)]

mod code_files;
mod linking;
mod prepared;
mod summary;
mod unlinked;

pub use code_files::CodeFiles;
pub use linking::{Place, link_files};
pub use unlinked::Unlinked;
