//! Code files and link information that tests make from text.
#![tactic(auto)]

pub mod base;
mod code_file;
mod information;
mod texts;
mod words;

pub use code_file::CodeFile;
pub use information::{Information, Name, put};
pub use words::behind_name;
