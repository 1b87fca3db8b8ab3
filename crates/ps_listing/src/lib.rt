//! Code files as lines made for grep: a line of the file, and one for each of its segments. Each
//! begins with the path. And the same values as JSON, the units of a file by themselves, and the lists
//! of several files.
#![tactic(auto)]

mod by_itself;
mod escapes;
mod laws;
mod listed_file;
mod lists;
mod lone;
mod parts;
mod phrases;
mod segments;
mod several;

pub use laws::lines_of_a_file;
pub use lists::{ListForm, ListItem, ListedFile, Lists, UnreadItem};
pub use lone::{LoneUnit, lone_units};
pub use several::has_host_among;
