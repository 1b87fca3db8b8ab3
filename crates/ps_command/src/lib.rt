//! What the program `pslink` does: one command, from its arguments to its status. `run` does it over
//! the files of a runtime and any allocator and writers, `run_with_files` over any files too, and
//! `run_process` with the arguments of a process, whose status `run_given` returns as a number.
#![tactic(auto)]

mod ended;
mod error;
mod files;
mod linking;
mod lists;
mod numbers;
mod process;
mod refusal;
mod running;

pub use numbers::number_of_the_longest_file;
pub use process::{run_given, run_process};
pub use ps_output_files::CodeFiles;
pub use running::{run, run_with_files};
