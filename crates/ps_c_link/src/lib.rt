//! The link of the library for C, from memory to memory, and what its calls share: the libraries
//! and the names that they are given, what becomes of a call, and what it answers.
//!
//! `link` says by its contract what it leaves in the caller's room, in the words of `ps_linkfile`.
#![tactic(auto)]

mod answer;
mod first_name;
mod libraries;
mod linking;
mod numbers;
mod outcome;
mod refusal_law;
mod room;

pub use answer::{
    Answer, DONE, MISUSE, NO_INDEX, NO_MEMORY, NO_NUMBER, REFUSED, TOO_SMALL, WRONG_NAMES,
};
pub use first_name::host_first;
pub use libraries::{FEW_LIBRARIES, LIBRARIES_IN_PLACE, Parts, add_up, split};
pub use linking::{LINKED_MAX, link};
pub use numbers::numbers_of_the_calls;
pub use outcome::{CallError, Done, NotDone, TooSmall, Unput, Verdict, WrongInputs};
pub use refusal_law::{faults_have_indexes_of_their_files, refusals_tell_their_faults};
