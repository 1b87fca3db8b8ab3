//! P-code, by what its instructions mean: the table of the instructions, with their operands and what
//! they do to the evaluation stack; the procedures of a code, with where each is entered and left; the
//! rules that the instructions of a procedure keep to; the procedure that alone of its code breaks one
//! of them; how many operands a code has for variables of the program, and whether one is at a place.
#![tactic(auto)]

mod bodies;
mod instructions;
mod misfits;
mod operands;
mod places;
mod rules;
mod stacks;
mod table;
mod tables;
#[cfg(test)]
mod tests;
mod variables;
mod walks;

pub use misfits::misfit;
pub use operands::is_wide_variable_at;
pub use tables::{Ends, native_table, procedures_of};
pub use variables::wide_variables;
