//! Code files of UCSD Pascal II.0: the segment dictionary in block 0, the code of each slot, and
//! the procedure tables at the end of a code.
#![tactic(auto)]

pub mod code_layout;
mod dictionary;
pub mod dictionary_layout;
mod entry;
pub mod kinds;
mod opening;
mod procedure_fault;
mod procedures;

pub use dictionary::Dict;
pub use entry::{Entry, Role, is_nameless};
pub use opening::open;
pub use procedure_fault::ProcedureFault;
pub use procedures::{ProcedureDictionary, Procs};
