//! What every layer of the linker shares: byte orders and words, two-byte operands, blocks, the
//! reasons for which files are refused and where they occur, and edits of a segment's code.
#![tactic(auto)]

mod edit;
mod fault;
mod order;
mod reason_law;
pub mod word_laws;
mod words;

pub use edit::Edit;
pub use fault::{Fault, Reason};
pub use order::Order;
pub use reason_law::numbers_tell_their_reasons;
pub use words::{
    BLOCK_SIZE, MAX_OPERAND, MAX_WORD, NAME_LEN, Name, WORD_LEN, blocks_of, get, get_big, put,
    put_big,
};
