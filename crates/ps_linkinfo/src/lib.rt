//! Link information of UCSD Pascal II.0: the records that the compiler leaves for the Linker after
//! a segment's code. The last one is an EOFMARK.
//!
//! [`LinkInformation`] is link information that was read whole. [`LinkInformation::read`] finds the
//! first fault, if any, and counts the records. A walk over it cannot fail. It takes no memory.
//! [`Records`] gives the records one by one up to the first fault, and takes no memory. All other
//! readers walk by it. [`read_records`] reads the records into a list. All borrow the bytes: a
//! record's references are a view of its list.
//! That there is one reading of the bytes at most is the law [`one_reading`]; [`walk_from_start`]
//! and [`walk_so_far`] are the laws of a walk by [`Records`].
//!
//! Source: the records and the numbers of their types are those of the published II.0 Linker
//! source. That a list of references comes in pieces of eight words, and which records are refused,
//! is this project's profile.
#![tactic(auto)]

mod first;
mod information;
mod kind;
mod numbered;
mod operand;
mod reader;
mod reading_laws;
mod record;
mod record_counts;
pub mod record_layout;
mod records;
mod refs;
mod sort;

pub use information::{LinkInformation, ReadFault};
pub use kind::Kind;
pub use numbered::NumberedRecords;
pub use operand::Operand;
pub use reader::{ReadStop, read_records};
pub use reading_laws::{names_are_whole, one_reading, walk_from_start, walk_so_far};
pub use record::{Body, LinkRecord};
pub use records::Records;
pub use refs::Refs;
pub use sort::Sort;
