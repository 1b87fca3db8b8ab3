//! What is printed: values as rows, in lines of text and in JSON; and the writers that take bytes
//! and count how often they were called.
#![tactic(auto)]

mod counts;
mod each;
mod hex;
mod json;
mod lines;
mod memory;
mod pieces;
mod prepend_buffer;
mod rows;
mod stream;
mod text_writer;
mod told;
mod write_counter;
mod write_fault;
mod writing;

pub use counts::Counts;
pub use each::{add_each, add_each_row, add_each_slot};
pub use hex::add_hex;
pub use json::{
    add_json_fault, add_json_name, add_json_text, add_name_members, add_name_or_null,
    add_number_or_null, comma, separator,
};
pub use lines::{add_number, add_slot_name, shown_codes, two_digits};
pub use memory::in_memory;
pub use prepend_buffer::PrependBuffer;
pub use rows::{Form, RowPart, add_by_form, add_fault, add_part, begin_row, by_form, end_row};
pub use stream::write_text;
pub use text_writer::{Text, TextWriter};
pub use told::{Counting, ToldWriter};
pub use write_counter::{ByWriter, WriteCounter};
pub use write_fault::WriteFault;
pub use writing::{write_all, write_all_of};
