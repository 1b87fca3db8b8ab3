//! How long a code may be, and the layout of its procedure dictionary and of its attribute tables,
//! in bytes.
//!
//! Source: UCSD Pascal II.0 manual, code file format. The lengths are this project's profile.

use ps_words::BLOCK_SIZE;

/// The length of the longest code.
pub const MAX_CODE_LEN: u16 = 32767;
/// How many blocks the longest code takes.
pub const MAX_CODE_BLOCKS: usize = (MAX_CODE_LEN as usize + BLOCK_SIZE - 1) / BLOCK_SIZE;
/// How many bytes follow the procedure words, to the end of the code: the segment number and the
/// number of procedures.
pub const NUMBERS: usize = 2;
/// How many bytes of an attribute table precede its offset: four words.
pub const TABLE_WORDS: usize = 8;
/// How many bytes an attribute table has from its offset on: the procedure number and the lex
/// level.
pub const TABLE_NUMBERS: usize = 2;
/// How far the data size precedes the offset of its attribute table.
pub const DATA_SIZE_BEFORE_TABLE: usize = 8;
/// The number of the procedure that is a segment's outer block.
pub const OUTER_BLOCK: usize = 1;
