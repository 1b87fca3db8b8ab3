//! The layout of a segment dictionary in block 0 of a code file, in bytes.
//!
//! Source: UCSD Pascal II.0 manual, code file format. The tail, and the first slot that a unit may
//! be added in, are this project's profile.

/// How many slots the dictionary has.
pub const SLOTS: u8 = 16;
/// How many slots the dictionary has, as the length of a table.
pub const SLOT_COUNT: usize = SLOTS as usize;
/// The first slot that a unit may be added in. The slots below belong to the system.
pub const FIRST_ADDED: u8 = 7;
/// The length of a pair of address and length. The pairs begin the dictionary.
pub const PAIR: usize = 4;
/// The offset of the names.
pub const NAMES: usize = 64;
/// The offset of the kind words.
pub const KINDS: usize = 192;
/// The offset of the text addresses.
pub const TEXTS: usize = 224;
/// The offset of the tail, which ends with the block. It is copied unread.
pub const TAIL: usize = 256;
