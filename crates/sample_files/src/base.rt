//! The base pair: a host that wants one unit, the library that has it, and the file that the two
//! are linked to.
use crate::information::Name;
use ps_words::Order;

/// The names of the base pair's unit and symbols.
pub const UTIL: Name = *b"UTIL    ";

pub const COUNT: Name = *b"COUNT   ";

pub const STATE: Name = *b"STATE   ";

/// The slots of the base host's two segments, and of the unit in the base library.
pub const DEMO_SLOT: u8 = 1;

pub const UTIL_SLOT: u8 = 7;

pub const UTIL_ENTRY: u8 = 2;

/// The length of the base files and of the file that they are linked to.
pub const BASE_LENGTH: usize = 1536;

/// The host's link information: one definition.
pub const HOST_RECORDS: &str = "PUBLDEF COUNT value 3; EOFMARK next 8";

/// The unit's link information: a reference to the host's definition and a private variable.
pub const LIBRARY_RECORDS: &str = "PUBLREF COUNT at 1; PRIVREF STATE words 4 at 4; EOFMARK next 0";

/// The host's code, with the attribute table and the procedure dictionary of its one procedure.
pub fn demo_code(order: Order) -> [u8; 18] {
    match order {
        Order::Little => [
            0xD7, 0xD7, 0xC1, 0, 10, 0, 4, 0, 6, 0, 10, 0, 1, 0, 2, 0, 1, 1,
        ],
        Order::Big => [
            0xD7, 0xD7, 0xC1, 0, 0, 10, 0, 4, 0, 6, 0, 10, 1, 0, 0, 2, 1, 1,
        ],
    }
}

/// The unit's code: operands with displacements 0 and 2 at bytes 1 and 4, and this segment number
/// at byte 22.
pub fn util_code(order: Order, number: u8) -> [u8; 24] {
    match order {
        Order::Little => [
            0xA5, 0x80, 0, 0xAB, 0x80, 2, 0xD7, 0xD7, 0xAD, 0, 0, 0, 0, 0, 6, 0, 16, 0, 1, 0, 2, 0,
            number, 1,
        ],
        Order::Big => [
            0xA5, 0x80, 0, 0xAB, 0x80, 2, 0xD7, 0xD7, 0xAD, 0, 0, 0, 0, 0, 0, 6, 0, 16, 1, 0, 0, 2,
            number, 1,
        ],
    }
}
