ghost use Rattle.std.specs.Prelude.{◌≡◌, ◌≢◌, ◌≤◌, ◌+◌, ℕ, length, slice_index};
ghost use Rattle.ps_words.specs.Words.{blocks, displacement_at, operand_bytes, word_at, word_bytes};

use crate::order::Order;
use byteorder::{BigEndian, ByteOrder, LittleEndian};

/// The length in bytes of a block of a code file.
///
/// Source: UCSD Pascal II.0 manual, code file format.
pub const BLOCK_SIZE: usize = 512;

/// The length in bytes of a word.
///
/// Source: UCSD Pascal II.0 manual, code file format.
pub const WORD_LEN: usize = 2;

/// The length in bytes of a name.
///
/// Source: UCSD Pascal II.0 manual, code file format.
pub const NAME_LEN: usize = 8;

/// A name in a code file: eight bytes, padded with blanks.
///
/// Source: UCSD Pascal II.0 manual, code file format.
pub type Name = [u8; NAME_LEN];

/// The greatest word.
///
/// Source: UCSD Pascal II.0 manual, code file format.
pub const MAX_WORD: u16 = 65535;

/// The greatest displacement of a BIG operand of two bytes, which has 15 bits for it.
///
/// Source: UCSD Pascal II.0 manual, code file format.
pub const MAX_OPERAND: u16 = 32767;

/// The high bit of a BIG operand's first byte, which says that the operand has two bytes.
const BIG_MARK: u16 = MAX_OPERAND + 1;

/// The word, 0 to `MAX_WORD`, whose two bytes are at `place` and after it, in the given order.
///
/// `place` counts bytes from 0; both bytes have to be there.
/// Source: UCSD Pascal II.0 manual, code file format.
pub fn get(order: Order, bytes: &[u8], place: usize) -> u16
    requires { place + 2 ≤ length bytes.now }
    ensures { result ≡ word_at order bytes.now place }
{
    match order {
        Order::Little => LittleEndian::read_u16(&bytes[place..]),
        Order::Big => BigEndian::read_u16(&bytes[place..]),
    }
}

/// Stores the word `v`, 0 to `MAX_WORD`, in the bytes at `place` and after it, in the given order.
///
/// `place` counts bytes from 0; both bytes have to be there. Every other byte stays as it was.
/// Source: UCSD Pascal II.0 manual, code file format.
pub fn put(order: Order, bytes: &mut [u8], place: usize, v: u16)
    requires { place + 2 ≤ length bytes.old }
    ensures first { slice_index bytes.new place ≡ slice_index (word_bytes order v) 0 }
    ensures second { slice_index bytes.new (place + 1) ≡ slice_index (word_bytes order v) 1 }
    ensures others { (p : ℕ) → p ≢ place → p ≢ place + 1
        → slice_index bytes.new p ≡ slice_index bytes.old p }
    ensures length { length bytes.new ≡ length bytes.old }
{
    match order {
        Order::Little => LittleEndian::write_u16(&mut bytes[place..place + 2], v),
        Order::Big => BigEndian::write_u16(&mut bytes[place..place + 2], v),
    }
}

/// The displacement, 0 to `MAX_OPERAND`, of the BIG operand whose two bytes are at `place` and
/// after it.
///
/// A BIG operand has its high byte first in files of either order. Bit 7 of that byte is not
/// looked at. `place` counts bytes from 0; both bytes have to be there.
/// Source: UCSD Pascal II.0 manual, code file format, and this project's profile (bit 7).
pub fn get_big(bytes: &[u8], place: usize) -> u16
    requires { place + 2 ≤ length bytes.now }
    ensures { result ≡ displacement_at bytes.now place }
{
    get(Order::Big, bytes, place) % BIG_MARK
}

/// Stores a BIG operand of the displacement `v`, 0 to `MAX_OPERAND`, in the bytes at `place` and
/// after it.
///
/// The high byte comes first in files of either order, and its bit 7 is set. `place` counts bytes
/// from 0; both bytes have to be there. Every other byte stays as it was.
/// Source: UCSD Pascal II.0 manual, code file format.
pub fn put_big(bytes: &mut [u8], place: usize, v: u16)
    requires inside { place + 2 ≤ length bytes.old }
    requires storable { v ≤ MAX_OPERAND }
    ensures first { slice_index bytes.new place ≡ slice_index (operand_bytes v) 0 }
    ensures second { slice_index bytes.new (place + 1) ≡ slice_index (operand_bytes v) 1 }
    ensures others { (p : ℕ) → p ≢ place → p ≢ place + 1
        → slice_index bytes.new p ≡ slice_index bytes.old p }
    ensures length { length bytes.new ≡ length bytes.old }
{
    put(Order::Big, bytes, place, BIG_MARK + v);
}

/// The number of blocks of 512 bytes that hold `len` bytes: `len` / 512, rounded up.
///
/// Source: UCSD Pascal II.0 manual, code file format.
pub fn blocks_of(len: usize) -> usize
    ensures { result ≡ blocks len }
{
    len.div_ceil(BLOCK_SIZE)
}
