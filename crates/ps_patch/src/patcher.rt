ghost use Rattle.std.specs.Prelude.{◌≡◌, ℕ, ◌<◌, ◌≤◌, ◌+◌, ◌-◌, ◌^◌, ◌==◌, if◌then◌else◌, All, drop, find, length, min, nat_lt, slice_index};
ghost use Rattle.ps_words.specs.Edits.{AreApart, AreEdits, IsStorable, covers, place_of, stored_bytes, width};
ghost use Rattle.ps_patch.specs.Patched.{patched_by, patched_from, patched_or_zero};
ghost use Rattle.ps_patch.specs.Patcher.{EndsBehind};

use crate::whole::store_at;
use ps_words::{BLOCK_SIZE, Edit, Order, put, put_big};
use std::marker::Model;

/// Patches a segment's code as it goes out, block by block, and leaves the code itself alone.
///
/// Contracts see the byte order, the code, the edits and the position, which is the number of
/// bytes of the code that were given.
#[derive(Drop)]
pub struct Patcher<'a> {
    order: Order,
    code: &'a [u8],
    edits: &'a [Edit],
    position: usize,
    /// The first edit that does not end before the position.
    next: usize,
}

impl<'a> Model for Patcher<'a> {
    ghost use Rattle.ps_patch.specs.Patcher.{IsUnderWay, Patching};

    ghost Value = { Patching };

    ghost view = { λ p. record { order = p.order; code = p.code.now; edits = p.edits.now; position = p.position } };

    ghost invariant = { λ p. IsUnderWay
        (record { order = p.order; code = p.code.now; edits = p.edits.now; position = p.position })
        p.next };
}

/// The bytes that an edit stores, as many as it is wide.
fn stored_bytes(order: Order, edit: Edit) -> [u8; 2]
    requires { IsStorable edit }
    ensures { (k : ℕ) → k < width edit → slice_index result k ≡ slice_index (stored_bytes order edit) k }
{
    let mut bytes = [0; 2];
    match edit {
        Edit::Big { value, .. } => put_big(&mut bytes, 0, value),
        Edit::Byte { value, .. } => bytes[0] = value,
        Edit::Word { value, .. } => put(order, &mut bytes, 0, value),
    }
    bytes
}

/// The place after the last byte that an edit stores.
fn end_of(edit: Edit) -> usize
    requires { place_of edit + width edit < 2 ^ 64 }
    ensures { result ≡ place_of edit + width edit }
{
    edit.place() + edit.width()
}

/// Stores a byte at a place of the code, where the block that begins at `from` has that place.
fn store_byte(block: &mut [u8; BLOCK_SIZE], from: usize, place: usize, byte: u8)
    ensures { (k : ℕ) → k < 512 → slice_index block.new k
        ≡ (if from + k == place then byte else slice_index block.old k) }
{
    if from <= place && place - from < BLOCK_SIZE {
        block[place - from] = byte;
    }
}

/// Stores what the block of the code that begins at `from` has of an edit, wherever the edit is. A
/// function by itself, since nearly all edits are whole in their block, and need less.
#[inline(never)]
fn store_part(order: Order, edit: Edit, from: usize, block: &mut [u8; BLOCK_SIZE])
    requires storable { IsStorable edit }
    requires room { place_of edit + width edit < 2 ^ 64 }
    ensures { (k : ℕ) → k < 512 → slice_index block.new k
        ≡ patched_by order edit (from + k) (slice_index block.old k) }
{
    let bytes = stored_bytes(order, edit);
    store_byte(block, from, edit.place(), bytes[0]);
    if edit.width() == 2 {
        store_byte(block, from, edit.place() + 1, bytes[1]);
    }
}

/// Stores what the block of the code that begins at `from` has of an edit. Returns whether the edit
/// ends after the block.
fn store_in_block(order: Order, edit: Edit, from: usize, block: &mut [u8; BLOCK_SIZE]) -> bool
    requires storable { IsStorable edit }
    requires room { place_of edit + width edit < 2 ^ 64 }
    requires small { from + 512 < 2 ^ 64 }
    ensures block { (k : ℕ) → k < 512 → slice_index block.new k
        ≡ patched_by order edit (from + k) (slice_index block.old k) }
    ensures over { result ≡ nat_lt (from + 512) (place_of edit + width edit) }
{
    // a place before the block wraps to one far behind it: one comparison does for both
    let at = edit.place().wrapping_sub(from);
    if at < BLOCK_SIZE - 1 {
        store_at(order, block, at, edit);
        return false;
    }
    store_part(order, edit, from, block);
    end_of(edit) > from + BLOCK_SIZE
}

/// Stores what the block of the code that begins at `from` has of the edits from `next` on. Returns
/// the index of the first that ends after the block, and the number of the edits where none does.
fn store_all(
    order: Order,
    edits: &[Edit],
    next: usize,
    from: usize,
    block: &mut [u8; BLOCK_SIZE],
) -> usize
    requires storable { All IsStorable edits.now }
    requires room { All (λ e. place_of e + width e < 2 ^ 64) edits.now }
    requires apart { AreApart 0 edits.now }
    requires next { next ≤ length edits.now }
    requires small { from + 512 < 2 ^ 64 }
    ensures block { (k : ℕ) → k < 512 → slice_index block.new k
        ≡ patched_from order (drop next edits.now) (from + k) (slice_index block.old k) }
    ensures within { result ≤ length edits.now }
    ensures before { (p : ℕ) → from + 512 ≤ p
        → find (covers p) (drop next edits.now) ≡ find (covers p) (drop result edits.now) }
    ensures over { EndsBehind (from + 512) (drop result edits.now) }
{
    for index in next..edits.len() {
        if store_in_block(order, edits[index], from, block) {
            return index;
        }
    }
    edits.len()
}

/// Puts the bytes of the code from `from` on in the block, with zeros past the code's end, and
/// returns how many of them are code.
fn copy_block(code: &[u8], from: usize, block: &mut [u8; BLOCK_SIZE]) -> usize
    requires { from ≤ length code.now }
    ensures block { (k : ℕ) → k < 512 → slice_index block.new k ≡ slice_index code.now (from + k) }
    ensures count { result ≡ min 512 (length code.now - from) }
{
    let count = (code.len() - from).min(BLOCK_SIZE);
    *block = [0; BLOCK_SIZE];
    block[..count].copy_from_slice(&code[from..from + count]);
    count
}

impl<'a> Patcher<'a> {
    /// A patcher of a segment's code, at the code's first byte.
    ///
    /// Words are stored in the given order, operands in their one form. The edits have to lie
    /// inside the code, in ascending order of place, no two on one byte, and each BIG value has
    /// to be at most `MAX_OPERAND`.
    pub fn new(order: Order, code: &'a [u8], edits: &'a [Edit]) -> Self
        requires { AreEdits (length code.now) edits.now }
        ensures { result ≡ record {
          order = order;
          code = code.now;
          edits = edits.now;
          position = 0;
        } }
    {
        Patcher {
            order,
            code,
            edits,
            position: 0,
            next: 0,
        }
    }

    /// Puts the next 512 bytes of the patched code in the block, with zeros past the code's end,
    /// and returns how many of them are code: 512, or fewer at the end, and 0 when none is left.
    ///
    /// The position moves on by that number. An operand or a word across two blocks is stored in
    /// both.
    pub fn fill(&mut self, block: &mut [u8; BLOCK_SIZE]) -> usize
        ensures block { (k : ℕ) → k < 512 → slice_index block.new k
            ≡ patched_or_zero self.old.order self.old.code self.old.edits (self.old.position + k) }
        ensures count { result ≡ min 512 (length self.old.code - self.old.position) }
        ensures moves { self.new ≡ record self.old { position = self.old.position + result } }
    {
        let count = copy_block(self.code, self.position, block);
        self.next = store_all(self.order, self.edits, self.next, self.position, block);
        self.position += count;
        count
    }
}
