ghost use Rattle.std.specs.Prelude.{◌≡◌, ℕ, ◌≤◌, ◌+◌, length, slice_index};
ghost use Rattle.ps_words.specs.Edits.{AreEdits, IsStorable, patched_byte, place_of, width};
ghost use Rattle.ps_patch.specs.Patched.{patched_by};

use ps_words::{Edit, Order, put, put_big};

/// Stores an edit in bytes of the code, where the edit's first byte is the one `at` in them.
pub(crate) fn store_at(order: Order, bytes: &mut [u8], at: usize, edit: Edit)
    requires storable { IsStorable edit }
    requires inside { at + width edit ≤ length bytes.old }
    ensures bytes { (k p : ℕ) → k + place_of edit ≡ at + p
        → slice_index bytes.new k ≡ patched_by order edit p (slice_index bytes.old k) }
    ensures length { length bytes.new ≡ length bytes.old }
{
    match edit {
        Edit::Big { value, .. } => put_big(bytes, at, value),
        Edit::Byte { value, .. } => bytes[at] = value,
        Edit::Word { value, .. } => put(order, bytes, at, value),
    }
}

/// Patches a segment's code in place: each edit is stored, and every other byte stays as it was.
///
/// Words are stored in the given order, operands in their one form. The edits have to lie inside
/// the code, in ascending order of place, no two on one byte, and each BIG value has to be at
/// most `MAX_OPERAND`.
pub fn apply(order: Order, code: &mut [u8], edits: &[Edit])
    requires { AreEdits (length code.old) edits.now }
    ensures bytes { (p : ℕ) → slice_index code.new p ≡ patched_byte order code.old edits.now p }
    ensures length { length code.new ≡ length code.old }
{
    for edit in edits {
        store_at(order, code, edit.place(), *edit);
    }
}
