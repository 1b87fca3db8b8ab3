//! Lists of what is printed, item by item.
ghost use Rattle.std.specs.Prelude.{◌≡◌, ◌<◌, List, ℕ, get_or, length};
ghost use Rattle.std.specs.List.{enumerate_from, flat_map, range_with_len};
ghost use Rattle.ps_writing.specs.Adding.{Adds};

use crate::text_writer::TextWriter;

/// Adds what `add` adds of each of these items.
pub fn add_each<S: TextWriter, T, F: Fn(&mut S, &T)>(text: &mut S, items: &[T], add: F)
    requires { (s : _) (x : _) → F.pre add s x }
    ensures { (line : T → List ℕ)
        → ((s : _) (x : _) (t : _) → F.post add s x tt t → Adds S.added s.now (line x.now) t.now)
        → Adds S.added text.old (flat_map line items.now) text.new }
{
    for item in items {
        add(text, item);
    }
}

/// Adds what `add` adds of each of these items and its index, until one fails.
pub fn add_each_row<S: TextWriter, T, F: Fn(&mut S, usize, &T)>(text: &mut S, items: &[T], add: F)
    requires { (s : _) (i : ℕ) (x : _) → i < length items.now → F.pre add s i x }
    ensures { (line : (ℕ × T) → List ℕ)
        → ((s : _) (i : ℕ) (x : _) (t : _) → i < length items.now
        → x.now ≡ get_or items.now i x.now → F.post add s i x tt t
        → Adds S.added s.now (line (i, x.now)) t.now)
        → Adds S.added text.old (flat_map line (enumerate_from 0 items.now)) text.new }
{
    for (i, item) in items.iter().enumerate() {
        if text.has_failed() {
            return;
        }
        add(text, i, item);
    }
}

/// Adds what `add` adds of each slot, of so many.
pub fn add_each_slot<S: TextWriter, F: Fn(&mut S, u8)>(text: &mut S, many: u8, add: F)
    requires { (s : _) (i : ℕ) → i < many → F.pre add s i }
    ensures { (line : ℕ → List ℕ)
        → ((s : _) (i : ℕ) (t : _) → F.post add s i tt t
        → Adds S.added s.now (line i) t.now)
        → Adds S.added text.old (flat_map line (range_with_len 0 many)) text.new }
{
    for slot in 0..many {
        add(text, slot);
    }
}
