ghost use Rattle.std.specs.Prelude.{◌≡◌, ◌≤◌, length, bytes_eq};
ghost use Rattle.std.specs.Map.{lookup};
ghost use Rattle.ps_reading.specs.Sources.{units_of};

use crate::reading::segment::Segment;
use arrayvec::ArrayVec;
use ps_codefile::dictionary_layout::SLOT_COUNT;
use ps_words::Name;
use std::marker::Model;

/// Whether the names are the same. Each is compared as one word, which takes less than byte by byte.
/// Source: UCSD Pascal II.0 manual, code file format.
#[inline(always)]
pub fn is_same_name(name: Name, other: Name) -> bool
    ensures { result ≡ bytes_eq name other }
{
    u64::from_le_bytes(name) == u64::from_le_bytes(other)
}

/// The slots of units by the units' names. They are close together, since each UNITREF record of a
/// link is looked up in them.
#[derive(Drop)]
pub struct UnitSlots {
    by_name: ArrayVec<(Name, u8), SLOT_COUNT>,
}

impl Model for UnitSlots {
    ghost use Rattle.std.specs.Prelude.{List, ℕ};

    ghost Value = { List (List ℕ × ℕ) };

    ghost view = { λ u. u.by_name.items };
}

impl UnitSlots {
    /// The slots of the units among these segments, of which there are sixteen at most.
    pub fn of(segments: &[Segment]) -> UnitSlots
        requires { length segments.now ≤ SLOT_COUNT }
        ensures { result ≡ units_of segments.now }
    {
        let mut by_name = ArrayVec::new();
        for segment in segments {
            if segment.role.is_unit() {
                by_name.push((segment.name, segment.slot));
            }
        }
        UnitSlots { by_name }
    }

    /// The slot of the first unit of this name, 0 to 15; `None` where no unit has the name.
    pub fn slot_of(&self, name: Name) -> Option<u8>
        ensures { result ≡ lookup (bytes_eq name) self.now }
    {
        for (unit, slot) in self.by_name.iter() {
            if is_same_name(name, *unit) {
                return Some(*slot);
            }
        }
        None
    }
}
