//! Numbers of slots as they are shown.
ghost use Rattle.std.specs.Prelude.{Some};
ghost use Rattle.ps_filetype.specs.Shown.{slot_digits};

use std::fmt::{self, Formatter};

/// The number of a slot or an entry in a line for a person: two digits.
#[derive(Clone, Copy)]
pub struct ShownSlot(pub u8);

impl fmt::Display for ShownSlot {
    ghost output = { λ slot. Some (slot_digits slot.0) };

    fn fmt<W: fmt::Write>(&self, f: &mut Formatter<W>) -> fmt::Result {
        let tens = char::from(b'0' + self.0 / 10);
        let ones = char::from(b'0' + self.0 % 10);
        write!(f, "{tens}{ones}")
    }
}
