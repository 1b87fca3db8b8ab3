//! How a compiler may count the places of references, other than pslink does.
ghost use Rattle.std.specs.Prelude.{◌≡◌, Some};
ghost use Rattle.ps_warnings.specs.FindingTexts.{counting_words};

use std::fmt::{self, Formatter};

/// From where, and in what, a reference counts the place of its operand. pslink counts bytes from the
/// first byte of the segment's code.
#[derive(Clone, Copy)]
pub enum Counting {
    ByteEarlier,
    ByteLater,
    FromProcedure,
    InWords,
    FromEnd,
    FromFile,
}

/// Each way to count, but pslink's.
pub(crate) const COUNTINGS: [Counting; 6] = [
    Counting::ByteEarlier,
    Counting::ByteLater,
    Counting::FromProcedure,
    Counting::InWords,
    Counting::FromEnd,
    Counting::FromFile,
];

impl Counting {
    /// The words for it, which follow `counted `.
    fn words(self) -> &'static str
        ensures { result.now ≡ counting_words self }
    {
        match self {
            Counting::ByteEarlier => "from one byte earlier",
            Counting::ByteLater => "from one byte later",
            Counting::FromProcedure => "from the start of the procedure",
            Counting::InWords => "in words",
            Counting::FromEnd => "back from the end of the code",
            Counting::FromFile => "from block 0 of the file",
        }
    }

    /// The place in a code of so many bytes to which a reference leads that is counted so, where so
    /// many bytes of the file are `before` the code. None before the code; and none of those that
    /// count from a procedure, since a reference does not say from which.
    pub(crate) fn place(self, reference: usize, length: usize, before: usize) -> Option<usize> {
        match self {
            Counting::ByteEarlier => reference.checked_sub(1),
            Counting::ByteLater => reference.checked_add(1),
            Counting::FromProcedure => None,
            Counting::InWords => reference.checked_mul(2),
            Counting::FromEnd => length.checked_sub(reference),
            Counting::FromFile => reference.checked_sub(before),
        }
    }
}

impl fmt::Display for Counting {
    ghost output = { λ counting. Some (counting_words counting) };

    fn fmt<W: fmt::Write>(&self, f: &mut Formatter<W>) -> fmt::Result {
        f.write_str(self.words())
    }
}
