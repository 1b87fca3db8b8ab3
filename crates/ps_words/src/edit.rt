ghost use Rattle.std.specs.Prelude.{◌≡◌};
ghost use Rattle.ps_words.specs.Edits.{place_of, width as width_spec};

/// What is to be stored at a place of a segment's code.
///
/// `place` is the byte offset, from 0, of the first byte to be stored from the segment's first
/// byte. What is stored is the final content: for an operand, its displacement included. A link may
/// have hundreds of thousands of edits: the narrow field is first, so that one takes 16 bytes.
#[derive(Clone, Copy, Debug, PartialEq, Eq)]
pub enum Edit {
    /// A BIG operand, in two bytes, the high byte first in either byte order.
    Big {
        /// The value that the operand will have, 0 to `MAX_OPERAND`: the displacement that it had,
        /// plus what it refers to.
        value: u16,
        /// The offset of the operand's first byte, which gets the high byte and the mark of two
        /// bytes.
        place: usize,
    },
    /// A single byte.
    Byte {
        /// The byte that will be there.
        value: u8,
        /// The offset of the byte.
        place: usize,
    },
    /// A word, in two bytes, in the file's byte order.
    Word {
        /// The word that will be there.
        value: u16,
        /// The offset of the word's first byte.
        place: usize,
    },
}

impl Edit {
    /// The byte offset, from 0, of the first byte that it stores.
    pub fn place(&self) -> usize
        ensures { result ≡ place_of self.now }
    {
        match *self {
            Edit::Big { place, .. } | Edit::Byte { place, .. } | Edit::Word { place, .. } => place,
        }
    }

    /// How many bytes it stores: 1 or 2.
    pub fn width(&self) -> usize
        ensures { result ≡ width_spec self.now }
    {
        match self {
            Edit::Byte { .. } => 1,
            Edit::Big { .. } | Edit::Word { .. } => 2,
        }
    }
}
