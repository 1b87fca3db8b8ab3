//! Why a link stores bytes in a code.
ghost use Rattle.std.specs.Prelude.{◌≡◌};
ghost use Rattle.ps_linkfile.specs.ReferencesText.{cause_width, cause_word};

use ps_linkinfo::Kind;
use ps_words::Name;

/// Why a link stores bytes that begin at a place of a code.
#[derive(Clone, Copy)]
pub(crate) enum Cause {
    /// The bytes are the number of the segment.
    Number,
    /// The bytes are the data size of the host's outer block.
    DataSize,
    /// The bytes are the operand of a reference.
    Reference {
        /// The kind of its record.
        kind: Kind,
        /// The name of its record.
        name: Name,
        /// The index of its record, from 0.
        index: usize,
    },
}

impl Cause {
    /// How many bytes are stored.
    pub(crate) fn width(self) -> usize
        ensures { result ≡ cause_width self }
    {
        match self {
            Cause::Number => 1,
            Cause::DataSize => 2,
            Cause::Reference { kind, .. } => usize::from(kind.operand_width()),
        }
    }

    /// The first word of a row of it.
    pub(crate) fn word(self) -> &'static [u8]
        ensures { result.now ≡ cause_word self }
    {
        match self {
            Cause::Number => b"number",
            Cause::DataSize => b"data size",
            Cause::Reference { .. } => b"reference",
        }
    }
}
