//! The first words of a record, of each type that II.0 has.
use ps_linkinfo::record_layout::{FORMAT_PLACE, RECORD_LEN, TYPE_PLACE};
use ps_words::{NAME_LEN, Name, Order, WORD_LEN, get};

/// The place of the number of references.
const COUNT_PLACE: usize = FORMAT_PLACE + WORD_LEN;

/// How many references a piece of a list has, which takes as many bytes as a record.
const PIECE_REFERENCES: usize = 8;

/// The words for the types of records, in the order of their numbers.
const KIND_WORDS: [&str; 15] = [
    "EOFMARK", "UNITREF", "GLOBREF", "PUBLREF", "PRIVREF", "CONSTREF", "GLOBDEF", "PUBLDEF",
    "CONSTDEF", "EXTPROC", "EXTFUNC", "SEPPROC", "SEPFUNC", "SEPPREF", "SEPFREF",
];

/// References to a unit.
const UNITREF: u16 = 1;
/// References to a public variable of the host.
const PUBLREF: u16 = 3;
/// References to a private variable of the segment.
const PRIVREF: u16 = 4;
/// References to a constant of the host, of native code: the last of the types 1 to 5, all of which
/// have lists.
const CONSTREF: u16 = 5;
/// References to a separate procedure.
const SEPPREF: u16 = 13;
/// References to a separate function.
const SEPFREF: u16 = 14;

/// The first words of a record, also of one that pslink does not link.
///
/// Source: the published II.0 Linker source.
#[derive(Clone, Copy)]
pub(crate) struct RecordHead {
    /// The name, padded with blanks.
    pub name: Name,
    /// The number of the type.
    pub record_type: u16,
    /// Word A: the format of a record with references.
    pub format: u16,
    /// Word B: how many references it has.
    count: u16,
}

impl RecordHead {
    /// The head of the first record of these bytes; `None` where fewer than 16 are left.
    pub(crate) fn first_in(order: Order, bytes: &[u8]) -> Option<Self> {
        if bytes.len() < RECORD_LEN {
            return None;
        }
        let mut name = [0; NAME_LEN];
        name.copy_from_slice(&bytes[..NAME_LEN]);
        Some(RecordHead {
            name,
            record_type: get(order, bytes, TYPE_PLACE),
            format: get(order, bytes, FORMAT_PLACE),
            count: get(order, bytes, COUNT_PLACE),
        })
    }

    /// The word for the type, as `EXTPROC`; `None` of a type that II.0 does not have.
    pub(crate) fn kind_word(&self) -> Option<&'static str> {
        match KIND_WORDS.get(usize::from(self.record_type)) {
            Some(word) => Some(*word),
            None => None,
        }
    }

    /// The type is one whose references pslink resolves, where they have its format.
    pub(crate) fn is_of_linked_type(&self) -> bool {
        matches!(self.record_type, UNITREF | PUBLREF | PRIVREF)
    }

    /// How many bytes the record takes, with the list of its references.
    pub(crate) fn size(&self) -> usize {
        match self.record_type {
            UNITREF..=CONSTREF | SEPPREF | SEPFREF => {
                let pieces = usize::from(self.count).div_ceil(PIECE_REFERENCES);
                RECORD_LEN + RECORD_LEN * pieces
            }
            _ => RECORD_LEN,
        }
    }
}
