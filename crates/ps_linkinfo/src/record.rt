ghost use Rattle.std.specs.Prelude.{◌≡◌, ◌+◌, ◌≤◌, [], IfSome, None};
ghost use Rattle.ps_linkinfo.specs.RecordCounts.{declares_name as declares_name_spec};
ghost use Rattle.ps_linkinfo.specs.Records.{size_of, is_eof as is_eof_spec, refs_of};

use crate::record_layout::{MAX_LIST_LEN, RECORD_LEN, list_len};
use crate::refs::Refs;
use ps_words::Name;

/// What a record says, beside its name.
///
/// Source: the published II.0 Linker source.
#[derive(Debug, Drop)]
pub enum Body<'a> {
    /// UNITREF: operands of one byte that become the number of the unit's segment.
    UnitRef(Refs<'a>),
    /// PUBLREF: BIG operands to which the value of the host's public variable is added.
    PublRef(Refs<'a>),
    /// PRIVREF: a private variable of the segment, of `words` words, 0 to `MAX_WORD`, and
    /// the BIG operands to which its base offset is added.
    PrivRef { words: u16, refs: Refs<'a> },
    /// PUBLDEF: a public variable of the host, and its base offset in words.
    PublDef(u16),
    /// CONSTDEF: a constant of the host, and its value.
    ConstDef(u16),
    /// EOFMARK: the end of the link information, and the next free base offset in words.
    Eof(u16),
}

impl<'a> Body<'a> {
    /// The references of a record that says this; `None` of a kind that has none.
    /// Source: the published II.0 Linker source.
    #[inline(always)]
    pub fn refs(&self) -> Option<&Refs<'a>>
        ensures some { IfSome result (λ refs. refs.now ≡ refs_of self.now) }
        ensures none { result ≡ None → refs_of self.now ≡ [] }
    {
        match self {
            Body::UnitRef(refs) | Body::PublRef(refs) | Body::PrivRef { refs, .. } => Some(refs),
            Body::PublDef(_) | Body::ConstDef(_) | Body::Eof(_) => None,
        }
    }
}

/// A record of link information.
///
/// Source: the published II.0 Linker source.
#[derive(Debug, Drop)]
pub struct LinkRecord<'a> {
    /// The name of the record, padded with blanks. That of an EOFMARK means nothing.
    pub name: Name,
    /// What the record says.
    pub body: Body<'a>,
}

impl LinkRecord<'_> {
    /// How many bytes its spelling takes: 16, and 16 for each piece of eight references, of which
    /// the last may be begun. At most `RECORD_LEN + MAX_LIST_LEN`.
    ///
    /// Source: the published II.0 Linker source; the pieces are this project's profile.
    #[inline(always)]
    pub fn size(&self) -> usize
        ensures size { result ≡ size_of self.now }
        ensures bounded { result ≤ RECORD_LEN + MAX_LIST_LEN }
    {
        RECORD_LEN + list_len(self.references())
    }

    /// Whether the record is an EOFMARK, which ends the link information.
    /// Source: the published II.0 Linker source.
    #[inline(always)]
    pub fn is_eof(&self) -> bool
        ensures { result ≡ is_eof_spec self.now }
    {
        matches!(self.body, Body::Eof(_))
    }

    /// Whether the name of the record is that of a definition or of a private.
    pub(crate) fn declares_name(&self) -> bool
        ensures { result ≡ declares_name_spec self.now }
    {
        let kind = self.body.kind();
        kind.defines_name() || kind.requests_private()
    }
}
