ghost use Rattle.std.specs.Prelude.{◌≡◌, ◌≤◌, length};
ghost use Rattle.ps_linkinfo.specs.Operands.{operand_of as operand_of_spec, operand_width as operand_width_spec};
ghost use Rattle.ps_linkinfo.specs.Records.{refs_of};

use crate::record::LinkRecord;
use crate::record_layout::MAX_REFERENCES;

/// An operand in a code.
/// Source: the published II.0 Linker source.
#[derive(Clone, Copy, Debug, PartialEq, Eq)]
pub struct Operand {
    /// The place of its first byte in the code, 0 to `MAX_WORD`.
    pub place: u16,
    /// How many bytes it has: 1, or 2 of a BIG operand.
    pub width: u8,
}

impl LinkRecord<'_> {
    /// How many bytes the operand of each reference has: 1 of a UNITREF, 2 of a PUBLREF or a
    /// PRIVREF, and 0 of a record that has no references.
    /// Source: the published II.0 Linker source.
    pub fn operand_width(&self) -> u8
        ensures { result ≡ operand_width_spec self.now.body }
    {
        self.body.kind().operand_width()
    }

    /// How many references its list has, at most `MAX_REFERENCES`; 0 of a record that has no list.
    /// Source: the published II.0 Linker source.
    #[inline(always)]
    pub fn references(&self) -> usize
        ensures count { result ≡ length (refs_of self.now.body) }
        ensures few { result ≤ MAX_REFERENCES }
    {
        match self.body.refs() {
            Some(refs) => refs.len(),
            None => 0,
        }
    }

    /// The operand of a reference, from 0; `None` where the record has not so many.
    /// Source: the published II.0 Linker source.
    pub fn operand(&self, reference: usize) -> Option<Operand>
        ensures { result ≡ operand_of_spec self.now.body reference }
    {
        let refs = self.body.refs()?;
        if refs.len() <= reference {
            return None;
        }
        Some(Operand {
            place: refs.get(reference),
            width: self.operand_width(),
        })
    }
}
