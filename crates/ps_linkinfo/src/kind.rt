//! The kinds of records, and what only its kind says of a record.
ghost use Rattle.std.specs.Prelude.{◌≡◌};
ghost use Rattle.ps_linkinfo.specs.Kinds.{defines_name as defines_name_spec, defines_variable as defines_variable_spec, kind_of, kind_width, kind_word, requests_private as requests_private_spec, requests_public as requests_public_spec, requests_unit as requests_unit_spec};

use crate::record::Body;

/// The kind of a record.
///
/// Source: the published II.0 Linker source.
#[derive(Clone, Copy, Debug, PartialEq, Eq)]
pub enum Kind {
    /// UNITREF.
    UnitRef,
    /// PUBLREF.
    PublRef,
    /// PRIVREF.
    PrivRef,
    /// PUBLDEF.
    PublDef,
    /// CONSTDEF.
    ConstDef,
    /// EOFMARK.
    Eof,
}

impl Kind {
    /// The word for it, in capital letters.
    /// Source: the published II.0 Linker source.
    pub fn word(self) -> &'static str
        ensures { result.now ≡ kind_word self }
    {
        match self {
            Kind::UnitRef => "UNITREF",
            Kind::PublRef => "PUBLREF",
            Kind::PrivRef => "PRIVREF",
            Kind::PublDef => "PUBLDEF",
            Kind::ConstDef => "CONSTDEF",
            Kind::Eof => "EOFMARK",
        }
    }

    /// How many bytes the operand of each reference has: 1 of a UNITREF, 2 of a PUBLREF or a
    /// PRIVREF, and 0 of a record that has no references.
    /// Source: the published II.0 Linker source.
    pub fn operand_width(self) -> u8
        ensures { result ≡ kind_width self }
    {
        match self {
            Kind::UnitRef => 1,
            Kind::PublRef | Kind::PrivRef => 2,
            Kind::PublDef | Kind::ConstDef | Kind::Eof => 0,
        }
    }

    /// Whether a record of this kind defines a public variable of the host.
    /// Source: the published II.0 Linker source.
    pub fn defines_variable(self) -> bool
        ensures { result ≡ defines_variable_spec self }
    {
        match self {
            Kind::PublDef => true,
            Kind::ConstDef | Kind::UnitRef | Kind::PublRef | Kind::PrivRef | Kind::Eof => false,
        }
    }

    /// Whether a record of this kind defines a name of the host: a public variable or a constant.
    /// Source: the published II.0 Linker source.
    pub fn defines_name(self) -> bool
        ensures { result ≡ defines_name_spec self }
    {
        match self {
            Kind::PublDef | Kind::ConstDef => true,
            Kind::UnitRef | Kind::PublRef | Kind::PrivRef | Kind::Eof => false,
        }
    }

    /// Whether a record of this kind requests a private variable, which is allotted.
    /// Source: the published II.0 Linker source.
    #[inline(always)]
    pub fn requests_private(self) -> bool
        ensures { result ≡ requests_private_spec self }
    {
        match self {
            Kind::PrivRef => true,
            Kind::UnitRef | Kind::PublRef | Kind::PublDef | Kind::ConstDef | Kind::Eof => false,
        }
    }

    /// Whether a record of this kind requests a public variable.
    /// Source: the published II.0 Linker source.
    pub fn requests_public(self) -> bool
        ensures { result ≡ requests_public_spec self }
    {
        match self {
            Kind::PublRef => true,
            Kind::UnitRef | Kind::PrivRef | Kind::PublDef | Kind::ConstDef | Kind::Eof => false,
        }
    }

    /// Whether a record of this kind requests a unit.
    /// Source: the published II.0 Linker source.
    #[inline(always)]
    pub fn requests_unit(self) -> bool
        ensures { result ≡ requests_unit_spec self }
    {
        match self {
            Kind::UnitRef => true,
            Kind::PublRef | Kind::PrivRef | Kind::PublDef | Kind::ConstDef | Kind::Eof => false,
        }
    }
}

impl Body<'_> {
    /// The kind of a record that says this.
    /// Source: the published II.0 Linker source.
    #[inline(always)]
    pub fn kind(&self) -> Kind
        ensures { result ≡ kind_of self.now }
    {
        match self {
            Body::UnitRef(_) => Kind::UnitRef,
            Body::PublRef(_) => Kind::PublRef,
            Body::PrivRef { .. } => Kind::PrivRef,
            Body::PublDef(_) => Kind::PublDef,
            Body::ConstDef(_) => Kind::ConstDef,
            Body::Eof(_) => Kind::Eof,
        }
    }
}
