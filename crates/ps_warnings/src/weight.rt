//! How much a finding weighs.
ghost use Rattle.std.specs.Prelude.{◌≡◌};
ghost use Rattle.ps_warnings.specs.Weights.{weight_word};

/// How much a finding weighs: whether a link of the files is another one by it, as far as that is known.
#[derive(Clone, Copy)]
pub enum Weight {
    /// Certain, by the definition of a link and by what is in the files, and nothing that a compiler
    /// writes.
    Warning,
    /// Certain, and a link of the files does what it would do without it.
    Harmless,
    /// A guess from bytes, names, numbers or P-code. The files may be as a compiler wrote them.
    Note,
}

impl Weight {
    /// The word for it, with which the line of a finding begins.
    pub fn word(&self) -> &'static str
        ensures { result.now ≡ weight_word self.now }
    {
        match self {
            Weight::Warning => "warning",
            Weight::Harmless => "harmless",
            Weight::Note => "note",
        }
    }
}
