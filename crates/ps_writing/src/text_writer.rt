//! What text is added to, a piece at a time.
ghost use Rattle.std.specs.Prelude.{◌≡◌, true, List, ℕ};
ghost use Rattle.ps_writing.specs.Adding.{Adds};

/// Takes text until it fails, and none from then on. So a text is added without a test at each of
/// its pieces, and whether it was taken is known at the end.
pub trait TextWriter {
    // A writer as it was, a text that was added to it, and the writer as it is then.
    ghost added: { Self → List ℕ → Self → Type 0 };

    /// Adds these bytes, unless an earlier call failed.
    fn add(&mut self, bytes: &[u8])
        ensures { Adds added self.old bytes.now self.new };

    /// Whether a call failed, so that no more is taken.
    fn has_failed(&self) -> bool
        ensures { result ≡ true → (text : List ℕ) → Adds added self.now text self.now };
}

/// What has a text.
pub trait Text {
    ghost bytes: { Self → List ℕ };

    fn add_to<S: TextWriter>(&self, text: &mut S)
        ensures { Adds S.added text.old (bytes self.now) text.new };
}
