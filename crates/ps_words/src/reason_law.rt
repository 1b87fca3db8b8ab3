ghost use Rattle.std.specs.Prelude.{◌≡◌, ℕ, Some, unwrap_or};
ghost use Rattle.ps_words.specs.FaultText.{kind_of, number_of, reason_of};
ghost use Rattle.ps_words.specs.declared.fault.Reason.{Reason as AReason};

/// A law: a reason is what `Reason::from_number` finds by its number and the kind word that it
/// carries, if any; and what is found by a number has that number.
pub fn numbers_tell_their_reasons()
    ensures found { (why : AReason) (kind : ℕ)
        → reason_of (number_of why) (unwrap_or (kind_of why) kind) ≡ Some why }
    ensures numbered { (number kind : ℕ) (why : AReason) → reason_of number kind ≡ Some why
        → number_of why ≡ number }
{}
