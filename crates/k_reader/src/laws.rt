//! Laws of the definitions.
ghost use Rattle.std.specs.Prelude.{◌≡◌, ◌↔◌, ◌⊎◌, ℕ, Ok};
ghost use Rattle.k_words.specs.Words.{Text};
ghost use Rattle.k_trace.specs.Named.{NamedTrace};
ghost use Rattle.k_trace.specs.Rules.{Spells};
ghost use Rattle.k_trace.specs.Judgement.{judgement, IsBad};

/// Bytes are judged to be a trace exactly where they spell it. So they spell one trace, or have one
/// first bad line with one lowest reason, and not both.
pub fn judged_as_spelled()
    ensures exact { (bytes : Text) (t : NamedTrace) → (judgement bytes ≡ Ok t) ↔ Spells bytes t }
    ensures one { (bytes : Text) (t u : NamedTrace) → Spells bytes t → Spells bytes u → t ≡ u }
    ensures either { (bytes : Text) → ((t : NamedTrace) × Spells bytes t) ⊎ ((line : ℕ) × (reason : ℕ) × IsBad bytes line reason) }
    ensures apart { (bytes : Text) (t : NamedTrace) (line reason : ℕ) → Spells bytes t → ¬ IsBad bytes line reason }
{}
