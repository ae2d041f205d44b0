//! The law of the text of a trace.
ghost use Rattle.std.specs.Prelude.{◌≡◌, ◌≤◌, length, Ok};
ghost use Rattle.k_types.specs.Bounds.{most_trace_bytes};
ghost use Rattle.k_trace.specs.Named.{NamedTrace};
ghost use Rattle.k_trace.specs.Rules.{IsTrace};
ghost use Rattle.k_trace.specs.Spelling.{text};
ghost use Rattle.k_trace.specs.Judgement.{judgement};

/// The text of a trace, where it has no more bytes than may be read, is judged to be that trace.
pub fn texts_are_read_as_their_trace()
    ensures { (t : NamedTrace) → IsTrace t → length (text t) ≤ most_trace_bytes → judgement (text t) ≡ Ok t }
{}
