//! Laws of the definitions.
ghost use Rattle.std.specs.Prelude.{◌≡◌, ◌↔◌, ◌⊎◌, ◌∷◌, ◌++◌, ◌+◌, ◌==◌, ℕ, List, Some, None, Ok, count_by};
ghost use Rattle.std.specs.List.{AllByRecursion};
ghost use Rattle.k_types.specs.declared.event.Event.{Event};
ghost use Rattle.k_types.specs.Trace.{Trace};
ghost use Rattle.k_types.specs.Known.{IsKnownEvent};
ghost use Rattle.k_words.specs.Words.{Text};
ghost use Rattle.k_trace.specs.Named.{DeclaredNames, NamedTrace};
ghost use Rattle.k_text.specs.EventLines.{event_words};
ghost use Rattle.k_text.specs.Report.{report_text};
ghost use Rattle.k_reports.specs.Spelled.{AreProper, IsSpelledEvent, IsInRange};
ghost use Rattle.k_reports.specs.Reading.{event_of};
ghost use Rattle.k_reports.specs.Histories.{history_of};
ghost use Rattle.k_trace.specs.Rules.{IsTrace};
ghost use Rattle.k_history.specs.Good.{IsGoodReport, IsRefusedAt};
ghost use Rattle.k_reports.specs.Begun.{IsBegun, AreAllSpelled};
ghost use Rattle.k_history.specs.Difference.{difference_from, difference};
ghost use Rattle.k_history.specs.Verdicts.{IsAccepted, IsRefused};

/// Words are read as an event exactly where they spell it, and each event that a line can spell is read as it is spelled,
/// over names that can be told apart. So an event has one line, and a line one event.
pub fn events_are_read_as_spelled()
    ensures { (names : DeclaredNames) (ws : List Text) (e : Event) → AreProper names
        → (event_of names ws ≡ Some e) ↔ (IsSpelledEvent names e × (event_words names e ≡ ws)) }
{}

/// The history that is read of a history's report is that history, where each of its events is one that a line can spell.
pub fn reports_tell_their_history()
    ensures spelled { (names : DeclaredNames) (trace : Trace) (history : List Event) → AreProper names → AllByRecursion (IsSpelledEvent names) history
        → history_of names (report_text names trace history) ≡ Ok history }
    ensures begun { (t : NamedTrace) (history : List Event) → IsTrace t → AreAllSpelled t → IsBegun t.trace history
        → history_of t.names (report_text t.names t.trace history) ≡ Ok history }
{}

/// An event that names what the trace declares, and whose numbers are in range, is one that a line can spell. Numbers are in
/// range where serials and counts are below 2^32 and bytes and values below 2^64.
pub fn known_events_can_be_spelled()
    ensures { (t : NamedTrace) (e : Event) → IsTrace t → IsKnownEvent t.trace e → IsInRange e → IsSpelledEvent t.names e }
{}

/// Texts without a difference are the same. Where texts begin alike, the first line that differs is counted from the line
/// where they part.
pub fn differences_are_counted_by_lines()
    ensures same { (text bytes : Text) → (difference text bytes ≡ None) ↔ (text ≡ bytes) }
    ensures pieces { (front text bytes : Text) → difference (front ++ text) (front ++ bytes) ≡ difference_from (1 + count_by (λ b. b == 10) front) text bytes }
{}

/// A report is good, or refused at a line; it is refused at one line alone. A good one is not refused, where each event of a
/// history that is begun is one that a line can spell.
pub fn reports_are_good_or_refused_at_one_line()
    ensures either { (t : NamedTrace) (report : Text) → IsTrace t → IsGoodReport t report ⊎ ((n : ℕ) × IsRefusedAt t report n) }
    ensures one { (t : NamedTrace) (report : Text) (n m : ℕ) → IsTrace t → IsRefusedAt t report n → IsRefusedAt t report m → n ≡ m }
    ensures apart { (t : NamedTrace) (report : Text) (n : ℕ) → IsTrace t → AreAllSpelled t → IsGoodReport t report → ¬ IsRefusedAt t report n }
{}

/// Of each report exactly one holds: it is good and refused at no line, or it is not good and refused at one line alone.
pub fn reports_are_good_or_refused()
    ensures { (t : NamedTrace) (report : Text) → IsTrace t → IsAccepted t report ⊎ ((n : ℕ) × IsRefused t report n) }
{}
