//! Every possible event of a legal history is lawful.
ghost use Rattle.std.specs.Prelude.{List};
ghost use Rattle.k_laws.specs.Lawful.{IsLawful};
ghost use Rattle.k_types.specs.Steps.{IsLegalHistory, IsPossible, state_after};
ghost use Rattle.k_types.specs.Trace.{Trace};
ghost use Rattle.k_types.specs.TraceRules.{AreLimits};
ghost use Rattle.k_types.specs.declared.event.Event.{Event};

/// What is possible is lawful: an event that is possible after a legal history leaves a sound state, changes nothing but the count of
/// operations where it is a refusal, is refused by named faults alone, leaves the part of each cell that it does not touch as it was,
/// frees nothing that can still be used, and goes by the parts of the cells that it touches and of the book.
pub fn possible_events_are_lawful()
    ensures { (trace : Trace) (history : List Event) (event : Event) → AreLimits trace → IsLegalHistory trace history →
        IsPossible trace (state_after trace history) event → IsLawful trace history event }
{}
