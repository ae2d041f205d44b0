//! Every state of a legal history is sound.
ghost use Rattle.std.specs.Prelude.{List};
ghost use Rattle.k_types.specs.Effects.{step};
ghost use Rattle.k_types.specs.Sound.{IsSound};
ghost use Rattle.k_types.specs.State.{State, opening};
ghost use Rattle.k_types.specs.Steps.{IsLegalHistory, IsPossible, state_after};
ghost use Rattle.k_types.specs.Trace.{Trace};
ghost use Rattle.k_types.specs.TraceRules.{AreLimits};
ghost use Rattle.k_types.specs.declared.event.Event.{Event};

/// The opening state of a trace is sound.
pub fn opening_is_sound()
    ensures { (trace : Trace) → AreLimits trace → IsSound trace (opening trace) }
{}

/// Each step from a sound state leads to a sound state, whatever the event.
pub fn steps_are_sound()
    ensures { (trace : Trace) → AreLimits trace → (st : State) → IsSound trace st → (event : Event) →
        IsPossible trace st event → IsSound trace (step trace st event) }
{}

/// Every state of a legal history is sound.
pub fn states_are_sound()
    ensures { (trace : Trace) (history : List Event) → AreLimits trace → IsLegalHistory trace history →
        IsSound trace (state_after trace history) }
{}
