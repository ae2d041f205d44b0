//! Serials are given once.
ghost use Rattle.std.specs.Prelude.{List, ◌++◌};
ghost use Rattle.k_laws.specs.Kept.{GivesSerials, IsSpent};
ghost use Rattle.k_types.specs.Effects.{step};
ghost use Rattle.k_types.specs.State.{State};
ghost use Rattle.k_types.specs.Steps.{state_after};
ghost use Rattle.k_types.specs.Trace.{Trace};
ghost use Rattle.k_types.specs.declared.event.Event.{Event};
ghost use Rattle.k_types.specs.declared.names.Name.{Name};

/// Serials are never given again: a new object has a serial above all that its segment gave before, so an object that is gone does
/// not come back.
pub fn serials_are_never_given_again()
    ensures step { (trace : Trace) (st : State) (event : Event) → GivesSerials st (step trace st event) }
    ensures gone { (trace : Trace) (known rest : List Event) (n : Name) → IsSpent (state_after trace known) n →
        IsSpent (state_after trace (known ++ rest)) n }
{}
