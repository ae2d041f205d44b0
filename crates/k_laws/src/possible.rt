//! The same events are possible, and leave the same, in states with the same touched parts.
ghost use Rattle.std.specs.Prelude.{List, ℕ};
ghost use Rattle.k_laws.specs.Same.{SameToEvent};
ghost use Rattle.k_types.specs.Sound.{IsSound};
ghost use Rattle.k_types.specs.State.{State};
ghost use Rattle.k_types.specs.Steps.{IsLegalHistory, IsPossible, state_after};
ghost use Rattle.k_types.specs.Trace.{Trace};
ghost use Rattle.k_types.specs.TraceRules.{AreLimits};
ghost use Rattle.k_types.specs.declared.event.Event.{Event};
ghost use Rattle.k_types.specs.declared.event.Event.TheVariants.{Absorbed, Closing, Done, Ended};
ghost use Rattle.k_types.specs.declared.event.Reply.{Reply};
ghost use Rattle.k_types.specs.declared.names.Heap.{Heap};
ghost use Rattle.k_types.specs.declared.names.Pid.{Pid};
ghost use Rattle.k_types.specs.declared.names.SharedId.{SharedId};
ghost use Rattle.k_types.specs.declared.op.Op.{Op};

/// Whether an event is possible is told by the parts of the cells that it touches and of the book: for an operation with its
/// reply, for an absorption and for the closing in all states, and for the end of a collection with its numbers in sound ones.
/// So in the states after two legal histories, whatever the event.
pub fn possible_events_go_by_the_parts()
    ensures operations { (trace : Trace) (st su : State) (pid : Pid) (op : Op) (said : Reply) → AreLimits trace →
        SameToEvent trace st su (Done pid op said) → IsPossible trace st (Done pid op said) → IsPossible trace su (Done pid op said) }
    ensures absorptions { (trace : Trace) (st su : State) (s : SharedId) → SameToEvent trace st su (Absorbed s) →
        IsPossible trace st (Absorbed s) → IsPossible trace su (Absorbed s) }
    ensures closing { (trace : Trace) (st su : State) → SameToEvent trace st su Closing → IsPossible trace st Closing →
        IsPossible trace su Closing }
    ensures ends { (trace : Trace) (st su : State) (h : Heap) (objects bytes exits shares : ℕ) → IsSound trace st → IsSound trace su →
        SameToEvent trace st su (Ended h objects bytes exits shares) → IsPossible trace st (Ended h objects bytes exits shares) →
        IsPossible trace su (Ended h objects bytes exits shares) }
    ensures histories { (trace : Trace) (history other : List Event) (event : Event) → AreLimits trace →
        IsLegalHistory trace history → IsLegalHistory trace other →
        SameToEvent trace (state_after trace history) (state_after trace other) event →
        IsPossible trace (state_after trace history) event → IsPossible trace (state_after trace other) event }
{}
