//! A collection keeps what is live, and nothing else.
ghost use Rattle.std.specs.Prelude.{IsTrue, List, ◌∷◌, ◌++◌, ℕ};
ghost use Rattle.k_laws.specs.Survivors.{KeepsTheSurvivors};
ghost use Rattle.k_types.specs.Effects.{step};
ghost use Rattle.k_types.specs.Reach.{live_everywhere};
ghost use Rattle.k_types.specs.Sound.{IsSound};
ghost use Rattle.k_types.specs.State.{State, has};
ghost use Rattle.k_types.specs.Steps.{IsLegalHistory, IsPossible, state_after};
ghost use Rattle.k_types.specs.Trace.{Trace};
ghost use Rattle.k_types.specs.TraceRules.{AreLimits};
ghost use Rattle.k_types.specs.declared.event.Event.{Event};
ghost use Rattle.k_types.specs.declared.event.Event.TheVariants.{Ended};
ghost use Rattle.k_types.specs.declared.names.Heap.{Heap};
ghost use Rattle.k_types.specs.declared.names.Name.{Name};

/// No collection frees a live object: wherever a collection ends in a legal history, each object that can still be used just before
/// its end is there after it, whatever happened since the collection began.
///
/// Source: KaffeOS paper, on the independent collection of heaps by entry and exit items.
pub fn collections_free_nothing_live()
    ensures { (trace : Trace) (before rest : List Event) (h : Heap) (objects bytes exits shares : ℕ) → AreLimits trace →
        IsLegalHistory trace (before ++ Ended h objects bytes exits shares ∷ rest) → (n : Name) →
        IsTrue (has (live_everywhere trace (state_after trace before)) n) →
        IsTrue (has (step trace (state_after trace before) (Ended h objects bytes exits shares)).objects n) }
{}

/// Exact survivors: the end of a collection of a heap frees exactly the objects of the heap that the recorded roots do not
/// reach inside it. Its exit items are then exactly the targets outside the heap of its objects' fields, and the shares of its
/// process that are left are exactly those into whose heap the process still has a way, or which it populates.
pub fn collections_keep_exactly_the_survivors()
    ensures { (trace : Trace) (st : State) (h : Heap) (objects bytes exits shares : ℕ) → IsSound trace st →
        IsPossible trace st (Ended h objects bytes exits shares) →
        KeepsTheSurvivors trace st h (step trace st (Ended h objects bytes exits shares)) }
{}
