//! What the end of a collection tells.
ghost use Rattle.std.specs.Prelude.{ℕ};
ghost use Rattle.k_laws.specs.Kept.{GoesBy};
ghost use Rattle.k_types.specs.Effects.{step};
ghost use Rattle.k_types.specs.State.{State};
ghost use Rattle.k_types.specs.Steps.{IsPossible};
ghost use Rattle.k_types.specs.Trace.{Trace};
ghost use Rattle.k_types.specs.declared.event.Event.TheVariants.{Ended};
ghost use Rattle.k_types.specs.declared.names.Heap.{Heap};

/// The end of a collection tells exactly what goes: by its four numbers fall the objects, the bytes of the heap, the exit items and
/// the shares.
pub fn ended_collections_tell_what_goes()
    ensures { (trace : Trace) (st : State) (h : Heap) (objects bytes exits shares : ℕ) →
        IsPossible trace st (Ended h objects bytes exits shares) →
        GoesBy trace st (step trace st (Ended h objects bytes exits shares)) h objects bytes exits shares }
{}
