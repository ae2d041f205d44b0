//! Frozen heaps are as large as they are.
ghost use Rattle.std.specs.Prelude.{◌≡◌, ◌⊎◌, ℕ};
ghost use Rattle.k_laws.specs.Kept.{StaysFrozen};
ghost use Rattle.k_types.specs.Effects.{step};
ghost use Rattle.k_types.specs.Owners.{phase_of};
ghost use Rattle.k_types.specs.Sound.{IsSound};
ghost use Rattle.k_types.specs.State.{State};
ghost use Rattle.k_types.specs.Steps.{IsPossible};
ghost use Rattle.k_types.specs.Trace.{Trace};
ghost use Rattle.k_types.specs.declared.event.Event.{Event};
ghost use Rattle.k_types.specs.declared.event.Event.TheVariants.{Absorbed};
ghost use Rattle.k_types.specs.declared.names.Name.{Name};
ghost use Rattle.k_types.specs.declared.names.Phase.TheVariants.{Frozen};

/// A frozen heap keeps its phase and its bytes until it is absorbed.
///
/// Source: KaffeOS paper, on the fixed size of a shared heap after it is frozen.
pub fn frozen_heaps_keep_their_size()
    ensures { (trace : Trace) (st : State) (event : Event) (s : ℕ) (root : Name) → IsSound trace st → IsPossible trace st event →
        phase_of st.phases s ≡ Frozen root → StaysFrozen trace st (step trace st event) s ⊎ (event ≡ Absorbed (record { 0 = s })) }
{}
