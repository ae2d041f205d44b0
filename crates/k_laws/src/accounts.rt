//! Which events change a charge, and by how much the end of a collection does.
ghost use Rattle.std.specs.Prelude.{IsFalse, ◌+◌, ◌<◌, ◌≡◌, ℕ};
ghost use Rattle.k_laws.specs.Kept.{Credits, bytes_dropped, is_end_of, is_kill_of};
ghost use Rattle.k_laws.specs.Charges.{is_done_by};
ghost use Rattle.k_types.specs.Effects.{step};
ghost use Rattle.k_types.specs.Owners.{charge_of, user};
ghost use Rattle.k_types.specs.Sound.{IsSound};
ghost use Rattle.k_types.specs.State.{State};
ghost use Rattle.k_types.specs.Steps.{IsPossible};
ghost use Rattle.k_types.specs.Trace.{Trace, process_count};
ghost use Rattle.k_types.specs.TraceRules.{AreLimits};
ghost use Rattle.k_types.specs.declared.event.Event.{Event};
ghost use Rattle.k_types.specs.declared.event.Event.TheVariants.{Ended};

/// What a process is charged changes only by its own operations, by a kill of it, and by the ends of its own heap's collections.
///
/// Source: KaffeOS paper, on precise memory accounting.
pub fn only_its_own_events_change_a_charge()
    ensures { (trace : Trace) (st : State) (event : Event) (q : ℕ) → IsSound trace st → IsPossible trace st event →
        IsFalse (is_done_by event q) → IsFalse (is_kill_of event q) → IsFalse (is_end_of event q) → charge_of trace (step trace st event) q ≡ charge_of trace st q }
{}

/// The end of the collection of a process's heap credits exactly the bytes freed and the bytes of the shared heaps whose shares it
/// drops, on the path of the process's limit, and nothing else.
///
/// Source: KaffeOS paper, on precise memory accounting.
pub fn ended_collections_credit_what_goes()
    ensures { (trace : Trace) (st : State) (p objects bytes exits shares : ℕ) → AreLimits trace → IsSound trace st →
        p < process_count trace → IsPossible trace st (Ended (user p) objects bytes exits shares) →
        Credits trace st (step trace st (Ended (user p) objects bytes exits shares)) p
        (bytes + bytes_dropped trace st (step trace st (Ended (user p) objects bytes exits shares)) p) }
{}
