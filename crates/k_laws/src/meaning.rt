//! What registers, entries, pins and reaching mean in a sound state.
ghost use Rattle.std.specs.Prelude.{IsFalse, IsTrue, List, Some, if◌then◌else◌, nat_lt, ◌<◌, ◌≡◌, ◌||◌, ◌↔◌, ℕ};
ghost use Rattle.k_laws.specs.Meaning.{heaps_of};
ghost use Rattle.k_types.specs.Cells.{entries, pins};
ghost use Rattle.k_types.specs.Local.{is_own};
ghost use Rattle.k_types.specs.Names.{among};
ghost use Rattle.k_types.specs.Owners.{objects_of, owner_of, user};
ghost use Rattle.k_types.specs.Reach.{is_entered, reach_among, reach_in};
ghost use Rattle.k_types.specs.Sound.{IsSound};
ghost use Rattle.k_types.specs.State.{State, has_exit};
ghost use Rattle.k_types.specs.Totals.{total};
ghost use Rattle.k_types.specs.Trace.{Trace, process_count};
ghost use Rattle.k_types.specs.declared.names.Heap.{Heap};
ghost use Rattle.k_types.specs.declared.names.Name.{Name};

/// A collection reaches what it reaches among its heap's own objects, in as many folds as these are.
pub fn a_collection_reaches_within_its_heap()
    ensures { (trace : Trace) (st : State) (h : Heap) (rs : List Name) →
        reach_in trace st h rs ≡ reach_among (objects_of (owner_of trace st) h st.objects) rs }
{}

/// The entries of an object are the heaps with an exit item to it, and an object is entered exactly where its entries or its pins
/// are above 0.
pub fn entered_objects_are_counted()
    ensures entries { (trace : Trace) (st : State) (n : Name) → IsSound trace st →
        entries st n ≡ total (λ h. if has_exit st.exits h n then 1 else 0) (heaps_of trace) }
    ensures entered { (trace : Trace) (st : State) (n : Name) → IsSound trace st →
        is_entered trace st n ≡ (nat_lt 0 (entries st n) || nat_lt 0 (pins trace st n)) }
{}

/// The heap of a living process owns the process's segment and no other.
pub fn a_living_process_owns_its_segment_alone()
    ensures { (trace : Trace) (st : State) (p : ℕ) (n : Name) → p < process_count trace → IsFalse (among p st.ended) →
        (IsTrue (is_own p (Some n)) ↔ (owner_of trace st n.seg.0 ≡ user p)) }
{}
