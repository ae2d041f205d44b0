//! What is let go was counted on the book.
ghost use Rattle.std.specs.Prelude.{IsFalse, ◌<◌, ℕ};
ghost use Rattle.k_laws.specs.Owed.{ChargesAreCounted, EntriesAreCounted, PinsAreCounted};
ghost use Rattle.k_types.specs.Names.{among};
ghost use Rattle.k_types.specs.Sound.{IsSound};
ghost use Rattle.k_types.specs.State.{State};
ghost use Rattle.k_types.specs.Trace.{Trace, process_count};
ghost use Rattle.k_types.specs.TraceRules.{AreLimits};

/// What is let go is there: the pin of a register before it is unpinned, the entry of an exit item before the heap leaves it, and
/// what a process's end or a collection's end credits at the process's limit.
pub fn what_is_let_go_is_counted()
    ensures pins { (trace : Trace) (st : State) (p : ℕ) → p < process_count trace → PinsAreCounted trace st p }
    ensures entries { (trace : Trace) (st : State) → EntriesAreCounted trace st }
    ensures charges { (trace : Trace) (st : State) (p : ℕ) → AreLimits trace → IsSound trace st → p < process_count trace →
        IsFalse (among p st.ended) → ChargesAreCounted trace st p }
{}
