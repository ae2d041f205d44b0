//! What the ends of collections, processes and shared heaps change on the book.
ghost use Rattle.std.specs.Prelude.{IsFalse, List, Some, ◌≡◌, ℕ};
ghost use Rattle.k_laws.specs.BookChanges.{charge_in, drops, when_collected, when_ended, when_taken, without_entries};
ghost use Rattle.k_laws.specs.Changes.{MayAbsorb, MayExit};
ghost use Rattle.k_types.specs.Cells.{book_part, part};
ghost use Rattle.k_types.specs.Effects.{after_absorbed, after_end_of, after_ended};
ghost use Rattle.k_types.specs.Names.{among};
ghost use Rattle.k_types.specs.Owners.{charge_of, owner_of, shared, user};
ghost use Rattle.k_types.specs.Sound.{IsSound};
ghost use Rattle.k_types.specs.State.{State, scan_of};
ghost use Rattle.k_types.specs.Trace.{Trace};
ghost use Rattle.k_types.specs.TraceRules.{AreLimits};
ghost use Rattle.k_types.specs.declared.names.Heap.TheVariants.{Kernel};
ghost use Rattle.k_types.specs.declared.names.Name.{Name};

/// What a living process is charged is told by its cell's part and the book's.
pub fn the_charge_is_told()
    ensures { (trace : Trace) (st : State) (p : ℕ) → IsSound trace st → IsFalse (among p st.ended) →
        charge_of trace st p ≡ charge_in trace (book_part trace st) (part trace st (user p)) p }
{}

/// In the book the end of a collection drops the entries of the exit items that go. For a user heap it drops also the shares
/// without a way into the shared heap, and credits their bytes and those of the freed objects at the process's limit.
pub fn what_the_end_of_a_collection_changes_in_the_book()
    ensures kernel { (trace : Trace) (st : State) → IsSound trace st →
        book_part trace (after_ended trace Kernel st) ≡ without_entries (drops (part trace st Kernel)) (book_part trace st) }
    ensures user { (trace : Trace) (st : State) (p : ℕ) (roots : List Name) → AreLimits trace → IsSound trace st →
        scan_of st.scans (user p) ≡ Some roots →
        book_part trace (after_ended trace (user p) st)
        ≡ when_collected trace (owner_of trace st) p (part trace st (user p)) (book_part trace st) }
{}

/// In the book the end of a process drops its shares, its pins and the entries of the exit items that go, and credits its whole
/// charge.
pub fn what_the_end_of_a_process_changes_in_the_book()
    ensures { (trace : Trace) (st : State) (p : ℕ) → AreLimits trace → IsSound trace st → MayExit trace st p →
        book_part trace (after_end_of trace p st)
        ≡ when_ended trace (owner_of trace st) p (part trace st (user p)) (part trace st Kernel) (book_part trace st) }
{}

/// In the book an absorption sets the phase, leaves the shared heap no bytes, and drops the entries of the exit items between it
/// and the kernel. No charge changes.
pub fn what_absorption_changes_in_the_book()
    ensures { (trace : Trace) (st : State) (s : ℕ) → IsSound trace st → MayAbsorb trace st s →
        book_part trace (after_absorbed trace s st)
        ≡ when_taken (owner_of trace st) s (part trace st (shared s)) (part trace st Kernel) (book_part trace st) }
{}
