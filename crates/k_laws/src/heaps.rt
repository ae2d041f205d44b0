//! What scans, ends and absorptions change in the cells.
ghost use Rattle.std.specs.Prelude.{IsFalse, List, ◌≡◌, ℕ};
ghost use Rattle.k_laws.specs.CellChanges.{at_its_end, collected, taking_in, when_absorbed, with_scan};
ghost use Rattle.k_laws.specs.Changes.{MayAbsorb, MayExit};
ghost use Rattle.k_types.specs.Cells.{Cell, book_part, part};
ghost use Rattle.k_types.specs.Effects.{after_absorbed, after_end_of, after_ended};
ghost use Rattle.k_types.specs.Names.{heap_eq};
ghost use Rattle.k_types.specs.Owners.{owner_of, shared, user};
ghost use Rattle.k_types.specs.Sound.{IsSound};
ghost use Rattle.k_types.specs.State.{State};
ghost use Rattle.k_types.specs.Trace.{Trace};
ghost use Rattle.k_types.specs.Updates.{open_scan};
ghost use Rattle.k_types.specs.declared.names.Heap.{Heap};
ghost use Rattle.k_types.specs.declared.names.Heap.TheVariants.{Kernel};
ghost use Rattle.k_types.specs.declared.names.Name.{Name};

/// A collection that begins shows in its heap's cell alone.
pub fn what_the_beginning_of_a_collection_changes()
    ensures cell { (trace : Trace) (st : State) (h : Heap) (roots : List Name) →
        part trace (open_scan h roots st) h ≡ with_scan roots (part trace st h) }
    ensures others { (trace : Trace) (st : State) (c : Cell) (h : Heap) (roots : List Name) → IsFalse (heap_eq h c) →
        part trace (open_scan h roots st) c ≡ part trace st c }
    ensures book { (trace : Trace) (st : State) (h : Heap) (roots : List Name) →
        book_part trace (open_scan h roots st) ≡ book_part trace st }
{}

/// The end of a collection goes by its heap's cell alone, and leaves the other cells.
pub fn what_the_end_of_a_collection_changes_in_its_cell()
    ensures cell { (trace : Trace) (st : State) (h : Heap) → part trace (after_ended trace h st) h ≡ collected (part trace st h) }
    ensures others { (trace : Trace) (st : State) (c : Cell) (h : Heap) → IsFalse (heap_eq h c) →
        part trace (after_ended trace h st) c ≡ part trace st c }
{}

/// The end of a process empties its cell, and the kernel takes in what was there. No other cell changes.
pub fn what_the_end_of_a_process_changes_in_cells()
    ensures cell { (trace : Trace) (st : State) (p : ℕ) → IsSound trace st → MayExit trace st p →
        part trace (after_end_of trace p st) (user p) ≡ at_its_end (part trace st (user p)) }
    ensures kernel { (trace : Trace) (st : State) (p : ℕ) → IsSound trace st → MayExit trace st p →
        part trace (after_end_of trace p st) Kernel
        ≡ taking_in (owner_of trace st) (user p) (part trace st (user p)) (part trace st Kernel) }
    ensures others { (trace : Trace) (st : State) (c : Cell) (p : ℕ) → IsFalse (heap_eq (user p) c) → IsFalse (heap_eq Kernel c) →
        part trace (after_end_of trace p st) c ≡ part trace st c }
{}

/// An absorption empties the shared heap's cell, and the kernel takes in what was there. No other cell changes.
pub fn what_absorption_changes_in_cells()
    ensures cell { (trace : Trace) (st : State) (s : ℕ) → IsSound trace st → MayAbsorb trace st s →
        part trace (after_absorbed trace s st) (shared s) ≡ when_absorbed (part trace st (shared s)) }
    ensures kernel { (trace : Trace) (st : State) (s : ℕ) → IsSound trace st → MayAbsorb trace st s →
        part trace (after_absorbed trace s st) Kernel
        ≡ taking_in (owner_of trace st) (shared s) (part trace st (shared s)) (part trace st Kernel) }
    ensures others { (trace : Trace) (st : State) (c : Cell) (s : ℕ) → IsFalse (heap_eq (shared s) c) → IsFalse (heap_eq Kernel c) →
        part trace (after_absorbed trace s st) c ≡ part trace st c }
{}
