//! What setting and clearing registers changes in the parts.
ghost use Rattle.std.specs.Prelude.{IsFalse, Option, length, ◌<◌, ◌≡◌, ℕ};
ghost use Rattle.k_laws.specs.BookChanges.{owner_in, with_pin_moved};
ghost use Rattle.k_types.specs.Cells.{Cell, book_part, part};
ghost use Rattle.k_types.specs.Names.{heap_eq};
ghost use Rattle.k_types.specs.Owners.{owner_of, user};
ghost use Rattle.k_laws.specs.PartUpdates.{with_done, with_register};
ghost use Rattle.k_types.specs.Sound.{IsSized};
ghost use Rattle.k_types.specs.State.{State, register};
ghost use Rattle.k_types.specs.Trace.{Trace, process_count};
ghost use Rattle.k_types.specs.Updates.{count_done, set_register};
ghost use Rattle.k_types.specs.declared.names.Name.{Name};

/// The book's part tells who owns each segment.
pub fn the_book_tells_the_owners()
    ensures { (trace : Trace) (st : State) → owner_in trace (book_part trace st) ≡ owner_of trace st }
{}

/// One more operation done shows in the process's cell alone.
pub fn what_a_counted_operation_changes()
    ensures cell { (trace : Trace) (st : State) (p : ℕ) → p < length st.done →
        part trace (count_done p st) (user p) ≡ with_done (part trace st (user p)) }
    ensures others { (trace : Trace) (st : State) (c : Cell) (p : ℕ) → IsFalse (heap_eq (user p) c) →
        part trace (count_done p st) c ≡ part trace st c }
    ensures book { (trace : Trace) (st : State) (p : ℕ) → book_part trace (count_done p st) ≡ book_part trace st }
{}

/// A register that is set shows in the process's cell, and in the book's pins of what it held and what it holds now.
pub fn what_a_register_changes()
    ensures cell { (trace : Trace) (st : State) (p r : ℕ) (v : Option Name) →
        part trace (set_register p r v st) (user p) ≡ with_register r v (part trace st (user p)) }
    ensures others { (trace : Trace) (st : State) (c : Cell) (p r : ℕ) (v : Option Name) → IsFalse (heap_eq (user p) c) →
        part trace (set_register p r v st) c ≡ part trace st c }
    ensures book { (trace : Trace) (st : State) (p r : ℕ) (v : Option Name) → IsSized trace st → p < process_count trace → r < 16 →
        book_part trace (set_register p r v st)
        ≡ with_pin_moved (owner_of trace st) p (register st.registers p r) v (book_part trace st) }
{}
