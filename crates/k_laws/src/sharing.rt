//! What sharing, freezing, attaching and another maximum change in the parts.
ghost use Rattle.std.specs.Prelude.{IsFalse, IsTrue, length, slice_index_or, ◌<◌, ◌≡◌, ℕ};
ghost use Rattle.k_laws.specs.BookChanges.{when_closed, with_charge, with_phase, with_share, with_max};
ghost use Rattle.k_laws.specs.CellChanges.{in_phase};
ghost use Rattle.k_types.specs.Cells.{Cell, book_part, part};
ghost use Rattle.k_types.specs.Names.{among, heap_eq};
ghost use Rattle.k_types.specs.Owners.{is_absorbed, phase_of, shared};
ghost use Rattle.k_types.specs.State.{State, has_share};
ghost use Rattle.k_types.specs.Trace.{Trace, limit_of, process_count};
ghost use Rattle.k_types.specs.TraceRules.{AreLimits};
ghost use Rattle.k_types.specs.Updates.{add_share, close, set_phase, set_max};
ghost use Rattle.k_types.specs.declared.names.Phase.{Phase};

/// A phase that is set, and makes the heap neither absorbed nor unabsorbed, shows in the shared heap's cell and in the book.
pub fn what_a_phase_changes()
    ensures cell { (trace : Trace) (st : State) (s : ℕ) (phase : Phase) → s < length st.phases →
        is_absorbed phase ≡ is_absorbed (phase_of st.phases s) →
        part trace (set_phase s phase st) (shared s) ≡ in_phase phase (part trace st (shared s)) }
    ensures others { (trace : Trace) (st : State) (c : Cell) (s : ℕ) (phase : Phase) → IsFalse (heap_eq (shared s) c) →
        is_absorbed phase ≡ is_absorbed (phase_of st.phases s) → part trace (set_phase s phase st) c ≡ part trace st c }
    ensures book { (trace : Trace) (st : State) (s : ℕ) (phase : Phase) →
        is_absorbed phase ≡ is_absorbed (phase_of st.phases s) →
        book_part trace (set_phase s phase st) ≡ with_phase s phase (book_part trace st) }
{}

/// A share shows in the book alone: a new one charges all bytes of the heap at the process's limit, one that is there already
/// changes nothing.
pub fn what_a_new_share_changes()
    ensures cells { (trace : Trace) (st : State) (c : Cell) (p s : ℕ) → part trace (add_share p s st) c ≡ part trace st c }
    ensures book { (trace : Trace) (st : State) (p s : ℕ) → AreLimits trace → p < process_count trace →
        IsFalse (among p st.ended) → s < trace.shared_heaps → IsFalse (has_share st.shares p s) →
        book_part trace (add_share p s st)
        ≡ with_charge (limit_of trace p) (slice_index_or (book_part trace st).shared_bytes s 0) (with_share p s (book_part trace st)) }
    ensures again { (st : State) (p s : ℕ) → IsTrue (has_share st.shares p s) → add_share p s st ≡ st }
{}

/// A maximum shows in the book alone.
pub fn what_a_new_maximum_changes()
    ensures cells { (trace : Trace) (st : State) (c : Cell) (m max : ℕ) → part trace (set_max m max st) c ≡ part trace st c }
    ensures book { (trace : Trace) (st : State) (m max : ℕ) →
        book_part trace (set_max m max st) ≡ with_max m max (book_part trace st) }
{}

/// The closing shows in the book alone, except for the collection that it begins.
pub fn what_closing_changes()
    ensures cells { (trace : Trace) (st : State) (c : Cell) → part trace (close st) c ≡ part trace st c }
    ensures book { (trace : Trace) (st : State) → book_part trace (close st) ≡ when_closed (book_part trace st) }
{}
