//! What the parts of a cell and of the book tell of a state.
ghost use Rattle.std.specs.Prelude.{length, slice_index_or, ◌<◌, ◌≡◌, ℕ};
ghost use Rattle.k_laws.specs.BookChanges.{bytes_in};
ghost use Rattle.k_laws.specs.CellChanges.{next_name_in};
ghost use Rattle.k_laws.specs.Told.{full_limit_in, full_for_in};
ghost use Rattle.k_types.specs.Cells.{Cell, book_part, part};
ghost use Rattle.k_types.specs.Limits.{full_limit, full_for};
ghost use Rattle.k_types.specs.Owners.{bytes_of, owner_of, shared, user};
ghost use Rattle.k_laws.specs.PartUpdates.{held_in};
ghost use Rattle.k_types.specs.State.{State, object_at, register};
ghost use Rattle.k_types.specs.Trace.{Trace};
ghost use Rattle.k_types.specs.TraceRules.{AreLimits};
ghost use Rattle.k_types.specs.Updates.{next_name};
ghost use Rattle.k_types.specs.declared.names.Name.{Name};

/// A cell tells what an operation reads of its heap: the objects, and so their fields; the registers of its process; the name of
/// the next object of a segment; the heap's bytes.
pub fn cells_tell_what_is_read_of_them()
    ensures objects { (trace : Trace) (st : State) (c : Cell) (x : Name) → owner_of trace st x.seg.0 ≡ c →
        object_at (part trace st c).objects x ≡ object_at st.objects x }
    ensures registers { (trace : Trace) (st : State) (p r : ℕ) →
        held_in (part trace st (user p)).process r ≡ register st.registers p r }
    ensures names { (trace : Trace) (st : State) (c : Cell) (seg : ℕ) → owner_of trace st seg ≡ c →
        next_name_in seg (part trace st c) ≡ next_name seg st }
    ensures bytes { (trace : Trace) (st : State) (c : Cell) → bytes_in (part trace st c) ≡ bytes_of trace st c }
{}

/// The book tells the bytes of each shared heap, for each limit and size the first limit on the path that is full, and for each
/// limit and maximum the first that is full where the limit is to have it.
pub fn the_book_tells_what_fits()
    ensures shared { (trace : Trace) (st : State) (s : ℕ) → s < trace.shared_heaps →
        slice_index_or (book_part trace st).shared_bytes s 0 ≡ bytes_of trace st (shared s) }
    ensures limits { (trace : Trace) (st : State) (m n : ℕ) → AreLimits trace → m < length trace.limits →
        full_limit_in trace (book_part trace st) m n ≡ full_limit trace st m n }
    ensures maxima { (trace : Trace) (st : State) (m max : ℕ) → AreLimits trace → m < length trace.limits →
        full_for_in trace (book_part trace st) m max ≡ full_for trace st m max }
{}
