//! What creating and writing objects changes in the parts.
ghost use Rattle.std.specs.Prelude.{IsFalse, List, length, not, ◌+◌, ◌<◌, ◌≡◌, ℕ};
ghost use Rattle.k_laws.specs.BookChanges.{with_charge, with_entry, with_shared_bytes};
ghost use Rattle.k_laws.specs.CellChanges.{with_created, with_exit_to};
ghost use Rattle.k_types.specs.Cells.{Cell, book_part, part};
ghost use Rattle.k_types.specs.Names.{among, heap_eq};
ghost use Rattle.k_types.specs.Owners.{owner_of, phase_of};
ghost use Rattle.k_laws.specs.PartUpdates.{with_written};
ghost use Rattle.k_types.specs.Sound.{IsOrdered, IsSound};
ghost use Rattle.k_types.specs.State.{Content, State, has_exit};
ghost use Rattle.k_types.specs.Trace.{Trace, kinds_of, limit_of, process_count, size_of_type};
ghost use Rattle.k_types.specs.TraceRules.{AreLimits};
ghost use Rattle.k_types.specs.Updates.{add_exit, create, write};
ghost use Rattle.k_types.specs.declared.names.Field.{Field};
ghost use Rattle.k_types.specs.declared.names.Heap.{Heap};
ghost use Rattle.k_types.specs.declared.names.Name.{Name};
ghost use Rattle.k_types.specs.declared.names.Phase.TheVariants.{Populating};
ghost use Rattle.k_types.specs.declared.names.Pid.{Pid};
ghost use Rattle.k_types.specs.declared.names.TypeId.{TypeId};

/// A field that is written shows in the cell of the object's owner, and nowhere else.
pub fn what_a_write_changes()
    ensures cell { (trace : Trace) (st : State) (c : Cell) (x : Name) (i : ℕ) (content : Content) →
        part trace (write x i content st) c ≡ with_written x i content (part trace st c) }
    ensures others { (trace : Trace) (st : State) (c : Cell) (x : Name) (i : ℕ) (content : Content) →
        IsFalse (heap_eq (owner_of trace st x.seg.0) c) → part trace (write x i content st) c ≡ part trace st c }
    ensures book { (trace : Trace) (st : State) (x : Name) (i : ℕ) (content : Content) →
        book_part trace (write x i content st) ≡ book_part trace st }
{}

/// An object that is made shows in the cell of its segment's owner alone.
pub fn what_a_new_object_changes_in_its_cell()
    ensures cell { (trace : Trace) (st : State) (c : Cell) (seg : ℕ) (ty : TypeId) (kinds : List Field) →
        owner_of trace st seg ≡ c → seg < length st.made → IsOrdered st.objects →
        part trace (create seg ty kinds st) c ≡ with_created seg ty kinds (part trace st c) }
    ensures others { (trace : Trace) (st : State) (c : Cell) (seg : ℕ) (ty : TypeId) (kinds : List Field) →
        IsFalse (heap_eq (owner_of trace st seg) c) → part trace (create seg ty kinds st) c ≡ part trace st c }
{}

/// In the book an object that a process makes is charged at the process's limit, whether it is in its own heap or in the shared
/// heap that it populates, whose bytes rise too; one in the kernel's heap is not seen there.
pub fn what_a_new_object_changes_in_the_book()
    ensures own { (trace : Trace) (st : State) (p : ℕ) (ty : TypeId) → AreLimits trace → IsSound trace st →
        p < process_count trace → IsFalse (among p st.ended) →
        book_part trace (create (p + 1) ty (kinds_of trace ty) st)
        ≡ with_charge (limit_of trace p) (size_of_type trace ty) (book_part trace st) }
    ensures kernel { (trace : Trace) (st : State) (ty : TypeId) →
        book_part trace (create 0 ty (kinds_of trace ty) st) ≡ book_part trace st }
    ensures shared { (trace : Trace) (st : State) (pid : Pid) (s : ℕ) (ty : TypeId) → AreLimits trace → IsSound trace st →
        pid.0 < process_count trace → IsFalse (among pid.0 st.ended) → s < trace.shared_heaps →
        phase_of st.phases s ≡ Populating pid →
        book_part trace (create (1 + process_count trace + s) ty (kinds_of trace ty) st)
        ≡ with_shared_bytes s (size_of_type trace ty) (with_charge (limit_of trace pid.0) (size_of_type trace ty) (book_part trace st)) }
{}

/// An exit item that is added shows in its heap's cell, and in the book's entries where it is new.
pub fn what_a_new_exit_item_changes()
    ensures cell { (trace : Trace) (st : State) (h : Heap) (y : Name) →
        part trace (add_exit h y st) h ≡ with_exit_to y (part trace st h) }
    ensures others { (trace : Trace) (st : State) (c : Cell) (h : Heap) (y : Name) → IsFalse (heap_eq h c) →
        part trace (add_exit h y st) c ≡ part trace st c }
    ensures book { (trace : Trace) (st : State) (h : Heap) (y : Name) →
        book_part trace (add_exit h y st) ≡ with_entry (not (has_exit st.exits h y)) y (book_part trace st) }
{}
