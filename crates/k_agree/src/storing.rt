//! What a store makes of the parts of the cells that it touches and of the book's.
ghost use Rattle.std.specs.Prelude.{◌≡◌, ◌∷◌, ℕ, true, [], IsFalse, IsTrue, None, Option, Some};
ghost use Rattle.k_laws.specs.BookChanges.{owner_in, with_entry};
ghost use Rattle.k_laws.specs.CellChanges.{with_exit_to};
ghost use Rattle.k_laws.specs.PartUpdates.{held_in, with_done, with_written};
ghost use Rattle.k_agree.specs.Moves.{GivesAlone, GivesBoth};
ghost use Rattle.k_agree.specs.Shown.{part_alone};
ghost use Rattle.k_laws.specs.Answers.{store_faults_in};
ghost use Rattle.k_laws.specs.BookAfter.{book_stored};
ghost use Rattle.k_laws.specs.CellAfter.{with_exit_for};
ghost use Rattle.k_laws.specs.Touches.{base_cell_in};
ghost use Rattle.k_types.specs.Cells.{BookPart, Cell, CellPart};
ghost use Rattle.k_types.specs.Names.{heap_eq};
ghost use Rattle.k_types.specs.Replies.{first_fault};
ghost use Rattle.k_types.specs.State.{Refers};
ghost use Rattle.k_types.specs.Trace.{Trace};
ghost use Rattle.k_types.specs.declared.event.Fault.{Fault};
ghost use Rattle.k_types.specs.declared.event.Fault.TheVariants.{Null};
ghost use Rattle.k_types.specs.declared.event.Reply.TheVariants.{Done, Refused};
ghost use Rattle.k_types.specs.declared.names.Heap.{Heap};
ghost use Rattle.k_types.specs.declared.names.Heap.TheVariants.{User};
ghost use Rattle.k_types.specs.declared.names.Name.{Name};
ghost use Rattle.k_types.specs.declared.names.Pid.{Pid};
ghost use Rattle.k_types.specs.declared.names.Reg.{Reg};
ghost use Rattle.k_types.specs.declared.op.Op.TheVariants.{Store};

/// A store through a null register is refused as such. One into an object of the process's own heap, or of one whose cell the store
/// touches too, writes the field, adds the exit item to the cell of that heap, and enters it on the book, or is refused with the
/// first fault.
pub fn stores_are_given()
    ensures null { (trace : Trace) (b : BookPart) (v : CellPart) (pid : Pid) (base : Reg) (i : ℕ) (value : Reg) →
        held_in v.process base.0 ≡ None → GivesAlone trace pid (Store base i value) (Refused Null) v (with_done v) b b }
    ensures own { (trace : Trace) (b : BookPart) (v : CellPart) (pid : Pid) (base : Reg) (i : ℕ) (value : Reg) (x : Name) (y : Option Name) →
        held_in v.process base.0 ≡ Some x → held_in v.process value.0 ≡ y → owner_in trace b x.seg.0 ≡ User pid →
        first_fault (store_faults_in trace b (User pid) v pid.0 i y x) ≡ None →
        GivesAlone trace pid (Store base i value) Done v (with_done (with_written x i (Refers y) (with_exit_for (owner_in trace b) x y v)))
        b (book_stored (owner_in trace b) (Some x) y (part_alone v) b) }
    ensures own_refused { (trace : Trace) (b : BookPart) (v : CellPart) (pid : Pid) (base : Reg) (i : ℕ) (value : Reg) (x : Name) (y : Option Name) →
        held_in v.process base.0 ≡ Some x → held_in v.process value.0 ≡ y → owner_in trace b x.seg.0 ≡ User pid →
        (fault : Fault) → first_fault (store_faults_in trace b (User pid) v pid.0 i y x) ≡ Some fault →
        GivesAlone trace pid (Store base i value) (Refused fault) v (with_done v) b b }
    ensures beside { (trace : Trace) (b : BookPart) (v u : CellPart) (pid : Pid) (cell : Cell) → IsFalse (heap_eq (User pid) cell) →
        (base : Reg) (i : ℕ) (x : Name) → held_in v.process base.0 ≡ Some x → owner_in trace b x.seg.0 ≡ cell → base_cell_in b pid.0 cell ≡ (cell ∷ []) →
        (value : Reg) (y : Option Name) → held_in v.process value.0 ≡ y → first_fault (store_faults_in trace b cell u pid.0 i y x) ≡ None →
        GivesBoth trace pid (Store base i value) Done cell v (with_done v) u (with_written x i (Refers y) (with_exit_for (owner_in trace b) x y u))
        b (book_stored (owner_in trace b) (Some x) y (part_alone u) b) }
    ensures beside_refused { (trace : Trace) (b : BookPart) (v u : CellPart) (pid : Pid) (cell : Cell) → IsFalse (heap_eq (User pid) cell) →
        (base : Reg) (i : ℕ) (x : Name) → held_in v.process base.0 ≡ Some x → owner_in trace b x.seg.0 ≡ cell → base_cell_in b pid.0 cell ≡ (cell ∷ []) →
        (value : Reg) (y : Option Name) → held_in v.process value.0 ≡ y → (fault : Fault) → first_fault (store_faults_in trace b cell u pid.0 i y x) ≡ Some fault →
        GivesBoth trace pid (Store base i value) (Refused fault) cell v (with_done v) u u b b }
{}

/// A stored reference to an object of another heap than the one that it is stored into is entered once, with the exit item.
pub fn stores_enter_once()
    ensures inside { (own : ℕ → Heap) (x y : Name) (c : CellPart) (b : BookPart) → IsTrue (heap_eq (own x.seg.0) (own y.seg.0)) →
        book_stored own (Some x) (Some y) (part_alone c) b ≡ b }
    ensures there { (own : ℕ → Heap) (x y : Name) (c : CellPart) (b : BookPart) → IsFalse (heap_eq (own x.seg.0) (own y.seg.0)) → IsTrue (c.exits y) →
        book_stored own (Some x) (Some y) (part_alone c) b ≡ b }
    ensures entered { (own : ℕ → Heap) (x y : Name) (c : CellPart) (b : BookPart) → IsFalse (heap_eq (own x.seg.0) (own y.seg.0)) → IsFalse (c.exits y) →
        book_stored own (Some x) (Some y) (part_alone c) b ≡ with_entry true y b }
    ensures no_exit { (own : ℕ → Heap) (x y : Name) (c : CellPart) → IsTrue (heap_eq (own x.seg.0) (own y.seg.0)) →
        with_exit_for own x (Some y) c ≡ c }
    ensures exit { (own : ℕ → Heap) (x y : Name) (c : CellPart) → IsFalse (heap_eq (own x.seg.0) (own y.seg.0)) →
        with_exit_for own x (Some y) c ≡ with_exit_to y c }
{}
