//! What a load, a put or a get makes of the parts where the object is of a heap whose cell it touches beside the process's own.
ghost use Rattle.std.specs.Prelude.{◌≡◌, ◌∷◌, ℕ, [], IsFalse, None, Some};
ghost use Rattle.k_laws.specs.BookChanges.{owner_in, with_pin_moved};
ghost use Rattle.k_laws.specs.PartUpdates.{held_in, with_done, with_register, with_written};
ghost use Rattle.k_agree.specs.Moves.{GivesBoth};
ghost use Rattle.k_laws.specs.Answers.{field_in, load_faults_in, number_faults_in};
ghost use Rattle.k_laws.specs.Touches.{base_cell_in};
ghost use Rattle.k_types.specs.Cells.{BookPart, Cell, CellPart};
ghost use Rattle.k_types.specs.Names.{heap_eq};
ghost use Rattle.k_types.specs.Replies.{first_fault, number_in, reference};
ghost use Rattle.k_types.specs.State.{Holds};
ghost use Rattle.k_types.specs.Trace.{Trace};
ghost use Rattle.k_types.specs.declared.event.Fault.{Fault};
ghost use Rattle.k_types.specs.declared.event.Reply.TheVariants.{Done, Loaded, Refused, Value};
ghost use Rattle.k_types.specs.declared.names.Heap.TheVariants.{User};
ghost use Rattle.k_types.specs.declared.names.Name.{Name};
ghost use Rattle.k_types.specs.declared.names.Pid.{Pid};
ghost use Rattle.k_types.specs.declared.names.Reg.{Reg};
ghost use Rattle.k_types.specs.declared.op.Op.TheVariants.{Get, Load, Put};

/// A load sets the register to what the field refers to, and moves its pin; or it is refused with the first fault.
pub fn loads_are_given()
    ensures loaded { (trace : Trace) (b : BookPart) (v u : CellPart) (pid : Pid) (cell : Cell) → IsFalse (heap_eq (User pid) cell) →
        (base : Reg) (i : ℕ) (x : Name) → held_in v.process base.0 ≡ Some x → owner_in trace b x.seg.0 ≡ cell → base_cell_in b pid.0 cell ≡ (cell ∷ []) →
        (r : Reg) → first_fault (load_faults_in b cell u pid.0 i x) ≡ None →
        GivesBoth trace pid (Load r base i) (Loaded (reference (field_in u x i))) cell v (with_done (with_register r.0 (reference (field_in u x i)) v)) u u
        b (with_pin_moved (owner_in trace b) pid.0 (held_in v.process r.0) (reference (field_in u x i)) b) }
    ensures refused { (trace : Trace) (b : BookPart) (v u : CellPart) (pid : Pid) (cell : Cell) → IsFalse (heap_eq (User pid) cell) →
        (base : Reg) (i : ℕ) (x : Name) → held_in v.process base.0 ≡ Some x → owner_in trace b x.seg.0 ≡ cell → base_cell_in b pid.0 cell ≡ (cell ∷ []) →
        (r : Reg) (fault : Fault) → first_fault (load_faults_in b cell u pid.0 i x) ≡ Some fault →
        GivesBoth trace pid (Load r base i) (Refused fault) cell v (with_done v) u u b b }
{}

/// A put writes the number into the field, or is refused with the first fault.
pub fn puts_are_given()
    ensures written { (trace : Trace) (b : BookPart) (v u : CellPart) (pid : Pid) (cell : Cell) → IsFalse (heap_eq (User pid) cell) →
        (base : Reg) (i : ℕ) (x : Name) → held_in v.process base.0 ≡ Some x → owner_in trace b x.seg.0 ≡ cell → base_cell_in b pid.0 cell ≡ (cell ∷ []) →
        (number : ℕ) → first_fault (number_faults_in b cell u pid.0 i x) ≡ None →
        GivesBoth trace pid (Put base i number) Done cell v (with_done v) u (with_written x i (Holds number) u) b b }
    ensures refused { (trace : Trace) (b : BookPart) (v u : CellPart) (pid : Pid) (cell : Cell) → IsFalse (heap_eq (User pid) cell) →
        (base : Reg) (i : ℕ) (x : Name) → held_in v.process base.0 ≡ Some x → owner_in trace b x.seg.0 ≡ cell → base_cell_in b pid.0 cell ≡ (cell ∷ []) →
        (number : ℕ) (fault : Fault) → first_fault (number_faults_in b cell u pid.0 i x) ≡ Some fault →
        GivesBoth trace pid (Put base i number) (Refused fault) cell v (with_done v) u u b b }
{}

/// A get answers the number in the field and changes nothing but the count of operations done, or is refused with the first fault.
pub fn gets_are_given()
    ensures told { (trace : Trace) (b : BookPart) (v u : CellPart) (pid : Pid) (cell : Cell) → IsFalse (heap_eq (User pid) cell) →
        (base : Reg) (i : ℕ) (x : Name) → held_in v.process base.0 ≡ Some x → owner_in trace b x.seg.0 ≡ cell → base_cell_in b pid.0 cell ≡ (cell ∷ []) →
        first_fault (number_faults_in b cell u pid.0 i x) ≡ None →
        GivesBoth trace pid (Get base i) (Value (number_in (field_in u x i))) cell v (with_done v) u u b b }
    ensures refused { (trace : Trace) (b : BookPart) (v u : CellPart) (pid : Pid) (cell : Cell) → IsFalse (heap_eq (User pid) cell) →
        (base : Reg) (i : ℕ) (x : Name) → held_in v.process base.0 ≡ Some x → owner_in trace b x.seg.0 ≡ cell → base_cell_in b pid.0 cell ≡ (cell ∷ []) →
        (fault : Fault) → first_fault (number_faults_in b cell u pid.0 i x) ≡ Some fault →
        GivesBoth trace pid (Get base i) (Refused fault) cell v (with_done v) u u b b }
{}
