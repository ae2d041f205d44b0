//! What operations in the own cell make of its part and of the book's.
ghost use Rattle.std.specs.Prelude.{◌≡◌, ℕ, IsFalse, IsTrue, None, Some, [], ◌∷◌};
ghost use Rattle.k_laws.specs.BookChanges.{owner_in, with_charge, with_max, with_pin_moved};
ghost use Rattle.k_laws.specs.CellChanges.{next_name_in, with_created};
ghost use Rattle.k_laws.specs.PartUpdates.{held_in, with_done, with_register};
ghost use Rattle.k_agree.specs.Moves.{GivesAlone, GivesBoth};
ghost use Rattle.k_agree.specs.Shown.{part_alone, two_parts};
ghost use Rattle.k_laws.specs.Answers.{faults_in, reply_in, size_fault_in};
ghost use Rattle.k_laws.specs.CellAfter.{unless_refused};
ghost use Rattle.k_laws.specs.Touches.{other_cells_in};
ghost use Rattle.k_types.specs.Cells.{BookPart, Cell, CellPart};
ghost use Rattle.k_types.specs.Limits.{is_above};
ghost use Rattle.k_types.specs.Names.{directory, heap_eq};
ghost use Rattle.k_types.specs.Replies.{first_fault};
ghost use Rattle.k_types.specs.Trace.{Trace, kinds_of, limit_of, segment_of, size_of_type};
ghost use Rattle.k_types.specs.declared.event.Fault.{Fault};
ghost use Rattle.k_types.specs.declared.event.Fault.TheVariants.{ProcNotBelow};
ghost use Rattle.k_types.specs.declared.event.Reply.{Reply};
ghost use Rattle.k_types.specs.declared.event.Reply.TheVariants.{Done, Loaded, Made, Refused};
ghost use Rattle.k_types.specs.declared.names.Heap.TheVariants.{User};
ghost use Rattle.k_types.specs.declared.names.LimitId.{LimitId};
ghost use Rattle.k_types.specs.declared.names.Pid.{Pid};
ghost use Rattle.k_types.specs.declared.names.Reg.{Reg};
ghost use Rattle.k_types.specs.declared.names.TypeId.{TypeId};
ghost use Rattle.k_types.specs.declared.op.Op.{Op};
ghost use Rattle.k_types.specs.declared.op.Op.TheVariants.{Clear, Dir, Kill, Move, New, Resize};

/// A refused operation counts as done, and changes nothing else of the cells, and nothing of the book.
pub fn refused_operations_count()
    ensures alone { (trace : Trace) (b : BookPart) (v : CellPart) (pid : Pid) (op : Op) (fault : Fault) →
        other_cells_in trace b v pid.0 op ≡ [] → first_fault (faults_in trace b (part_alone v) pid.0 op) ≡ Some fault →
        GivesAlone trace pid op (Refused fault) v (with_done v) b b }
    ensures both { (trace : Trace) (b : BookPart) (v u : CellPart) (pid : Pid) (cell : Cell) → IsFalse (heap_eq (User pid) cell) →
        (op : Op) (fault : Fault) → other_cells_in trace b v pid.0 op ≡ (cell ∷ []) → first_fault (faults_in trace b (two_parts (User pid) v u) pid.0 op) ≡ Some fault →
        GivesBoth trace pid op (Refused fault) cell v (with_done v) u u b b }
{}

/// `move`, `drop` and `dir` set the register, and move its pin.
pub fn registers_are_set()
    ensures moved { (trace : Trace) (b : BookPart) (v : CellPart) (pid : Pid) (r from : Reg) →
        GivesAlone trace pid (Move r from) Done v (with_done (with_register r.0 (held_in v.process from.0) v))
        b (with_pin_moved (owner_in trace b) pid.0 (held_in v.process r.0) (held_in v.process from.0) b) }
    ensures dropped { (trace : Trace) (b : BookPart) (v : CellPart) (pid : Pid) (r : Reg) →
        GivesAlone trace pid (Clear r) Done v (with_done (with_register r.0 None v))
        b (with_pin_moved (owner_in trace b) pid.0 (held_in v.process r.0) None b) }
    ensures directory { (trace : Trace) (b : BookPart) (v : CellPart) (pid : Pid) (r : Reg) →
        GivesAlone trace pid (Dir r) (Loaded (Some directory)) v (with_done (with_register r.0 (Some directory) v))
        b (with_pin_moved (owner_in trace b) pid.0 (held_in v.process r.0) (Some directory) b) }
{}

/// `new` adds an object, sets the register to it, moves its pin, and charges the size; or it is refused where the size does not fit.
pub fn new_objects_are_given()
    ensures given { (trace : Trace) (b : BookPart) (v : CellPart) (pid : Pid) (r : Reg) (ty : TypeId) →
        size_fault_in trace b pid.0 (size_of_type trace ty) ≡ None →
        GivesAlone trace pid (New r ty) (Made (next_name_in (segment_of trace (User pid)) v))
        v (with_done (with_register r.0 (Some (next_name_in (segment_of trace (User pid)) v)) (with_created (segment_of trace (User pid)) ty (kinds_of trace ty) v)))
        b (with_pin_moved (owner_in trace b) pid.0 (held_in v.process r.0) (Some (next_name_in (segment_of trace (User pid)) v)) (with_charge (limit_of trace pid.0) (size_of_type trace ty) b)) }
    ensures refused { (trace : Trace) (b : BookPart) (v : CellPart) (pid : Pid) (r : Reg) (ty : TypeId) (fault : Fault) →
        size_fault_in trace b pid.0 (size_of_type trace ty) ≡ Some fault →
        GivesAlone trace pid (New r ty) (Refused fault) v (with_done v) b b }
{}

/// A `kill` that is refused, or whose target has ended, counts as done and changes nothing else.
pub fn kills_may_end_nobody()
    ensures refused { (trace : Trace) (b : BookPart) (v : CellPart) (pid q : Pid) → IsFalse (is_above trace pid.0 q.0) →
        GivesAlone trace pid (Kill q) (Refused (ProcNotBelow q)) v (with_done v) b b }
    ensures idle { (trace : Trace) (b : BookPart) (v : CellPart) (pid q : Pid) → IsTrue (is_above trace pid.0 q.0) → IsTrue (b.ended q.0) →
        GivesAlone trace pid (Kill q) Done v (with_done v) b b }
{}

/// `resize` is answered by the book alone, and sets the maximum of the limit unless it is refused.
pub fn maxima_are_set()
    ensures { (trace : Trace) (b k : BookPart) (v : CellPart) (pid : Pid) (m : LimitId) (max : ℕ) (said : Reply) →
        said ≡ reply_in trace b (part_alone v) pid.0 (Resize m max) → k ≡ unless_refused said (with_max m.0 max b) b →
        GivesAlone trace pid (Resize m max) said v (with_done v) b k }
{}
