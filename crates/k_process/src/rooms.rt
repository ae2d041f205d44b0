//! The operation that comes next finds room.
ghost use Rattle.std.specs.Prelude.{List, ◌<◌, ℕ};
ghost use Rattle.k_commit.specs.k_agree.Rooms.{AreFirst, IsNext};
ghost use Rattle.k_laws.specs.Counts.{exit_count};
ghost use Rattle.k_process.specs.Rooms.{HasRoomLeft, shared_exit_room};
ghost use Rattle.k_types.specs.Owners.{shared};
ghost use Rattle.k_types.specs.Steps.{IsLegalHistory, state_after};
ghost use Rattle.k_types.specs.Trace.{Trace, process_count};
ghost use Rattle.k_types.specs.TraceRules.{AreLimits, KeepsRules};
ghost use Rattle.k_types.specs.declared.event.Event.{Event};
ghost use Rattle.k_types.specs.declared.op.Op.{Op};

/// A legal history that has the first operations of the trace leaves room for the operation that a process does next, refused or
/// not: it is an operation of the trace that the history has not done.
pub fn operations_leave_room()
    ensures { (trace : Trace) (history : List Event) (p : ℕ) (op : Op) → KeepsRules trace → IsLegalHistory trace history →
        AreFirst trace history → p < process_count trace → IsNext trace p history op → HasRoomLeft trace history p op }
{}

/// It always leaves room for one more exit item of each shared heap.
pub fn shared_heaps_have_room()
    ensures { (trace : Trace) (history : List Event) (s : ℕ) → AreLimits trace → IsLegalHistory trace history →
        AreFirst trace history → exit_count (state_after trace history).exits (shared s) < shared_exit_room trace s }
{}
