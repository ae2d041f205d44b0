//! Operations that a process does inside its own heap.
ghost use Rattle.std.specs.Prelude.{IsFalse, IsTrue, Some, ◌++◌, ◌≡◌};
ghost use Rattle.k_commit.specs.k_agree.Agreement.{Agrees};
ghost use Rattle.k_commit.specs.Heaps.{has_ended_in};
ghost use Rattle.k_process.specs.Locals.{after_local, local_answer};
ghost use Rattle.k_tie.specs.Values.{NoteValue};
ghost use Rattle.k_types.specs.Agree.{CellValue};
ghost use Rattle.k_types.specs.Steps.{IsPossible, in_range, state_after};
ghost use Rattle.k_types.specs.Trace.{Trace};
ghost use Rattle.k_types.specs.TraceRules.{AreLimits};
ghost use Rattle.k_types.specs.declared.event.Event.TheVariants.{Done};
ghost use Rattle.k_types.specs.declared.event.Reply.{Reply};
ghost use Rattle.k_types.specs.declared.names.CellPhase.TheVariants.{Idle};
ghost use Rattle.k_types.specs.declared.names.Heap.TheVariants.{User};
ghost use Rattle.k_types.specs.declared.names.Pid.{Pid};
ghost use Rattle.k_types.specs.declared.op.Op.{Op};

/// The cell of a living process that agrees with its note still does after a local operation, whose event is the newest of those that
/// the journal lacks: it is possible after what the note knows and the unpublished events.
pub fn local_operations_keep_agreement()
    ensures possible { (trace : Trace) (pid : Pid) (note : NoteValue) (v : CellValue) (op : Op) (said : Reply) → AreLimits trace →
        Agrees trace (User pid) note v → v.collection ≡ Idle → IsFalse (has_ended_in v.process) → IsTrue (in_range trace op) →
        local_answer v pid.0 op ≡ Some said → IsPossible trace (state_after trace (note.list ++ v.tail)) (Done pid op said) }
    ensures agrees { (trace : Trace) (pid : Pid) (note : NoteValue) (v : CellValue) (op : Op) (said : Reply) → AreLimits trace →
        Agrees trace (User pid) note v → v.collection ≡ Idle → IsFalse (has_ended_in v.process) → IsTrue (in_range trace op) →
        local_answer v pid.0 op ≡ Some said → Agrees trace (User pid) note (after_local pid op said v) }
{}
