//! Operations touch the same cells and get the same replies in states with the same touched parts.
ghost use Rattle.std.specs.Prelude.{IsFalse, IsTrue, ◌<◌, ◌≡◌};
ghost use Rattle.k_laws.specs.Same.{SameToEvent};
ghost use Rattle.k_types.specs.Cells.{cells_touched};
ghost use Rattle.k_types.specs.Names.{among};
ghost use Rattle.k_types.specs.Replies.{reply_to};
ghost use Rattle.k_types.specs.State.{State};
ghost use Rattle.k_types.specs.Steps.{in_range};
ghost use Rattle.k_types.specs.Trace.{Trace, process_count};
ghost use Rattle.k_types.specs.TraceRules.{AreLimits};
ghost use Rattle.k_types.specs.declared.event.Event.{Event};
ghost use Rattle.k_types.specs.declared.event.Event.TheVariants.{Done};
ghost use Rattle.k_types.specs.declared.event.Reply.{Reply};
ghost use Rattle.k_types.specs.declared.names.Pid.{Pid};
ghost use Rattle.k_types.specs.declared.op.Op.{Op};

/// Which cells an event touches is told by the parts of these cells and of the book, so that it is the same in both states, and
/// the second finds the same as the first.
pub fn touched_cells_go_by_the_parts()
    ensures touched { (trace : Trace) (st su : State) (event : Event) → SameToEvent trace st su event →
        cells_touched trace st event ≡ cells_touched trace su event }
    ensures turned { (trace : Trace) (st su : State) (event : Event) → SameToEvent trace st su event →
        SameToEvent trace su st event }
{}

/// What an operation of a living process is answered is told by the parts of the cells that it touches and of the book. The
/// states need not be sound; the limits of the trace are a tree.
pub fn replies_go_by_the_parts()
    ensures { (trace : Trace) (st su : State) (pid : Pid) (op : Op) (said : Reply) → AreLimits trace →
        pid.0 < process_count trace → IsFalse (among pid.0 st.ended) → IsTrue (in_range trace op) →
        SameToEvent trace st su (Done pid op said) → reply_to trace st pid.0 op ≡ reply_to trace su pid.0 op }
{}
