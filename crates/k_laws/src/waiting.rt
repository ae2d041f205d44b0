//! What is possible where nothing waits: operations where no touched heap is scanned, and all absorptions.
ghost use Rattle.std.specs.Prelude.{IsFalse, IsTrue, None, [], not, ◌<◌, ◌≡◌, ◌||◌};
ghost use Rattle.k_types.specs.Cells.{Cell, touches};
ghost use Rattle.k_types.specs.FileOrder.{absorptions};
ghost use Rattle.k_types.specs.Names.{among};
ghost use Rattle.k_types.specs.Replies.{reply_to};
ghost use Rattle.k_types.specs.Sound.{IsSized, IsSound};
ghost use Rattle.k_types.specs.State.{State, is_scanned, scan_of};
ghost use Rattle.k_types.specs.Steps.{IsPossible, IsRun, in_range, no_orphan, run, waits_for_orphans};
ghost use Rattle.k_types.specs.Trace.{IsHeap, Trace, process_count};
ghost use Rattle.k_types.specs.declared.event.Event.TheVariants.{Done};
ghost use Rattle.k_types.specs.declared.names.Heap.{Heap};
ghost use Rattle.k_types.specs.declared.names.Heap.TheVariants.{Kernel};
ghost use Rattle.k_types.specs.declared.names.Pid.{Pid};
ghost use Rattle.k_types.specs.declared.op.Op.{Op};

/// An operation of a living process is possible, with the reply that it is answered, where no heap that it touches is scanned and,
/// if it waits for orphans, there is none.
pub fn operations_wait_for_scans_and_orphans_alone()
    ensures { (trace : Trace) (st : State) (pid : Pid) (op : Op) → pid.0 < process_count trace → IsFalse (among pid.0 st.ended) →
        IsTrue (in_range trace op) → IsTrue (not (waits_for_orphans op) || no_orphan trace st) →
        ((c : Cell) → IsTrue (touches trace st (Done pid op (reply_to trace st pid.0 op)) c) → scan_of st.scans c ≡ None) →
        IsPossible trace st (Done pid op (reply_to trace st pid.0 op)) }
{}

/// All orphans can be absorbed, one after the other, where the kernel is not scanned; then there is none.
pub fn orphans_can_be_absorbed()
    ensures { (trace : Trace) (st : State) → IsSized trace st → IsFalse (is_scanned st.scans Kernel) →
        IsRun trace st (absorptions trace st) × IsTrue (no_orphan trace (run trace st (absorptions trace st))) }
{}

/// Where no heap of the trace is scanned there is no open collection.
pub fn scans_are_of_the_heaps_of_the_trace()
    ensures { (trace : Trace) (st : State) → IsSound trace st → ((h : Heap) → IsHeap trace h → IsFalse (is_scanned st.scans h)) →
        st.scans ≡ [] }
{}
