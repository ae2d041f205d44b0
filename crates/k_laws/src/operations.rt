//! When operations do nothing, and when they wait.
ghost use Rattle.std.specs.Prelude.{IsTrue, ◌<◌, ◌≡◌, ℕ};
ghost use Rattle.k_laws.specs.Kept.{HasEndOf, IsPaidFor};
ghost use Rattle.k_types.specs.Cells.{touches};
ghost use Rattle.k_types.specs.Effects.{after_operation};
ghost use Rattle.k_types.specs.Replies.{reply_to};
ghost use Rattle.k_types.specs.Sound.{IsSound};
ghost use Rattle.k_types.specs.State.{State, is_scanned};
ghost use Rattle.k_types.specs.Steps.{IsPossible};
ghost use Rattle.k_types.specs.Trace.{Trace};
ghost use Rattle.k_types.specs.Updates.{count_done};
ghost use Rattle.k_types.specs.declared.event.Event.{Event};
ghost use Rattle.k_types.specs.declared.event.Event.TheVariants.{Closing, Done};
ghost use Rattle.k_types.specs.declared.event.Fault.{Fault};
ghost use Rattle.k_types.specs.declared.event.Reply.{Reply};
ghost use Rattle.k_types.specs.declared.event.Reply.TheVariants.{Refused};
ghost use Rattle.k_types.specs.declared.names.Heap.{Heap};
ghost use Rattle.k_types.specs.declared.names.Pid.{Pid};
ghost use Rattle.k_types.specs.declared.op.Op.{Op};
ghost use Rattle.k_types.specs.declared.op.Op.TheVariants.{KCollect};

/// A refused operation changes the count of operations done and nothing else.
pub fn refused_operations_only_count()
    ensures { (trace : Trace) (st : State) (p : ℕ) (op : Op) (fault : Fault) → reply_to trace st p op ≡ Refused fault →
        after_operation trace p op st ≡ count_done p st }
{}

/// Before a collection of the kernel begins, by an operation or as the last one, no shared heap is an orphan: each that was made
/// and is not absorbed has a process that pays for it.
///
/// Source: KaffeOS paper, on orphaned shared heaps.
pub fn kernel_collections_wait_for_orphans()
    ensures operation { (trace : Trace) (st : State) (pid : Pid) (said : Reply) (s : ℕ) →
        IsPossible trace st (Done pid KCollect said) → s < trace.shared_heaps → IsPaidFor st s }
    ensures closing { (trace : Trace) (st : State) (s : ℕ) → IsPossible trace st Closing → s < trace.shared_heaps → IsPaidFor st s }
{}

/// Nothing touches a heap whose collection is open but the end of that collection.
pub fn scanned_heaps_are_left_alone()
    ensures { (trace : Trace) (st : State) (event : Event) (h : Heap) → IsSound trace st → IsPossible trace st event →
        IsTrue (is_scanned st.scans h) → IsTrue (touches trace st event h) → HasEndOf h event }
{}
