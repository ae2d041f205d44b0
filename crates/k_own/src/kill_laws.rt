//! What the end of a process by another is among the steps.
ghost use Rattle.std.specs.Prelude.{[], ◌∷◌};
ghost use Rattle.k_commit.specs.k_book.Books.{BookRecord};
ghost use Rattle.k_commit.specs.k_cell.Holdings.{HoldingsValue};
ghost use Rattle.k_commit.specs.Beside.{HasSteppedBeside};
ghost use Rattle.k_own.specs.Killing.{HasKilled};
ghost use Rattle.k_commit.specs.k_heap.Heaps.{HeapRecord};
ghost use Rattle.k_commit.specs.k_agree.Moves.{noted};
ghost use Rattle.k_types.specs.Trace.{Trace};
ghost use Rattle.k_types.specs.declared.event.Event.{Event};
ghost use Rattle.k_types.specs.declared.names.Heap.TheVariants.{Kernel, User};
ghost use Rattle.k_types.specs.declared.op.Op.{Op};

/// A kill that ends its target is a step beside two cells, the target's and the kernel's.
pub fn kills_step_beside()
    ensures { (trace : Trace) (op : Op) (c w t u : HeapRecord) (k x : HoldingsValue) (b l : BookRecord) (event : Event) →
        HasKilled trace c w t u k x b l op event → HasSteppedBeside trace op c w (noted (User u.pid) u.note u.value ∷ noted Kernel x.note x.value ∷ []) b l event }
{}
