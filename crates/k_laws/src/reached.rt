//! How the cells change that the next operation of a process touches.
ghost use Rattle.std.specs.Prelude.{List, ◌++◌, ◌≡◌, ◌≢◌, ℕ};
ghost use Rattle.k_laws.specs.Reached.{StaysOrEnds, StaysOrTurns};
ghost use Rattle.k_types.specs.Cells.{other_cells};
ghost use Rattle.k_types.specs.Owners.{user};
ghost use Rattle.k_types.specs.Steps.{IsLegalHistory, state_after, touch_count};
ghost use Rattle.k_types.specs.Trace.{Trace};
ghost use Rattle.k_types.specs.TraceRules.{AreLimits};
ghost use Rattle.k_types.specs.declared.event.Event.{Event};
ghost use Rattle.k_types.specs.declared.names.Pid.{Pid};
ghost use Rattle.k_types.specs.declared.op.Op.{Op};
ghost use Rattle.k_types.specs.declared.op.Op.TheVariants.{Kill};

/// While no event touches the cell of a process, the cells that its next operation touches beside it change at most once: from none to
/// the kernel's, which takes over the object with the shared heap that it absorbs or with the heap of another process that ends. Those
/// of a kill change at most once too, whatever touches the killer's cell: from the target's and the kernel's to none, where the target
/// has ended.
pub fn reached_cells_change_at_most_once()
    ensures turned { (trace : Trace) (known rest : List Event) (p : ℕ) (op : Op) → ((q : Pid) → op ≢ Kill q) → AreLimits trace →
        IsLegalHistory trace (known ++ rest) → touch_count trace (user p) (known ++ rest) ≡ touch_count trace (user p) known →
        StaysOrTurns (other_cells trace (state_after trace known) p op) (other_cells trace (state_after trace (known ++ rest)) p op) }
    ensures ended { (trace : Trace) (known rest : List Event) (p : ℕ) (q : Pid) →
        StaysOrEnds q (state_after trace (known ++ rest)) (other_cells trace (state_after trace known) p (Kill q))
        (other_cells trace (state_after trace (known ++ rest)) p (Kill q)) }
{}
