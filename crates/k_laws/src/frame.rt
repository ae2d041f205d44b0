//! What a step leaves as it was, and how histories add up.
ghost use Rattle.std.specs.Prelude.{IsFalse, IsTrue, List, [], ◌+◌, ◌∷◌, ◌++◌, ◌≡◌, ◌↔◌, ℕ};
ghost use Rattle.k_types.specs.Cells.{Cell, part, touches};
ghost use Rattle.k_types.specs.Effects.{step};
ghost use Rattle.k_types.specs.Owners.{user};
ghost use Rattle.k_types.specs.Sound.{IsSized};
ghost use Rattle.k_types.specs.State.{State};
ghost use Rattle.k_types.specs.Steps.{IsLegalHistory, IsPossible, IsRun, done_by, run, state_after, touch_count, touch_count_from};
ghost use Rattle.k_types.specs.Trace.{Trace};
ghost use Rattle.k_types.specs.declared.event.Event.{Event};

/// The frame: a step leaves the part of each cell that it does not touch as it was, and its count of touches, and raises the count of
/// each cell that it touches by 1. So a cell whose
/// count of touches is still the same has the same part.
pub fn steps_leave_other_cells()
    ensures part { (trace : Trace) (st : State) (event : Event) (c : Cell) →
        IsPossible trace st event → IsFalse (touches trace st event c) →
        part trace (step trace st event) c ≡ part trace st c }
    ensures count { (trace : Trace) (c : Cell) (history : List Event) (event : Event) →
        IsFalse (touches trace (state_after trace history) event c) →
        touch_count trace c (history ++ event ∷ []) ≡ touch_count trace c history }
    ensures touched { (trace : Trace) (c : Cell) (history : List Event) (event : Event) →
        IsTrue (touches trace (state_after trace history) event c) →
        touch_count trace c (history ++ event ∷ []) ≡ touch_count trace c history + 1 }
    ensures untouched { (trace : Trace) (c : Cell) (known rest : List Event) → IsLegalHistory trace (known ++ rest) →
        touch_count trace c (known ++ rest) ≡ touch_count trace c known →
        part trace (state_after trace (known ++ rest)) c ≡ part trace (state_after trace known) c }
{}

/// A process whose cell the later events do not touch has done no operation since.
pub fn untouched_processes_do_nothing()
    ensures { (trace : Trace) (p : ℕ) (known rest : List Event) →
        touch_count trace (user p) (known ++ rest) ≡ touch_count trace (user p) known →
        done_by p (known ++ rest) ≡ done_by p known }
{}

/// The lists of a state are as long as the trace says, whatever the events.
pub fn lists_keep_their_lengths()
    ensures { (trace : Trace) (history : List Event) → IsSized trace (state_after trace history) }
{}

/// Histories add up: of two lists of events that follow one another the state, the touches of each cell and the operations of each
/// process are those of the first and then of the second from the state that the first leaves, and together they are legal exactly
/// where each is in its place.
pub fn histories_add_up()
    ensures state { (trace : Trace) (known rest : List Event) →
        state_after trace (known ++ rest) ≡ run trace (state_after trace known) rest }
    ensures legal { (trace : Trace) (known rest : List Event) →
        IsLegalHistory trace (known ++ rest) ↔ (IsLegalHistory trace known × IsRun trace (state_after trace known) rest) }
    ensures touches { (trace : Trace) (c : Cell) (known rest : List Event) →
        touch_count trace c (known ++ rest) ≡ touch_count trace c known + touch_count_from trace (state_after trace known) c rest }
    ensures done { (p : ℕ) (known rest : List Event) → done_by p (known ++ rest) ≡ done_by p known ++ done_by p rest }
{}
