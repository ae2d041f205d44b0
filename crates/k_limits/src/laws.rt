//! Laws of the definitions.
ghost use Rattle.std.specs.Prelude.{List, None, find, length, nat_lt, ◌+◌, ◌<◌, ◌≡◌, ◌↔◌, ℕ};
ghost use Rattle.k_types.specs.Limits.{full_limit, max_of, path_of, use_of};
ghost use Rattle.k_types.specs.Cells.{BookPart, use_shown};
ghost use Rattle.k_types.specs.State.{State};
ghost use Rattle.k_types.specs.Trace.{Trace};
ghost use Rattle.k_types.specs.TraceRules.{IsTree};
ghost use Rattle.k_limits.specs.Laws.{AreCharges, ReservesFit, limits_by, limits_of};
ghost use Rattle.k_limits.specs.Limits.{full_at, use_at};
ghost use Rattle.k_limits.specs.Rows.{first_refused};

use k_types::LimitRow;

/// Where each limit is charged directly what the machine charges the processes on it, uses and full limits are those of
/// the machine.
#[tactic(auto, using(crate::proofs::MachineUses::machine_uses, crate::proofs::MachineUses::machine_fulls))]
pub fn uses_are_the_machines()
    ensures uses { (trace : Trace) (st : State) (direct : List ℕ) → AreCharges trace st direct → (m : ℕ) → m < length trace.limits → use_at (limits_of trace st direct) m ≡ use_of trace st m }
    ensures full { (trace : Trace) (st : State) (direct : List ℕ) → IsTree trace.limits → AreCharges trace st direct → (m n : ℕ) → m < length trace.limits → full_at (limits_of trace st direct) m n ≡ full_limit trace st m n }
{}

/// Uses and full limits by the book's part are those of a tree that has its maxima and what it has charged directly.
#[tactic(auto, using(crate::proofs::MachineUses::shown_use, crate::proofs::MachineUses::shown_full))]
pub fn uses_are_those_of_the_books_part()
    ensures uses { (trace : Trace) (book : BookPart) (m : ℕ) → use_at (limits_by trace book) m ≡ use_shown trace book m }
    ensures full { (trace : Trace) (book : BookPart) (m n : ℕ) → full_at (limits_by trace book) m n ≡
        find (λ q. nat_lt (max_of (limits_by trace book).rows q) (use_shown trace book q + n)) (path_of (limits_by trace book).rows m) }
{}

/// No row of a tree is refused exactly where, with nothing charged, what is reserved at each limit fits into its maximum.
#[tactic(auto, using(crate::proofs::Fits::none_refused))]
pub fn rows_that_fit_are_not_refused()
    ensures { (rows : List LimitRow) → IsTree rows → (first_refused rows ≡ None) ↔ ReservesFit rows }
{}
