//! What an operation adds to the charges and to the uses of limits.
ghost use Rattle.std.specs.Prelude.{IsFalse, List, if◌then◌else◌, length, ◌+◌, ◌<◌, ◌==◌, ◌≡◌, ◌≤◌, ℕ};
ghost use Rattle.k_laws.specs.Charges.{bytes_added, is_done_by};
ghost use Rattle.k_laws.specs.Resizing.{MovesTheReservation};
ghost use Rattle.k_types.specs.Effects.{step};
ghost use Rattle.k_types.specs.Limits.{limits_in, max_of, path_of, use_of, use_within};
ghost use Rattle.k_types.specs.Names.{among};
ghost use Rattle.k_types.specs.Owners.{charge_of};
ghost use Rattle.k_types.specs.Sound.{IsSound};
ghost use Rattle.k_types.specs.State.{State};
ghost use Rattle.k_types.specs.Steps.{IsLegalHistory, IsPossible, state_after};
ghost use Rattle.k_types.specs.Trace.{Trace, limit_of};
ghost use Rattle.k_types.specs.TraceRules.{AreLimits, IsTree, ends_a_process, is_resize};
ghost use Rattle.k_types.specs.declared.event.Event.{Event};
ghost use Rattle.k_types.specs.declared.event.Event.TheVariants.{Done};
ghost use Rattle.k_types.specs.declared.event.Reply.{Reply};
ghost use Rattle.k_types.specs.declared.event.Reply.TheVariants.{Done as DoneReply};
ghost use Rattle.k_types.specs.declared.names.LimitId.{LimitId};
ghost use Rattle.k_types.specs.declared.names.Pid.{Pid};
ghost use Rattle.k_types.specs.declared.op.Op.{Op};
ghost use Rattle.k_types.specs.declared.op.Op.TheVariants.{Resize};

use crate::{LimitRow, Op};

/// A charge of n bytes at a limit raises the use of each limit on its path by n, and no other.
///
/// Source: KaffeOS paper, on hard and soft memlimits.
pub fn charges_go_up_the_path()
    ensures raised { (rows : List LimitRow) (d e : ℕ → ℕ) (n m : ℕ) → IsTree rows → m < length rows →
        ((q : ℕ) → e q ≡ d q + (if q == m then n else 0)) →
        (q : ℕ) → use_within rows e (length rows) q
        ≡ use_within rows d (length rows) q + (if among q (path_of rows m) then n else 0) }
    ensures limits { (trace : Trace) (st : State) → AreLimits trace → IsTree (limits_in trace st) }
{}

/// An operation charges its own process alone: an allocation in its heap or in the shared heap that it populates by the bytes
/// of the object, an attach to a heap that it does not share yet by all bytes of that heap, and anything else, as whatever is
/// refused, by nothing. The uses of the limits on the path of the process's limit rise by just that, and no other. Only what
/// ends a process, its own or another, and of the uses what sets a maximum are told apart.
///
/// Source: KaffeOS paper, on memlimits and on charging each sharer in full.
pub fn operations_charge_their_process()
    ensures charged { (trace : Trace) (st : State) (pid : Pid) (op : Op) (said : Reply) → IsSound trace st →
        IsPossible trace st (Done pid op said) → IsFalse (ends_a_process op) → (q : ℕ) →
        charge_of trace (step trace st (Done pid op said)) q
        ≡ charge_of trace st q + (if q == pid.0 then bytes_added trace st pid.0 op else 0) }
    ensures uses { (trace : Trace) (st : State) (pid : Pid) (op : Op) (said : Reply) → AreLimits trace → IsSound trace st →
        IsPossible trace st (Done pid op said) → IsFalse (ends_a_process op) → IsFalse (is_resize op) → (m : ℕ) →
        use_of trace (step trace st (Done pid op said)) m
        ≡ use_of trace st m
        + (if among m (path_of (limits_in trace st) (limit_of trace pid.0)) then bytes_added trace st pid.0 op else 0) }
{}

/// A resize that is not refused gives its limit the maximum, and moves the reservation of a hard limit: on the path of its parent
/// the uses are more or less by the difference. Every other maximum and use stays, and what each process is charged.
pub fn resizes_move_the_reservation()
    ensures { (trace : Trace) (st : State) (pid : Pid) (limit : LimitId) (max : ℕ) → AreLimits trace → IsSound trace st →
        IsPossible trace st (Done pid (Resize limit max) DoneReply) →
        MovesTheReservation trace st limit.0 max (step trace st (Done pid (Resize limit max) DoneReply)) }
{}

/// No event raises what another process is charged: not its operations, its end or its shares, and no collection, absorption
/// or closing.
///
/// Source: KaffeOS paper, on precise memory accounting.
pub fn nobody_raises_the_charge_of_another()
    ensures { (trace : Trace) (st : State) (event : Event) (q : ℕ) → IsSound trace st → IsPossible trace st event →
        IsFalse (is_done_by event q) → charge_of trace (step trace st event) q ≤ charge_of trace st q }
{}

/// After a legal history the use of each limit is at most its maximum.
pub fn uses_fit()
    ensures { (trace : Trace) (history : List Event) (m : ℕ) → AreLimits trace → IsLegalHistory trace history →
        m < length trace.limits →
        use_of trace (state_after trace history) m ≤ max_of (limits_in trace (state_after trace history)) m }
{}
