//! The counts of a history, process by process.
ghost use Rattle.std.specs.Prelude.{List, length, ◌≡◌, ◌≤◌, ◌↔◌, ℕ};
ghost use Rattle.k_laws.specs.Counts.{allocates_in, allocation_count, one_if, operation_count, store_count, stores_by};
ghost use Rattle.k_types.specs.Complete.{IsPrefixOf};
ghost use Rattle.k_types.specs.Following.{FollowsOwn};
ghost use Rattle.k_types.specs.Numbers.{numbers_below};
ghost use Rattle.k_types.specs.Steps.{IsLegalHistory, done_by};
ghost use Rattle.k_types.specs.Totals.{total};
ghost use Rattle.k_types.specs.Trace.{Trace, operations_of, process_count};
ghost use Rattle.k_types.specs.declared.event.Event.{Event};
ghost use Rattle.k_types.specs.declared.op.Op.{Op};

use crate::Op;

/// What a legal history counts is the sum of what the operations of each process count: its stores, its operations, and its
/// allocations in a segment. With the next law this bounds them by the operations of the trace.
pub fn histories_count_by_process()
    ensures stores { (trace : Trace) (history : List Event) → IsLegalHistory trace history →
        store_count history ≡ total (λ p. stores_by p history) (numbers_below (process_count trace)) }
    ensures operations { (trace : Trace) (history : List Event) → IsLegalHistory trace history →
        operation_count history ≡ total (λ p. length (done_by p history)) (numbers_below (process_count trace)) }
    ensures allocations { (trace : Trace) (seg : ℕ) (history : List Event) → IsLegalHistory trace history →
        allocation_count trace seg history
        ≡ total (λ p. total (λ op. one_if (allocates_in trace seg p op)) (done_by p history)) (numbers_below (process_count trace)) }
{}

/// Of the first operations of a list no more is counted than of all.
pub fn first_operations_count_less()
    ensures { (f : Op → ℕ) (first all : List Op) → IsPrefixOf first all → total f first ≤ total f all }
{}

/// The operations that a legal history has done for a process stand first among the trace's exactly where they are the trace's
/// up to the number done. So what the book knows of the journal and what a cell knows of its process say the same.
pub fn first_operations_are_those_up_to_done()
    ensures { (trace : Trace) (p : ℕ) (history : List Event) → IsLegalHistory trace history →
        IsPrefixOf (done_by p history) (operations_of trace p) ↔ FollowsOwn trace p history }
{}
