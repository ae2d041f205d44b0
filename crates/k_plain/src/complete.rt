//! Whether a history is complete.
ghost use Rattle.std.specs.Prelude.{ℕ, ◌<◌, slice_index_or, ◌≡◌, ◌≤◌, ◌↔◌, ◌∷◌, ◌++◌, [], List, IfNone, IfSome, IsFalse, IsTrue, Some, length, map, option_copied, slice_get, take};
ghost use Rattle.k_plain.specs.Histories.{one_operation};
ghost use Rattle.k_laws.specs.Setups.{setup_of};
ghost use Rattle.k_types.specs.Complete.{EndsWithClosing, IsComplete, IsPrefixOf, all_ended};
ghost use Rattle.k_types.specs.Names.{among};
ghost use Rattle.k_types.specs.Sound.{IsSound};
ghost use Rattle.k_types.specs.Steps.{done_by, no_orphan, state_after};
ghost use Rattle.k_types.specs.Trace.{Trace, operations_of, process_count};
ghost use Rattle.k_types.specs.declared.op.Op.{Op};

use crate::state::PlainState;
use k_reply::{all_ended, no_orphan};
use k_scan::PlainLists;
use k_types::{Event, Heap, Op, Pid};

// The operation of the event, where it is one of the process.
fn operation_of(event: &Event, pid: Pid) -> Option<&Op>
    ensures { done_by pid.0 (event.now ∷ []) ≡ one_operation (option_copied result) }
{
    match event {
        Event::Done { pid: other, op, .. } if other.0 == pid.0 => Some(op),
        _ => None,
    }
}

// Whether the operation of that number is this one.
fn is_at(ops: &[Op], at: usize, op: &Op) -> bool
    ensures { IsTrue result ↔ (slice_get ops.now at ≡ Some op.now) }
{
    match ops.get(at) {
        Some(next) => *next == *op,
        None => false,
    }
}

// How many of the operations are done after the event, where so many were done before; none where it did another.
fn done_after(event: &Event, pid: Pid, ops: &[Op], done: usize) -> Option<usize>
    requires { done ≤ length ops.now }
    ensures some { IfSome result (λ n. (n ≤ length ops.now) × (take done ops.now ++ done_by pid.0 (event.now ∷ []) ≡ take n ops.now)) }
    ensures none { IfNone result ((rest : List Op) → IsPrefixOf (take done ops.now ++ (done_by pid.0 (event.now ∷ []) ++ rest)) ops.now → ⊥) }
{
    match operation_of(event, pid) {
        None => Some(done),
        Some(op) => {
            if is_at(ops, done, op) {
                Some(done + 1)
            } else {
                None
            }
        }
    }
}

// How many of the operations, in their order, the events have done of the process; none where they have done others.
fn count_done(events: &[Event], pid: Pid, ops: &[Op]) -> Option<usize>
    ensures some { IfSome result (λ n. (n ≤ length ops.now) × (done_by pid.0 events.now ≡ take n ops.now)) }
    ensures none { IfNone result (IsPrefixOf (done_by pid.0 events.now) ops.now → ⊥) }
{
    let mut done = 0;
    for event in events {
        match done_after(event, pid, ops, done) {
            Some(next) => done = next,
            None => return None,
        }
    }
    Some(done)
}

// Whether the events have done the process's operations in their order, and all of them while it lives.
fn has_done(lists: &PlainLists, events: &[Event], pid: Pid, ops: &[Op]) -> bool
    ensures { IsTrue result ↔ (IsPrefixOf (done_by pid.0 events.now) ops.now
        × (IsFalse (among pid.0 lists.now.state.ended) → done_by pid.0 events.now ≡ ops.now)) }
{
    match count_done(events, pid, ops) {
        Some(done) => !lists.lives(pid) || done == ops.len(),
        None => false,
    }
}

// The operations of the process.
fn operations(ops: &[Vec<Op>], pid: Pid) -> &[Op]
    ensures { result.now ≡ slice_index_or (map (λ list. list.items) ops.now) pid.0 [] }
{
    match ops.get(pid.0 as usize) {
        Some(list) => list,
        None => &[],
    }
}

// Whether that holds of each process.
fn have_done(lists: &PlainLists, ops: &[Vec<Op>], events: &[Event]) -> bool
    ensures { IsTrue result ↔ ((p : ℕ) → p < process_count lists.now.setup → IsPrefixOf (done_by p events.now) (slice_index_or (map (λ list. list.items) ops.now) p [])
        × (IsFalse (among p lists.now.state.ended) → done_by p events.now ≡ slice_index_or (map (λ list. list.items) ops.now) p [])) }
{
    let setup = lists.setup();
    for p in 0..setup.procs.len() {
        let pid = Pid(p as u32);
        if !has_done(lists, events, pid, operations(ops, pid)) {
            return false;
        }
    }
    true
}

/// Whether no collection is open. It looks at each heap.
pub fn is_quiet(lists: &PlainLists) -> bool
    requires { IsSound lists.now.setup lists.now.state }
    ensures { IsTrue result ↔ (lists.now.state.scans ≡ []) }
{
    let setup = lists.setup();
    for p in 0..setup.procs.len() {
        if lists.is_scanned(Heap::User(Pid(p as u32))) {
            return false;
        }
    }
    !lists.is_scanned(Heap::Kernel)
}

// Whether the last two events are the last collection.
fn ends_with_closing(events: &[Event]) -> bool
    ensures { IsTrue result ↔ EndsWithClosing events.now }
{
    if events.len() < 2 {
        return false;
    }
    let last = events.len() - 1;
    let ended = matches!(
        events[last],
        Event::Ended {
            heap: Heap::Kernel,
            ..
        }
    );
    ended && matches!(events[last - 1], Event::Closing)
}

// Whether, if every process has ended, no shared heap is an orphan and the last two events are the last collection.
fn is_over(lists: &PlainLists, events: &[Event]) -> bool
    ensures { IsTrue result ↔ (IsTrue (all_ended lists.now.setup lists.now.state) →
        IsTrue (no_orphan lists.now.setup lists.now.state) × EndsWithClosing events.now) }
{
    if !all_ended(lists) {
        return true;
    }
    no_orphan(lists) && ends_with_closing(events)
}

/// Whether the events, which led to the state, are a complete history of the operations: each process has done its operations
/// in their order, all of them if it lives, no collection is open, and where every process has ended no shared heap is an orphan
/// and the last two events are the last collection.
///
/// Walks over the events for each process.
pub fn is_complete(state: &PlainState, ops: &[Vec<Op>], events: &[Event]) -> bool
    ensures { (trace : Trace) → setup_of trace ≡ state.now.setup → trace.operations ≡ map (λ list. list.items) ops.now →
        state_after trace events.now ≡ state.now.state → (IsTrue result ↔ IsComplete trace events.now) }
{
    let lists = state.lists();
    if !have_done(lists, ops, events) {
        return false;
    }
    if !is_quiet(lists) {
        return false;
    }
    is_over(lists, events)
}
