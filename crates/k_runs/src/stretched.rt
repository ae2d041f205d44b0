//! What the other tests say of runs, said of runs with stretches: the gates here ask for them, and are told of no operation that is in one.
use crate::killing::{check_ended_unbegun, check_steps_of_ending};
use crate::rows::{check_steps_of_absorbing, check_steps_of_two, check_two_markings, run_behind};
use k_gates::Counts;
use k_io::OPERATIONS_A_STRETCH;
use std::alloc::Global;
use std::process::Abort;
use std::sync::Wait;
use std::test::Fail;
use std::thread::Threads;

/// A stretch that passes over an operation, or whose steps are not told, and a process that is let go behind its first stretch, are told by
/// this.
#[test]
fn stretches_leave_nothing_to_the_end(rt: HostRuntime) -> Result<(), Fail> {
    let gate = Counts::make_stretched(rt.alloc(), 2, OPERATIONS_A_STRETCH)?;
    check_steps_of_two(&rt, rt.alloc(), &gate)
}

/// A collection in a stretch whose end is not told, and an absorption behind one that is left to the end, are told by this.
#[test]
fn orphans_are_absorbed_in_stretches(rt: HostRuntime) -> Result<(), Fail> {
    let gate = Counts::make_stretched(rt.alloc(), 1, OPERATIONS_A_STRETCH)?;
    check_steps_of_absorbing(&rt, rt.alloc(), &gate)
}

/// A stretch that passes over a `kill` or `resize`, or does not tell its step, is told by this.
#[test]
fn kills_and_resizes_among_stretches_are_done(rt: HostRuntime) -> Result<(), Fail> {
    let gate = Counts::make_stretched(rt.alloc(), 4, OPERATIONS_A_STRETCH)?;
    check_steps_of_ending(&rt, rt.alloc(), &gate)
}

/// A stretch that keeps the book from the beginning of its collection to the end is told by this.
#[test]
fn two_heaps_are_marked_at_once_in_stretches(rt: HostRuntime) -> Result<(), Fail> {
    check_two_markings(&rt, rt.alloc(), OPERATIONS_A_STRETCH)
}

/// A stretch of a process that another one has ended meanwhile is told by this.
#[test]
fn who_is_ended_has_no_stretch(rt: HostRuntime) -> Result<(), Fail> {
    check_ended_unbegun(&rt, rt.alloc(), OPERATIONS_A_STRETCH)
}

/// How often the process does the same operation.
const SO_OFTEN: u32 = 12;

/// Appends the operation so often.
fn push_operations(operations: &mut String, operation: &str) -> Result<(), Fail> {
    for _ in 0..SO_OFTEN {
        operations.push_str(operation)?;
    }
    Ok(())
}

/// Has the gate count a run of one process that does the same operation so often, and compares how many of them, and how many steps, it was
/// told of.
fn check_counted<R: Threads + Wait + Sync + Abort>(
    rt: &R,
    alloc: Global,
    gate: &Counts,
    operation: &str,
    counted: (u32, u32),
) -> Result<(), Fail> {
    let mut operations = String::new(alloc);
    push_operations(&mut operations, operation)?;
    run_behind(rt, alloc, "", &operations, gate)?;
    assert_eq!(rt; gate.of(0), Some(counted), "{operation}");
    Ok(())
}

/// A stretch inside the heap that goes on past its number, and a run without stretches, are told by this.
#[test]
fn a_stretch_inside_the_heap_has_its_number(rt: HostRuntime) -> Result<(), Fail> {
    // one is told, and one follows untold
    let gate = Counts::make_stretched(rt.alloc(), 1, 1)?;
    check_counted(&rt, rt.alloc(), &gate, "p1 drop r0\n", (6, 0))
}

/// A stretch of steps that goes on past its number, and a run without stretches, are told by this. Each operation is a step.
#[test]
fn a_stretch_of_steps_has_its_number(rt: HostRuntime) -> Result<(), Fail> {
    // one is told, and two follow untold
    let gate = Counts::make_stretched(rt.alloc(), 1, 2)?;
    check_counted(&rt, rt.alloc(), &gate, "p1 dir r0\n", (4, SO_OFTEN))
}
