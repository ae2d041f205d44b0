//! Short traces, run with gates.
use crate::reporting::{parts, replay_report, run_report, trace_text};
use k_gates::{Counts, Stop, Stops, meanwhile_of_a_step, meanwhile_of_marking};
use k_io::{Gate, GatePlace, MemSink, NO_STRETCH, NoGate};
use std::alloc::Global;
use std::process::Abort;
use std::sync::Wait;
use std::test::Fail;
use std::thread::Threads;

/// The first trace, of one process alone.
const FIRST_TRACE: &str = "kaffe 1
kernel 32 2
type Node ref ref int
limit a 80
proc p1 a
p1 new r0 Node
p1 new r1 Node
p1 store r0 0 r1
p1 load r2 r0 0
p1 new r3 Node
p1 load r4 r5 0
";

/// Its events.
const FIRST_EVENTS: &str = "p1 new r0 Node = p1.1
p1 new r1 Node = p1.2
p1 store r0 0 r1 = ok
p1 load r2 r0 0 = p1.2
p1 new r3 Node = fault LimitFull a
p1 load r4 r5 0 = fault Null
";

/// The state that it leaves.
const FIRST_STATE: &str = "kernel.1 kernel directory null null
p1.1 p1 Node p1.2 null 0
p1.2 p1 Node null null 0
roots
p1 r0 p1.1
p1 r1 p1.2
p1 r2 p1.2
exits
shares
faults
p1 2
charges
kernel 32 of 32
limit a 80 of 80
process p1 80
end
";

/// Compares the parts of the report.
fn check_parts<R: Abort>(
    rt: &R,
    report: &MemSink,
    want_events: &str,
    want_state: &str,
) -> Result<(), Fail> {
    let (events, state) = parts(report)?;
    assert_eq!(rt; events, want_events);
    assert_eq!(rt; state, want_state);
    Ok(())
}

#[test]
fn one_process_runs_in_the_order_of_its_lines(rt: HostRuntime) -> Result<(), Fail> {
    let report = run_report(&rt, rt.alloc(), FIRST_TRACE, &NoGate)?;
    check_parts(&rt, &report, FIRST_EVENTS, FIRST_STATE)
}

/// Runs the operations behind the header, in which the lines `more` declare more processes, with the gate.
pub(crate) fn run_behind<G: Gate, R: Threads + Wait + Sync>(
    rt: &R,
    alloc: Global,
    more: &str,
    operations: &str,
    gate: &G,
) -> Result<(), Fail> {
    let trace = trace_text(alloc, more, operations)?;
    run_report(rt, alloc, &trace, gate)?;
    Ok(())
}

/// The same with stops, of which each has to be met.
fn check_stops<const N: usize, R: Threads + Wait + Sync + Abort>(
    rt: &R,
    alloc: Global,
    more: &str,
    operations: &str,
    gate: &Stops<N>,
) -> Result<(), Fail> {
    run_behind(rt, alloc, more, operations, gate)?;
    assert!(rt; gate.all_met(), "{operations}");
    Ok(())
}

/// Runs two collections, each of which is held where its heap is to be marked until the other one has come there.
pub(crate) fn check_two_markings<R: Threads + Wait + Sync + Abort>(
    rt: &R,
    alloc: Global,
    stretch: u32,
) -> Result<(), Fail> {
    let stops = [
        Stop::at(0, GatePlace::Marking, 1),
        Stop::at(1, GatePlace::Marking, 0),
    ];
    let gate = Stops::stretched(stops, stretch);
    let operations = "p1 new r0 Node\np2 new r0 Node\np1 collect\np2 collect\n";
    check_stops(rt, alloc, "", operations, &gate)
}

#[test]
fn two_heaps_are_marked_at_once(rt: HostRuntime) -> Result<(), Fail> {
    check_two_markings(&rt, rt.alloc(), NO_STRETCH)
}

/// Runs a collection, and the operation of another process while its heap is marked.
fn check_meanwhile_of_marking<R: Threads + Wait + Sync + Abort>(
    rt: &R,
    alloc: Global,
    op: &str,
) -> Result<(), Fail> {
    let operations = format!(in alloc; "p1 new r0 Node\np1 collect\np2 {op}\np2 drop r1\n")?;
    check_stops(rt, alloc, "", &operations, &meanwhile_of_marking())
}

#[test]
fn others_do_any_operation_while_a_heap_is_marked(rt: HostRuntime) -> Result<(), Fail> {
    for op in [
        "drop r0",
        "knew r0 Node",
        "dir r0",
        "share s",
        "collect",
        "kcollect",
    ] {
        check_meanwhile_of_marking(&rt, rt.alloc(), op)?;
    }
    Ok(())
}

/// Runs the operation of the second process while the first one is held under the book's lock.
fn check_meanwhile_of_a_step<R: Threads + Wait + Sync + Abort>(
    rt: &R,
    alloc: Global,
    op: &str,
) -> Result<(), Fail> {
    let operations = format!(in alloc; "p1 new r0 Node\np2 new r0 Node\np2 {op}\np2 drop r0\n")?;
    check_stops(rt, alloc, "", &operations, &meanwhile_of_a_step())
}

#[test]
fn no_work_inside_a_heap_needs_the_book(rt: HostRuntime) -> Result<(), Fail> {
    for op in [
        "drop r0",
        "put r0 2 5",
        "get r0 2",
        "store r0 0 r0",
        "load r1 r0 0",
    ] {
        check_meanwhile_of_a_step(&rt, rt.alloc(), op)?;
    }
    Ok(())
}

/// Has the gate count a run of two processes with five operations each, and compares their steps.
pub(crate) fn check_steps_of_two<R: Threads + Wait + Sync + Abort>(
    rt: &R,
    alloc: Global,
    gate: &Counts,
) -> Result<(), Fail> {
    let operations =
        "p1 new r0 Node\np1 store r0 0 r0\np1 collect\np1 drop r0\np1 share s\np2 new r0 Node
p2 dir r1\np2 store r1 0 r0\np2 kcollect\np2 exit\n";
    run_behind(rt, alloc, "", operations, gate)?;
    // a collection has two steps, its beginning and its end, and what is done inside a heap has none
    assert_eq!(rt; gate.steps(0), Some(4));
    assert_eq!(rt; gate.steps(1), Some(6));
    Ok(())
}

#[test]
fn threads_leave_nothing_to_the_end(rt: HostRuntime) -> Result<(), Fail> {
    let gate = Counts::make(rt.alloc(), 2)?;
    check_steps_of_two(&rt, rt.alloc(), &gate)?;
    assert_eq!(rt; gate.told(0), Some(5));
    assert_eq!(rt; gate.told(1), Some(5));
    Ok(())
}

/// Holds the first three processes before they begin until the fourth one does.
fn four_at_once() -> Stops<4> {
    Stops::of([
        Stop::before(0, 0, Some(3)),
        Stop::before(1, 0, Some(3)),
        Stop::before(2, 0, Some(3)),
        Stop::before(3, 0, None),
    ])
}

#[test]
fn four_processes_begin_at_once(rt: HostRuntime) -> Result<(), Fail> {
    let gate = four_at_once();
    let more = "proc p3 b\nproc p4 b\n";
    let operations = "p1 drop r0\np2 drop r0\np3 drop r0\np4 drop r0\n";
    check_stops(&rt, rt.alloc(), more, operations, &gate)
}

/// The most processes of a trace.
const MOST_PROCESSES: u32 = 64;

/// Appends the lines that declare all processes but those of the header.
fn push_processes(more: &mut String) -> Result<(), Fail> {
    for process in 3..=MOST_PROCESSES {
        writeln!(more, "proc p{process} b")?;
    }
    Ok(())
}

/// Appends an operation of each process.
fn push_operations(operations: &mut String) -> Result<(), Fail> {
    for process in 1..=MOST_PROCESSES {
        writeln!(operations, "p{process} drop r0")?;
    }
    Ok(())
}

/// A run that has fewer workers where there are many processes is told by this.
#[test]
fn four_of_the_most_processes_begin_at_once(rt: HostRuntime) -> Result<(), Fail> {
    let mut more = String::new(rt.alloc());
    push_processes(&mut more)?;
    let mut operations = String::new(rt.alloc());
    push_operations(&mut operations)?;
    check_stops(&rt, rt.alloc(), &more, &operations, &four_at_once())
}

/// Has the gate count a run of one process with six operations, by which the kernel absorbs a shared heap, and compares its steps.
pub(crate) fn check_steps_of_absorbing<R: Threads + Wait + Sync + Abort>(
    rt: &R,
    alloc: Global,
    gate: &Counts,
) -> Result<(), Fail> {
    let operations =
        "p1 share s\np1 snew r0 s Node\np1 freeze s r0\np1 drop r0\np1 collect\np1 kcollect\n";
    run_behind(rt, alloc, "", operations, gate)?;
    // the process lets go of the shared heap, and so its collection drops the share; then the kernel absorbs that heap, which is a step,
    // and its collection has two more
    assert_eq!(rt; gate.steps(0), Some(9));
    Ok(())
}

#[test]
fn threads_absorb_orphans(rt: HostRuntime) -> Result<(), Fail> {
    let gate = Counts::make(rt.alloc(), 1)?;
    check_steps_of_absorbing(&rt, rt.alloc(), &gate)?;
    assert_eq!(rt; gate.told(0), Some(6));
    Ok(())
}

/// Compares the state that the run left with the one that another left.
fn check_left<R: Abort>(rt: &R, trace: &str, run: &MemSink, other: &MemSink) -> Result<(), Fail> {
    let (_, left) = parts(run)?;
    let (_, state) = parts(other)?;
    assert_eq!(rt; left, state, "{trace}");
    Ok(())
}

/// Runs the trace, and compares the state that it leaves with the one that another run left.
fn check_run<R: Threads + Wait + Sync + Abort>(
    rt: &R,
    alloc: Global,
    trace: &str,
    other: &MemSink,
) -> Result<(), Fail> {
    let run = run_report(rt, alloc, trace, &NoGate)?;
    check_left(rt, trace, &run, other)
}

/// Runs the trace a few times.
fn check_runs<R: Threads + Wait + Sync + Abort>(
    rt: &R,
    alloc: Global,
    trace: &str,
    other: &MemSink,
) -> Result<(), Fail> {
    for _ in 0..4 {
        check_run(rt, alloc, trace, other)?;
    }
    Ok(())
}

/// Replays the trace, and compares what runs of it leave.
fn check_as_replayed<R: Threads + Wait + Sync + Abort>(
    rt: &R,
    alloc: Global,
    trace: &str,
) -> Result<(), Fail> {
    let replayed = replay_report(alloc, trace)?;
    check_runs(rt, alloc, trace, &replayed)
}

/// The same of the operations behind the header.
fn check_operations<R: Threads + Wait + Sync + Abort>(
    rt: &R,
    alloc: Global,
    operations: &str,
) -> Result<(), Fail> {
    let trace = trace_text(alloc, "", operations)?;
    check_as_replayed(rt, alloc, &trace)
}

#[test]
fn a_run_leaves_what_its_replay_leaves(rt: HostRuntime) -> Result<(), Fail> {
    // the processes of each leave the same in whatever order their operations are done
    for operations in [
        "",
        "p1 new r0 Node\np1 collect\np2 new r0 Node\np2 drop r0\n",
        "p1 new r0 Node\np1 new r1 Node\np1 new r2 Node\np1 new r3 Node\np2 load r0 r9 7\np2 new r0 Node\np2 put r0 0 5\n",
        "p1 share s\np1 snew r0 s Node\np1 freeze s r0\np1 drop r0\np1 collect\np1 kcollect\np2 new r0 Node\np2 collect\n",
        "p1 new r0 Node\np1 dir r1\np1 store r1 0 r0\np1 drop r0\np1 collect\np2 new r0 Node\np2 dir r1\np2 store r1 1 r0\np2 exit\n",
    ] {
        check_operations(&rt, rt.alloc(), operations)?;
    }
    Ok(())
}
