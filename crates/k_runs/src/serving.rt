//! A server's trace: a table in a shared heap that four workers share and read, run on threads and replayed.
use crate::reporting::{heaps_and_charges, parts, replay_report, run_report, verdict_on};
use k_check::Verdict;
use k_io::{MemSink, NoGate};
use std::alloc::Global;
use std::process::Abort;
use std::sync::Wait;
use std::test::Fail;
use std::thread::Threads;

const HEADER: &str = "kaffe 1
kernel 4096 4
type Node ref ref int
type Row int int
limit root 1000000
limit m root soft 100000
limit w root hard 400000
proc m0 m
proc w1 w
proc w2 w
proc w3 w
proc w4 w
shared table
";

/// The last events, in whatever order the others came.
const LAST_EVENTS: &str = "absorbed table\nclosing\nended kernel 100 3200 0 0\n";

/// What stands from the graph to the shares at the end.
const HEAPS: &str = "kernel.1 kernel directory null null null null\nroots\nexits\nshares\n";

/// The charges at the end.
const CHARGES: &str = "kernel 48 of 4096
limit root 400000 of 1000000
limit m 0 of 100000
limit w 0 of 400000
process m0 0
process w1 0
process w2 0
process w3 0
process w4 0
shared table 0 absorbed
end
";

/// Appends the operation for each worker in turn.
fn push_for_each(trace: &mut String, operation: &str) -> Result<(), Fail> {
    for worker in ["w1 ", "w2 ", "w3 ", "w4 "] {
        trace.push_str(worker)?;
        trace.push_str(operation)?;
        trace.push_str("\n")?;
    }
    Ok(())
}

/// Appends the operations for each worker in turn, one operation after the other.
fn push_all(trace: &mut String, operations: &[&str]) -> Result<(), Fail> {
    for operation in operations {
        push_for_each(trace, operation)?;
    }
    Ok(())
}

/// Makes the table of a hundred rows, and freezes it.
fn push_table(trace: &mut String, alloc: Global) -> Result<(), Fail> {
    trace.push_str("m0 share table\n")?;
    for row in 0..100 {
        trace.push_str(&format!(in alloc; "m0 snew r0 table Row\nm0 put r0 0 {row}\n")?)?;
    }
    trace.push_str("m0 freeze table r0\n")?;
    Ok(())
}

/// Each worker makes the node of that number, which refers to the table and to the node before it.
fn push_node(trace: &mut String, alloc: Global, node: u32) -> Result<(), Fail> {
    let numbered = format!(in alloc; "put r1 2 {node}")?;
    push_all(
        trace,
        &[
            "new r1 Node",
            "store r1 0 r0",
            numbered.as_str(),
            "get r0 0",
            "store r1 1 r2",
            "move r2 r1",
        ],
    )
}

/// Each worker makes sixty nodes, and after each twenty of them lets go of all and collects.
fn push_nodes(trace: &mut String, alloc: Global) -> Result<(), Fail> {
    for node in 1..=60 {
        push_node(trace, alloc, node)?;
        if node % 20 == 0 {
            push_all(trace, &["drop r2", "drop r1", "collect"])?;
        }
    }
    Ok(())
}

/// Appends all operations. The table is made and frozen. Each worker attaches to it, makes nodes that refer to it, and ends; and at last the
/// table's maker ends.
fn push_operations(trace: &mut String, alloc: Global) -> Result<(), Fail> {
    push_table(trace, alloc)?;
    push_for_each(trace, "attach r0 table")?;
    push_nodes(trace, alloc)?;
    push_for_each(trace, "exit")?;
    trace.push_str("m0 exit\n")?;
    Ok(())
}

/// The server's trace.
pub(crate) fn server_trace(alloc: Global) -> Result<String, Fail> {
    let mut trace = String::from_str(alloc, HEADER)?;
    push_operations(&mut trace, alloc)?;
    Ok(trace)
}

/// Compares the last events of the report, and what the server left.
fn check_end<R: Abort>(rt: &R, report: &MemSink) -> Result<(), Fail> {
    let (events, state) = parts(report)?;
    assert!(rt; events.ends_with(LAST_EVENTS));
    // a worker that attaches before the table is frozen is refused, so the faults can differ
    assert_eq!(rt; heaps_and_charges(state)?, (HEAPS, CHARGES));
    Ok(())
}

/// The same of a replay of the trace.
fn check_replay<R: Abort>(rt: &R, alloc: Global, trace: &str) -> Result<(), Fail> {
    let report = replay_report(alloc, trace)?;
    check_end(rt, &report)
}

/// The same of a run of it on threads.
fn check_run<R: Threads + Wait + Sync + Abort>(
    rt: &R,
    alloc: Global,
    trace: &str,
) -> Result<(), Fail> {
    let report = run_report(rt, alloc, trace, &NoGate)?;
    check_end(rt, &report)
}

/// The same of a replay and of a few runs.
fn check_all<R: Threads + Wait + Sync + Abort>(
    rt: &R,
    alloc: Global,
    trace: &str,
) -> Result<(), Fail> {
    check_replay(rt, alloc, trace)?;
    for _ in 0..4 {
        check_run(rt, alloc, trace)?;
    }
    Ok(())
}

#[test]
fn a_server_leaves_the_same_by_threads(rt: HostRuntime) -> Result<(), Fail> {
    let trace = server_trace(rt.alloc())?;
    check_all(&rt, rt.alloc(), &trace)
}

/// Runs the trace on threads, and has the report checked.
fn check_good<R: Threads + Wait + Sync + Abort>(
    rt: &R,
    alloc: Global,
    trace: &str,
) -> Result<(), Fail> {
    let report = run_report(rt, alloc, trace, &NoGate)?;
    let verdict = verdict_on(alloc, trace, &report)?;
    assert_eq!(rt; verdict, Verdict::Good);
    Ok(())
}

#[test]
fn the_report_of_a_server_run_by_threads_is_good(rt: HostRuntime) -> Result<(), Fail> {
    let trace = server_trace(rt.alloc())?;
    check_good(&rt, rt.alloc(), &trace)
}
