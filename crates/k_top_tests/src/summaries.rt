//! What the gate is told of runs of the workload, and of a `run`.
use crate::calling::{Given, HEADER, NO_FAULTS, check_given};
use k_gates::Counts;
use k_io::NoMemory;
use k_top::Status;
use std::alloc::Global;
use std::process::Abort;
use std::sync::Wait;
use std::test::Fail;
use std::thread::Threads;

/// The summary for ten objects of each process.
pub const TEN: &str = "big 10
operations 372
events 380
faults 0
freed 32
kernel 1040
live 960
root 3200
";

/// Has the gate count what the workload of that line tells it, and compares its summary.
pub fn count_workload<R: Abort + Threads + Wait + Sync>(
    rt: &R,
    alloc: Global,
    line: &str,
    summary: &str,
    gate: &Counts,
) -> Result<(), NoMemory> {
    let mut given = Given::make(alloc, line, "", NO_FAULTS)?;
    check_given(rt, alloc, &mut given, gate, line, Status::Good, summary);
    Ok(())
}

/// Compares what the gate counted of each process, operations and steps: of every other one, which ends with an `exit`, and of the rest.
pub fn check_counts<R: Abort>(rt: &R, gate: &Counts, ended: (u32, u32), living: (u32, u32)) {
    for pid in 0..8usize {
        let want = if pid % 2 == 0 { ended } else { living };
        assert_eq!(rt; gate.of(pid), Some(want), "process {pid}");
    }
}

/// A summary that is computed from the number alone is told by this, and so is a run that leaves some of its work to its end, where no
/// gate is told.
#[test]
fn threads_do_all_the_work(rt: HostRuntime) -> Result<(), Fail> {
    let gate = Counts::make(rt.alloc(), 8)?;
    count_workload(&rt, rt.alloc(), "big 10", TEN, &gate)?;
    // a step for `dir`, ten `new`, two stores into the directory, both ends of a collection, and an `exit`
    check_counts(&rt, &gate, (47, 16), (46, 15));
    Ok(())
}

/// Has the gate count what a run of the trace tells it.
pub fn count_run<R: Abort + Threads + Wait + Sync>(
    rt: &R,
    alloc: Global,
    trace: &str,
    gate: &Counts,
) -> Result<(), NoMemory> {
    let mut given = Given::make(alloc, "run", trace, NO_FAULTS)?;
    assert_eq!(rt; given.answer(rt, alloc, gate), Status::Good);
    Ok(())
}

/// The same of the operations behind the usual header.
fn count_operations<R: Abort + Threads + Wait + Sync>(
    rt: &R,
    alloc: Global,
    operations: &str,
    gate: &Counts,
) -> Result<(), NoMemory> {
    let trace = format!(in alloc; "{HEADER}{operations}")?;
    count_run(rt, alloc, &trace, gate)
}

/// A `run` that does the operations on the caller's thread, as `replay` does, is told by this: the gate hears of nothing then.
#[test]
fn run_tells_the_gate(rt: HostRuntime) -> Result<(), Fail> {
    let gate = Counts::make(rt.alloc(), 2)?;
    let operations = "p1 new r0 Node\np1 move r1 r0\np2 new r0 Node\np2 exit\n";
    count_operations(&rt, rt.alloc(), operations, &gate)?;
    // a `move` inside the heap has no step
    assert_eq!(rt; gate.of(0), Some((2, 1)));
    assert_eq!(rt; gate.of(1), Some((2, 2)));
    Ok(())
}
