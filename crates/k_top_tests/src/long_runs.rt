//! Runs that are longer, and of more processes and shared heaps, than the other gated ones: what the gate is told of each process.
use crate::summaries::{check_counts, count_run, count_workload};
use k_gates::Counts;
use k_io::NoMemory;
use std::alloc::Global;
use std::process::Abort;
use std::test::Fail;

/// How many processes there are, and how many shared heaps: more than twice as many as there are workers.
const PROCESSES: u32 = 9;

/// How often a round does the four operations that stay inside the heap.
const LAPS: u32 = 123;

/// What the header has before the processes and the shared heaps. No operation is refused for want of room.
const LIMITS: &str = "kaffe 1
kernel 200 2
type Node ref ref int
limit root 10000
";

/// Appends the lines that declare the processes.
fn push_processes(trace: &mut String) -> Result<(), NoMemory> {
    for process in 0..PROCESSES {
        writeln!(trace, "proc p{process} root")?;
    }
    Ok(())
}

/// Appends the lines that declare the shared heaps.
fn push_shared(trace: &mut String) -> Result<(), NoMemory> {
    for shared in 0..PROCESSES {
        writeln!(trace, "shared s{shared}")?;
    }
    Ok(())
}

/// Appends the operation of the process.
fn push_one(trace: &mut String, process: u32, operation: &str) -> Result<(), NoMemory> {
    writeln!(trace, "p{process} {operation}")?;
    Ok(())
}

/// Appends the operations of the process.
fn push_each(trace: &mut String, process: u32, operations: &[&str]) -> Result<(), NoMemory> {
    for operation in operations {
        push_one(trace, process, operation)?;
    }
    Ok(())
}

/// Appends six operations, each of which is a step: the process makes a shared heap, freezes it and refers to its root, and attaches to
/// the other one. It may come before that one is frozen, and is refused then; the register is used for nothing else.
fn push_sharing(trace: &mut String, process: u32, other: u32) -> Result<(), NoMemory> {
    writeln!(trace, "p{process} share s{process}")?;
    writeln!(trace, "p{process} snew r0 s{process} Node")?;
    writeln!(trace, "p{process} put r0 2 7")?;
    writeln!(trace, "p{process} freeze s{process} r0")?;
    writeln!(trace, "p{process} attach r1 s{process}")?;
    writeln!(trace, "p{process} attach r2 s{other}")?;
    Ok(())
}

/// Appends operations that stay inside the process's heap, and are no steps.
fn push_laps(trace: &mut String, process: u32) -> Result<(), NoMemory> {
    for _ in 0..LAPS {
        push_each(
            trace,
            process,
            &["put r3 2 7", "get r3 2", "move r4 r3", "drop r4"],
        )?;
    }
    Ok(())
}

/// Appends a round of 498 operations: one that makes an object is a step, 492 stay inside the heap, four refer to the process's shared
/// heap or to a register that does and are a step each, and the collection has two steps, its beginning and its end.
fn push_round(trace: &mut String, process: u32, collection: &str) -> Result<(), NoMemory> {
    push_one(trace, process, "new r3 Node")?;
    push_laps(trace, process)?;
    push_each(
        trace,
        process,
        &[
            "get r1 2",
            "store r3 0 r1",
            "move r5 r1",
            "drop r5",
            collection,
        ],
    )
}

/// Appends all operations of the process.
fn push_operations(trace: &mut String, process: u32, other: u32) -> Result<(), NoMemory> {
    push_sharing(trace, process, other)?;
    for collection in ["collect", "kcollect", "collect"] {
        push_round(trace, process, collection)?;
    }
    Ok(())
}

/// Appends the operations of all processes. The other shared heap of each is that of the next process, and of the last one the first.
fn push_all_operations(trace: &mut String) -> Result<(), NoMemory> {
    for process in 0..PROCESSES {
        push_operations(trace, process, (process + 1) % PROCESSES)?;
    }
    Ok(())
}

/// Appends what comes behind the first lines.
fn push_rest(trace: &mut String) -> Result<(), NoMemory> {
    push_processes(trace)?;
    push_shared(trace)?;
    push_all_operations(trace)
}

/// The trace. No process ends, and each refers to its shared heap to the end: so none is ever an orphan, and nothing is absorbed.
fn long_trace(alloc: Global) -> Result<String, NoMemory> {
    let mut trace = String::from_str(alloc, LIMITS)?;
    push_rest(&mut trace)?;
    Ok(trace)
}

/// Compares what the gate counted of each process: six operations and three rounds of 498, and six steps and seven of each round.
fn check_long<R: Abort>(rt: &R, gate: &Counts) {
    for pid in 0..PROCESSES {
        assert_eq!(rt; gate.of(pid as usize), Some((1_500, 27)), "process {pid}");
    }
}

/// A run that leaves an operation of this trace to its end is told by this: one that does long traces as `replay` does, lets a process go
/// after some hundred operations, does no `attach`, or keeps another shared heap's lock in the place of one.
#[test]
fn threads_do_all_of_a_long_run(rt: HostRuntime) -> Result<(), Fail> {
    let gate = Counts::make(rt.alloc(), PROCESSES)?;
    let trace = long_trace(rt.alloc())?;
    count_run(&rt, rt.alloc(), &trace, &gate)?;
    check_long(&rt, &gate);
    Ok(())
}

/// The summary for 101 objects of each process: 21 of them are stored into the directory, and ten times four go.
const ONE_HUNDRED_AND_ONE: &str = "big 101
operations 3652
events 3732
faults 0
freed 320
kernel 9840
live 9760
root 32320
";

/// A workload of more than a hundred objects that is done as `replay` does it is told by this.
#[test]
fn threads_do_all_of_a_longer_workload(rt: HostRuntime) -> Result<(), Fail> {
    let gate = Counts::make(rt.alloc(), 8)?;
    count_workload(&rt, rt.alloc(), "big 101", ONE_HUNDRED_AND_ONE, &gate)?;
    // a step for `dir`, 101 `new`, 21 stores into the directory, both ends of ten collections, and an `exit`
    check_counts(&rt, &gate, (457, 144), (456, 143));
    Ok(())
}

/// The summary for the most objects: 1,000 of them are stored into the directory, and 500 times four go.
const THE_MOST: &str = "big 5000
operations 180012
events 184012
faults 0
freed 16000
kernel 480080
live 480000
root 1600000
";

/// A workload of any number of objects from which on it is done as `replay` does it is told by this.
#[test]
fn threads_do_all_of_the_greatest_workload(rt: HostRuntime) -> Result<(), Fail> {
    let gate = Counts::make_quick(rt.alloc(), 8)?;
    count_workload(&rt, rt.alloc(), "big 5000", THE_MOST, &gate)?;
    // a step for `dir`, 5,000 `new`, 1,000 stores into the directory, both ends of 500 collections, and an `exit`
    check_counts(&rt, &gate, (22_502, 7_002), (22_501, 7_001));
    Ok(())
}

/// The most processes of a trace, and the number of the last one.
const MOST: u32 = 64;

const LAST: u32 = 63;

/// What the header has before the processes where the first one ends all others but the last.
const ENDING: &str = "kaffe 2
kernel 1000 0
type Node ref ref int
limit root 1099511627775
limit a root soft 1000
proc p0 root
";

/// What the first process does before that: it lets three shared heaps go, which are orphans then, and the kernel absorbs them; and it
/// changes a maximum to one above 2^32.
const BEFORE_ENDING: &str = "shared s0
shared s1
shared s2
p0 share s0
p0 snew r0 s0 Node
p0 freeze s0 r0
p0 drop r0
p0 share s1
p0 snew r0 s1 Node
p0 freeze s1 r0
p0 drop r0
p0 share s2
p0 snew r0 s2 Node
p0 freeze s2 r0
p0 drop r0
p0 collect
p0 kcollect
p0 resize a 8589934592
";

/// Appends the lines that declare the other processes.
fn push_others(trace: &mut String) -> Result<(), NoMemory> {
    for process in 1..MOST {
        writeln!(trace, "proc p{process} a")?;
    }
    Ok(())
}

/// Appends the operations that end them, but for the last one.
fn push_kills(trace: &mut String) -> Result<(), NoMemory> {
    for process in 1..LAST {
        writeln!(trace, "p0 kill p{process}")?;
    }
    Ok(())
}

/// The trace in which the first process ends all others but the last, which does an operation inside its heap.
fn ending_trace(alloc: Global) -> Result<String, NoMemory> {
    let mut trace = String::from_str(alloc, ENDING)?;
    push_others(&mut trace)?;
    trace.push_str(BEFORE_ENDING)?;
    push_kills(&mut trace)?;
    push_one(&mut trace, LAST, "drop r0")?;
    Ok(trace)
}

/// A run that leaves the work or the end of a process with a high number, the third orphan, or a great maximum to its end is told by this.
#[test]
fn threads_end_and_serve_many_processes(rt: HostRuntime) -> Result<(), Fail> {
    let gate = Counts::make(rt.alloc(), MOST)?;
    let trace = ending_trace(rt.alloc())?;
    count_run(&rt, rt.alloc(), &trace, &gate)?;
    // each operation is a step, both collections have one more, and so has each of three absorptions
    assert_eq!(rt; gate.of(0), Some((77, 82)));
    assert_eq!(rt; gate.of(LAST as usize), Some((1, 0)));
    Ok(())
}
