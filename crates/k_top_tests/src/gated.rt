//! Worked traces that `run` does with gates: they hold a process at a place until another one has come somewhere, or see who comes when.
use crate::calling::{Given, HEADER, NO_FAULTS};
use k_gates::{FifthComes, OPERATIONS_OF_A_TURN, meanwhile_of_a_step, meanwhile_of_marking};
use k_io::{Gate, NoMemory};
use k_top::Status;
use std::alloc::Global;
use std::process::Abort;
use std::sync::Wait;
use std::test::Fail;
use std::thread::Threads;

/// A collection of the first process's heap, and an object that the second process makes meanwhile.
pub(crate) const COLLECTION: &str = "p1 new r0 Node
p1 collect
p2 new r0 Node
p2 drop r0
";

/// How its report begins, in whichever order the rest comes.
const COLLECTION_BEGINS: &str = "report 1
p1 new r0 Node = p1.1
p1 collect = ok
p2 new r0 Node = p2.1
";

/// What stands behind its events.
const COLLECTION_LEAVES: &str = "graph
kernel.1 kernel directory null null
p1.1 p1 Node null null 0
p2.1 p2 Node null null 0
roots
p1 r0 p1.1
exits
shares
faults
p1 0
p2 0
charges
kernel 32 of 200
limit root 160 of 1000
limit a 40 of 120
limit b 40 of 400
process p1 40
process p2 40
shared s 0 unmade
end
";

/// Runs the trace with the gate.
fn run<G: Gate, R: Abort + Threads + Wait + Sync>(
    rt: &R,
    alloc: Global,
    trace: &str,
    gate: &G,
) -> Result<Given, NoMemory> {
    let mut given = Given::make(alloc, "run", trace, NO_FAULTS)?;
    assert_eq!(rt; given.answer(rt, alloc, gate), Status::Good, "{trace}");
    Ok(given)
}

/// Runs the operations behind the usual header with the gate.
fn run_operations<G: Gate, R: Abort + Threads + Wait + Sync>(
    rt: &R,
    alloc: Global,
    operations: &str,
    gate: &G,
) -> Result<Given, NoMemory> {
    let trace = format!(in alloc; "{HEADER}{operations}")?;
    run(rt, alloc, &trace, gate)
}

/// Compares the report of the collection.
pub(crate) fn check_collection<R: Abort>(rt: &R, report: &str) -> Result<(), Fail> {
    let rest = report
        .strip_prefix(COLLECTION_BEGINS)
        .ok_or("another beginning")?;
    let rest = rest.strip_suffix(COLLECTION_LEAVES).ok_or("another state")?;
    assert!(rt;
        rest == "ended p1 0 0 0 0\np2 drop r0 = ok\n"
            || rest == "p2 drop r0 = ok\nended p1 0 0 0 0\n",
        "{rest}"
    );
    Ok(())
}

/// A `run` that does nothing, that does all on the caller's thread, or that keeps one lock round everything is told by this.
#[test]
fn others_allocate_while_a_heap_is_marked(rt: HostRuntime) -> Result<(), Fail> {
    let gate = meanwhile_of_marking();
    let given = run_operations(&rt, rt.alloc(), COLLECTION, &gate)?;
    assert!(rt; gate.all_met());
    check_collection(&rt, given.written())
}

/// An object of each process, of which the second one is moved while the first process is held under the book's lock.
const MOVE: &str = "p1 new r0 Node
p2 new r0 Node
p2 move r1 r0
p2 drop r0
";

/// Its report.
const MOVE_REPORT: &str = "report 1
p2 new r0 Node = p2.1
p1 new r0 Node = p1.1
p2 move r1 r0 = ok
p2 drop r0 = ok
graph
kernel.1 kernel directory null null
p1.1 p1 Node null null 0
p2.1 p2 Node null null 0
roots
p1 r0 p1.1
p2 r1 p2.1
exits
shares
faults
p1 0
p2 0
charges
kernel 32 of 200
limit root 160 of 1000
limit a 40 of 120
limit b 40 of 400
process p1 40
process p2 40
shared s 0 unmade
end
";

/// A `run` that takes the book's lock for a move is told by this.
#[test]
fn a_move_needs_no_book(rt: HostRuntime) -> Result<(), Fail> {
    let gate = meanwhile_of_a_step();
    let given = run_operations(&rt, rt.alloc(), MOVE, &gate)?;
    assert!(rt; gate.all_met());
    assert_eq!(rt; given.written(), MOVE_REPORT);
    Ok(())
}

/// The usual header with three more processes.
const FIVE_PROCESSES: &str = "kaffe 1
kernel 200 2
type Node ref ref int
limit root 1000
limit a root hard 120
limit b root soft 400
proc p1 a
proc p2 b
proc p3 b
proc p4 b
proc p5 b
shared s
";

/// Appends one operation more than a turn has.
fn push_turn(trace: &mut String, operation: &str) -> Result<(), NoMemory> {
    for _ in 0..=OPERATIONS_OF_A_TURN {
        trace.push_str(operation)?;
    }
    Ok(())
}

/// Appends one operation more than a turn has, for each process.
fn push_turns(trace: &mut String) -> Result<(), NoMemory> {
    for operation in [
        "p1 drop r0\n",
        "p2 drop r0\n",
        "p3 drop r0\n",
        "p4 drop r0\n",
        "p5 drop r0\n",
    ] {
        push_turn(trace, operation)?;
    }
    Ok(())
}

/// A trace of five processes, each of which has one operation more than a turn.
fn turns(alloc: Global) -> Result<String, NoMemory> {
    let mut trace = String::from_str(alloc, FIVE_PROCESSES)?;
    push_turns(&mut trace)?;
    Ok(trace)
}

/// Workers that do a process whole, and a thread for each process, are told by this.
#[test]
fn processes_take_turns_of_64_operations(rt: HostRuntime) -> Result<(), Fail> {
    let gate = FifthComes::new();
    let trace = turns(rt.alloc())?;
    run(&rt, rt.alloc(), &trace, &gate)?;
    assert!(rt; gate.met());
    assert_eq!(rt; gate.second_turns(), 5);
    Ok(())
}
