//! Processes that end others while those work, and limits that get other maxima meanwhile; with gates, so that what comes when is known.
use crate::reporting::{parts, run_report, verdict_on};
use crate::unrun::check_unrun;
use k_check::Verdict;
use k_gates::{Counts, Stop, Stops};
use k_io::{GatePlace, MemSink, NO_STRETCH};
use std::alloc::Global;
use std::process::Abort;
use std::sync::Wait;
use std::test::Fail;
use std::thread::Threads;

/// The limit of p1 is below that of p2, and both are below that of p0. The processes' numbers are those in their names.
const HEADER: &str = "kaffe 2
kernel 200 2
type Node ref ref int
limit root 1000
limit a root hard 120
limit b root soft 400
limit c a soft 120
proc p0 root
proc p1 c
proc p2 a
proc p3 b
shared s
";

/// The trace with these operations.
fn trace_behind(alloc: Global, operations: &str) -> Result<String, Fail> {
    Ok(format!(in alloc; "{HEADER}{operations}")?)
}

/// Compares the events of the report, and has it checked.
fn check_told<R: Abort>(
    rt: &R,
    alloc: Global,
    trace: &str,
    report: &MemSink,
    events: &str,
) -> Result<(), Fail> {
    let (told, _) = parts(report)?;
    assert_eq!(rt; told, events, "{trace}");
    assert_eq!(rt; verdict_on(alloc, trace, report)?, Verdict::Good, "{trace}");
    Ok(())
}

/// Runs the operations with stops, of which each has to be met, and compares the events.
fn check_events<const N: usize, R: Threads + Wait + Sync + Abort>(
    rt: &R,
    alloc: Global,
    operations: &str,
    gate: &Stops<N>,
    events: &str,
) -> Result<(), Fail> {
    let trace = trace_behind(alloc, operations)?;
    let report = run_report(rt, alloc, &trace, gate)?;
    assert!(rt; gate.all_met(), "{operations}");
    check_told(rt, alloc, &trace, &report, events)
}

/// A process that is ended with work unpublished: its own events come first, then those of the one that it ends, and then the end.
#[test]
fn a_kill_publishes_what_both_did(rt: HostRuntime) -> Result<(), Fail> {
    let gate = Stops::of([
        Stop::before(0, 0, Some(1)),
        Stop::before(1, 3, Some(2)),
        Stop::before(0, 3, None),
    ]);
    let operations = "p0 new r0 Node\np0 put r0 2 5\np0 kill p1\np0 drop r0
p1 new r0 Node\np1 put r0 2 1\np1 move r1 r0\np1 new r2 Node\n";
    let events = "p1 new r0 Node = p1.1
p0 new r0 Node = p0.1
p0 put r0 2 5 = ok
p1 put r0 2 1 = ok
p1 move r1 r0 = ok
p0 kill p1 = ok
p0 drop r0 = ok
";
    check_events(&rt, rt.alloc(), operations, &gate, events)
}

#[test]
fn a_kill_waits_for_a_collection(rt: HostRuntime) -> Result<(), Fail> {
    let gate = Stops::of([
        Stop::before(0, 0, Some(1)),
        Stop::at(1, GatePlace::Marking, 0),
        Stop::before(1, 2, Some(3)),
        Stop::before(0, 1, None),
    ]);
    let operations = "p0 kill p1\np0 drop r0\np1 new r0 Node\np1 collect\np1 drop r0\n";
    let events = "p1 new r0 Node = p1.1
p1 collect = ok
ended p1 0 0 0 0
p0 kill p1 = ok
p0 drop r0 = ok
";
    check_events(&rt, rt.alloc(), operations, &gate, events)
}

/// The third process wants to end the second one, whose heap is marked meanwhile, and is ended itself before that is over.
#[test]
fn who_is_ended_ends_nobody(rt: HostRuntime) -> Result<(), Fail> {
    let gate = Stops::of([
        Stop::before(2, 0, Some(1)),
        Stop::at(1, GatePlace::Marking, 3),
        Stop::before(0, 0, Some(0)),
        Stop::before(0, 1, None),
        Stop::before(0, 0, Some(1)),
    ]);
    let operations = "p2 kill p1\np0 kill p2\np0 drop r0\np1 new r0 Node\np1 collect\np1 drop r0\n";
    let events = "p1 new r0 Node = p1.1
p1 collect = ok
p0 kill p2 = ok
ended p1 0 0 0 0
p0 drop r0 = ok
p1 drop r0 = ok
";
    check_events(&rt, rt.alloc(), operations, &gate, events)
}

/// A chain, from its lower end: the second process has ended when the third one is ended, and is then ended once more to no effect.
#[test]
fn a_chain_ends_from_below(rt: HostRuntime) -> Result<(), Fail> {
    let gate = Stops::of([
        Stop::before(1, 0, Some(2)),
        Stop::before(2, 0, Some(0)),
        Stop::before(2, 1, Some(4)),
        Stop::before(0, 0, Some(2)),
        Stop::before(0, 1, None),
    ]);
    let operations = "p2 kill p1\np2 new r0 Node\np0 kill p2\np0 kill p1\np1 new r0 Node\n";
    let events = "p2 kill p1 = ok
p0 kill p2 = ok
p0 kill p1 = ok
";
    check_events(&rt, rt.alloc(), operations, &gate, events)
}

/// Ends a process that is held before its first operation until that is done, and compares the events.
pub(crate) fn check_ended_unbegun<R: Threads + Wait + Sync + Abort>(
    rt: &R,
    alloc: Global,
    stretch: u32,
) -> Result<(), Fail> {
    let stops = [
        Stop::before(0, 0, Some(1)),
        Stop::before(1, 0, Some(2)),
        Stop::before(0, 1, None),
    ];
    let gate = Stops::stretched(stops, stretch);
    let operations = "p0 kill p1\np0 drop r0\np1 new r0 Node\n";
    let events = "p0 kill p1 = ok\np0 drop r0 = ok\n";
    check_events(rt, alloc, operations, &gate, events)
}

#[test]
fn who_has_not_begun_is_ended(rt: HostRuntime) -> Result<(), Fail> {
    check_ended_unbegun(&rt, rt.alloc(), NO_STRETCH)
}

#[test]
fn who_has_done_all_is_ended(rt: HostRuntime) -> Result<(), Fail> {
    let gate = Stops::of([
        Stop::before(0, 0, Some(1)),
        Stop::at(1, GatePlace::Marking, 0),
    ]);
    let operations = "p0 kill p1\np0 drop r0\np1 new r0 Node\np1 collect\n";
    let events = "p1 new r0 Node = p1.1
p1 collect = ok
ended p1 0 0 0 0
p0 kill p1 = ok
p0 drop r0 = ok
";
    check_events(&rt, rt.alloc(), operations, &gate, events)
}

/// The second process holds the kernel's lock and the book's when the kill comes.
#[test]
fn a_kill_waits_for_the_kernels_heap(rt: HostRuntime) -> Result<(), Fail> {
    let gate = Stops::of([
        Stop::before(0, 0, Some(1)),
        Stop::at(1, GatePlace::InBook, 0),
        Stop::before(1, 1, Some(3)),
        Stop::before(0, 1, None),
    ]);
    let operations = "p0 kill p1\np0 drop r0\np1 knew r0 Node\np1 new r1 Node\n";
    let events = "p1 knew r0 Node = kernel.2\np0 kill p1 = ok\np0 drop r0 = ok\n";
    check_events(&rt, rt.alloc(), operations, &gate, events)
}

#[test]
fn what_an_ended_process_populated_is_absorbed(rt: HostRuntime) -> Result<(), Fail> {
    let gate = Stops::of([
        Stop::before(0, 0, Some(1)),
        Stop::before(1, 2, Some(2)),
        Stop::before(0, 1, None),
    ]);
    let operations = "p0 kill p1\np0 kcollect\np1 share s\np1 snew r0 s Node\np1 freeze s r0\n";
    let events = "p1 share s = ok
p1 snew r0 s Node = s.1
p0 kill p1 = ok
absorbed s
p0 kcollect = ok
ended kernel 1 40 0 0
";
    check_events(&rt, rt.alloc(), operations, &gate, events)
}

#[test]
fn others_share_what_an_ended_process_shared_alone(rt: HostRuntime) -> Result<(), Fail> {
    let gate = Stops::of([
        Stop::before(0, 0, Some(1)),
        Stop::before(1, 3, Some(2)),
        Stop::before(0, 1, None),
    ]);
    let operations = "p0 kill p1\np0 attach r0 s\np1 share s\np1 snew r0 s Node
p1 freeze s r0\np1 snew r0 s Node\n";
    let events = "p1 share s = ok
p1 snew r0 s Node = s.1
p1 freeze s r0 = ok
p0 kill p1 = ok
p0 attach r0 s = s.1
";
    check_events(&rt, rt.alloc(), operations, &gate, events)
}

#[test]
fn a_limit_gets_more_while_its_process_runs(rt: HostRuntime) -> Result<(), Fail> {
    let gate = Stops::of([
        Stop::before(0, 0, Some(1)),
        Stop::before(1, 4, Some(2)),
        Stop::before(0, 2, None),
    ]);
    let operations = "p0 resize c 160\np0 resize a 160\np0 drop r0\np1 new r0 Node
p1 new r1 Node\np1 new r2 Node\np1 new r3 Node\np1 new r3 Node\n";
    let events = "p1 new r0 Node = p1.1
p1 new r1 Node = p1.2
p1 new r2 Node = p1.3
p1 new r3 Node = fault LimitFull c
p0 resize c 160 = ok
p0 resize a 160 = ok
p1 new r3 Node = p1.4
p0 drop r0 = ok
";
    check_events(&rt, rt.alloc(), operations, &gate, events)
}

/// Compares the events of a run in which two processes end the same third, in whichever order, and has it checked.
fn check_either<R: Abort>(
    rt: &R,
    alloc: Global,
    trace: &str,
    report: &MemSink,
) -> Result<(), Fail> {
    let (told, _) = parts(report)?;
    let rest = told
        .strip_prefix("p1 new r0 Node = p1.1\np1 put r0 2 1 = ok\n")
        .ok_or("another beginning")?;
    assert!(rt;
        rest == "p0 kill p1 = ok\np2 kill p1 = ok\np0 drop r0 = ok\np2 drop r0 = ok\n"
            || rest == "p2 kill p1 = ok\np0 kill p1 = ok\np0 drop r0 = ok\np2 drop r0 = ok\n",
        "{rest}"
    );
    assert_eq!(rt; verdict_on(alloc, trace, report)?, Verdict::Good);
    Ok(())
}

#[test]
fn two_processes_end_the_same_third(rt: HostRuntime) -> Result<(), Fail> {
    let gate = Stops::of([
        Stop::before(0, 0, Some(2)),
        Stop::before(2, 0, Some(2)),
        Stop::before(1, 2, Some(4)),
        Stop::before(1, 2, Some(5)),
        Stop::before(0, 1, None),
        Stop::before(2, 1, None),
    ]);
    let operations = "p0 kill p1\np0 drop r0\np2 kill p1\np2 drop r0
p1 new r0 Node\np1 put r0 2 1\np1 new r1 Node\n";
    let trace = trace_behind(rt.alloc(), operations)?;
    let report = run_report(&rt, rt.alloc(), &trace, &gate)?;
    assert!(rt; gate.all_met());
    check_either(&rt, rt.alloc(), &trace, &report)
}

/// Has the gate count a run of kills and resizes, of five operations of p0 and two of p3, and compares the steps.
pub(crate) fn check_steps_of_ending<R: Threads + Wait + Sync + Abort>(
    rt: &R,
    alloc: Global,
    gate: &Counts,
) -> Result<(), Fail> {
    let operations = "p0 kill p1\np0 kill p1\np0 kill p0\np0 resize b 100\np0 resize b 2000
p3 kill p2\np3 drop r0\n";
    let trace = trace_behind(alloc, operations)?;
    run_report(rt, alloc, &trace, gate)?;
    // each is a step, whether it ends somebody, comes too late or is refused
    assert_eq!(rt; gate.steps(0), Some(5));
    assert_eq!(rt; gate.steps(3), Some(1));
    assert_eq!(rt; gate.of(1), Some((0, 0)));
    Ok(())
}

#[test]
fn kills_and_resizes_are_not_left_to_the_end(rt: HostRuntime) -> Result<(), Fail> {
    let gate = Counts::make(rt.alloc(), 4)?;
    check_steps_of_ending(&rt, rt.alloc(), &gate)?;
    assert_eq!(rt; gate.told(0), Some(5));
    assert_eq!(rt; gate.told(3), Some(2));
    Ok(())
}

/// What the end does where threads did nothing, one process after the other: the first one ends the last before that begins.
const LEFT: &str = "p1 new r0 Node
p1 put r0 2 7
p2 kill p1
p0 kill p3
p3 new r0 Node
p2 resize c 40
";

/// Its report.
const LEFT_REPORT: &str = "report 1
p0 kill p3 = ok
p1 new r0 Node = p1.1
p1 put r0 2 7 = ok
p2 kill p1 = ok
p2 resize c 40 = ok
graph
kernel.1 kernel directory null null
p1.1 kernel Node null null 7
roots
exits
shares
faults
p0 0
p1 0
p2 0
p3 0
charges
kernel 72 of 200
limit root 120 of 1000
limit a 0 of 120
limit b 0 of 400
limit c 0 of 40
process p0 0
process p1 0
process p2 0
process p3 0
shared s 0 unmade
end
";

#[test]
fn the_end_alone_ends_processes(rt: HostRuntime) -> Result<(), Fail> {
    let trace = trace_behind(rt.alloc(), LEFT)?;
    check_unrun(&rt, rt.alloc(), &trace, LEFT_REPORT)
}
