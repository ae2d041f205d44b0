//! Runs beside a watcher.
use crate::calling::{Given, HEADER, NO_FAULTS};
use crate::gated::{COLLECTION, check_collection};
use k_gates::{Stop, Stops, meanwhile_of_watching};
use k_io::{NoMemory, OPERATIONS_A_STRETCH};
use k_top::Status;
use std::alloc::Global;
use std::process::Abort;
use std::sync::Wait;
use std::test::Fail;
use std::thread::Threads;

/// A call of the command on the operations behind the header.
fn given_behind(
    alloc: Global,
    line: &str,
    header: &str,
    operations: &str,
) -> Result<Given, NoMemory> {
    let trace = format!(in alloc; "{header}{operations}")?;
    Given::make(alloc, line, &trace, NO_FAULTS)
}

/// Has the program answer, with the gate, and sees that the run has come to each of its stops.
fn watch<const N: usize, R: Abort + Threads + Wait + Sync>(
    rt: &R,
    alloc: Global,
    given: &mut Given,
    gate: &Stops<N>,
) {
    assert_eq!(rt; given.answer(rt, alloc, gate), Status::Good);
    assert!(rt; gate.all_met());
}

/// The report, and the lines of the samples behind it.
fn parts(written: &str) -> Result<(&str, &str), Fail> {
    let parts = written.split_once("samples\n").ok_or("no samples")?;
    Ok(parts)
}

/// Compares the report of the collection, and the samples, of which one was taken while the heap was marked.
fn check_marked<R: Abort>(rt: &R, written: &str) -> Result<(), Fail> {
    let (report, samples) = parts(written)?;
    assert!(rt;
        samples == "sample 3 160 2\nsample 5 160 2\nend\n"
            || samples == "sample 4 160 2\nsample 5 160 2\nend\n",
        "{samples}"
    );
    check_collection(rt, report)
}

/// A watcher that takes its samples before the run or after it, or that never reads the cell, is told by this.
#[test]
fn a_sample_is_taken_while_a_heap_is_marked(rt: HostRuntime) -> Result<(), Fail> {
    let gate = meanwhile_of_watching();
    let mut given = given_behind(rt.alloc(), "watch 1", HEADER, COLLECTION)?;
    watch(&rt, rt.alloc(), &mut given, &gate);
    check_marked(&rt, given.written())
}

/// A header of the second version with a process at the root; an operation behind it stands on line 11.
const GOVERNED: &str = "kaffe 2
kernel 200 2
type Node ref ref int
limit root 1000
limit a root hard 120
limit b root soft 400
proc p0 root
proc p1 a
proc p2 b
shared s
";

/// The third process makes an object, and is ended by the first one.
const KILL: &str = "p0 kill p2
p0 drop r0
p2 new r0 Node
p2 drop r0
";

/// How its report begins.
const KILL_BEGINS: &str = "report 1
p2 new r0 Node = p2.1
p0 kill p2 = ok
p0 drop r0 = ok
graph
";

/// Compares how the report begins, and the samples: the first was taken once the object was made, and the second once the kill was done and
/// before anybody did anything more.
fn check_killed<R: Abort>(rt: &R, written: &str) -> Result<(), Fail> {
    let (report, samples) = parts(written)?;
    assert!(rt; report.starts_with(KILL_BEGINS), "{report}");
    assert_eq!(rt;
        samples,
        "sample 1 160 3\nsample 2 120 2\nsample 3 120 2\nend\n"
    );
    Ok(())
}

/// A kill that gives the book back unpublished, or after which as many processes are said to live as before, is told by this.
#[test]
fn a_sample_behind_a_kill_has_one_process_less(rt: HostRuntime) -> Result<(), Fail> {
    let gate = Stops::of([
        Stop::sampling(0, Some(1)),
        Stop::before(2, 1, Some(5)),
        Stop::before(0, 0, Some(3)),
        Stop::sampling(1, Some(4)),
        Stop::before(0, 1, Some(5)),
        Stop::sampling(2, None),
    ]);
    let mut given = given_behind(rt.alloc(), "watch 2", GOVERNED, KILL)?;
    watch(&rt, rt.alloc(), &mut given, &gate);
    check_killed(&rt, given.written())
}

/// The second process makes an object, and then lets it go.
const ONE_OBJECT: &str = "p2 new r0 Node
p2 drop r0
";

/// How many samples are taken before it does, and how many between both operations.
const BEFORE: u32 = 110;

const BETWEEN: u32 = 20;

/// Appends the line so often.
fn push_lines(text: &mut String, line: &str, count: u32) -> Result<(), NoMemory> {
    for _ in 0..count {
        text.push_str(line)?;
    }
    Ok(())
}

/// The lines of the samples, and behind them the one of the run that is over.
fn many_samples(alloc: Global) -> Result<String, NoMemory> {
    let mut text = String::new(alloc);
    push_lines(&mut text, "sample 0 120 2\n", BEFORE)?;
    push_lines(&mut text, "sample 1 160 2\n", BETWEEN)?;
    text.push_str("sample 2 160 2\nend\n")?;
    Ok(text)
}

/// Compares the samples.
fn check_many<R: Abort>(rt: &R, alloc: Global, written: &str) -> Result<(), Fail> {
    let want = many_samples(alloc)?;
    let (_, samples) = parts(written)?;
    assert_eq!(rt; samples, want.as_str());
    Ok(())
}

/// Holds the second process before its first operation until so many samples are taken, and the watcher there until that operation is done;
/// and the process before its next one until the watcher has taken all.
fn between_samples() -> Stops<4> {
    Stops::of([
        Stop::before(1, 0, Some(1)),
        Stop::sampling(BEFORE, Some(2)),
        Stop::before(1, 1, Some(3)),
        Stop::sampling(BEFORE + BETWEEN, None),
    ])
}

/// A watcher that looks a hundred times at the most, and then repeats what it saw, is told by this.
#[test]
fn samples_beyond_the_hundredth_are_new(rt: HostRuntime) -> Result<(), Fail> {
    let gate = between_samples();
    let mut given = given_behind(rt.alloc(), "watch 130", HEADER, ONE_OBJECT)?;
    watch(&rt, rt.alloc(), &mut given, &gate);
    check_many(&rt, rt.alloc(), given.written())
}

/// Two operations, of which a stretch does the second, and one that no stretch does.
const STRETCHED: &str = "p1 new r0 Node
p1 new r1 Node
p1 exit
";

/// Holds the watcher until the stretch is over, and the process behind it until the watcher has taken its sample.
fn behind_a_stretch() -> Stops<3> {
    Stops::stretched(
        [
            Stop::sampling(0, Some(1)),
            Stop::before(0, 2, Some(2)),
            Stop::sampling(1, None),
        ],
        OPERATIONS_A_STRETCH,
    )
}

/// Compares the samples: the first has both events, and the second that of the `exit` too.
fn check_stretched<R: Abort>(rt: &R, written: &str) -> Result<(), Fail> {
    let (_, samples) = parts(written)?;
    assert_eq!(rt; samples, "sample 2 120 2\nsample 3 120 1\nend\n");
    Ok(())
}

/// A hold of the book behind which its numbers are not published is told by this.
#[test]
fn a_sample_behind_a_stretch_has_its_events(rt: HostRuntime) -> Result<(), Fail> {
    let gate = behind_a_stretch();
    let mut given = given_behind(rt.alloc(), "watch 1", HEADER, STRETCHED)?;
    watch(&rt, rt.alloc(), &mut given, &gate);
    check_stretched(&rt, given.written())
}
