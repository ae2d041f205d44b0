//! Traces at the ends of the ranges of their numbers, counts and lengths.
use crate::calling::{Given, HEADER, NO_FAULTS, check_call, check_joined};
use crate::summaries::count_run;
use k_gates::Counts;
use k_io::{NoGate, NoMemory};
use k_top::Status;
use std::alloc::Global;
use std::process::Abort;
use std::sync::Wait;
use std::test::Fail;
use std::thread::Threads;

/// The header of a trace of one process.
const ONE_PROCESS: &str = "kaffe 1
kernel 32 2
type Node ref ref int
limit a 80
proc p1 a
";

/// Appends so many operations, each of which lets go of a register.
fn push_operations(trace: &mut String, operations: u32) -> Result<(), NoMemory> {
    for _ in 0..operations {
        trace.push_str("p1 drop r0\n")?;
    }
    Ok(())
}

/// A trace of so many operations of one process.
fn trace_of(alloc: Global, operations: u32) -> Result<String, NoMemory> {
    let mut trace = String::from_str(alloc, ONE_PROCESS)?;
    push_operations(&mut trace, operations)?;
    Ok(trace)
}

/// Calls the program with the most operations that a trace has.
fn check_most<R: Abort + Threads + Wait + Sync>(
    rt: &R,
    alloc: Global,
    words: &str,
) -> Result<(), NoMemory> {
    let most = trace_of(alloc, 200_000)?;
    let mut given = Given::make(alloc, words, &most, NO_FAULTS)?;
    assert_eq!(rt; given.answer(rt, alloc, &NoGate), Status::Good);
    Ok(())
}

#[test]
fn replays_the_most_operations(rt: HostRuntime) -> Result<(), Fail> {
    check_most(&rt, rt.alloc(), "replay")?;
    Ok(())
}

#[test]
fn runs_the_most_operations(rt: HostRuntime) -> Result<(), Fail> {
    check_most(&rt, rt.alloc(), "run")?;
    Ok(())
}

/// A run that lets a process go after some thousand operations is told by this.
#[test]
fn threads_do_many_operations(rt: HostRuntime) -> Result<(), Fail> {
    let gate = Counts::make(rt.alloc(), 1)?;
    let many = trace_of(rt.alloc(), 20_000)?;
    count_run(&rt, rt.alloc(), &many, &gate)?;
    // what is done inside the heap has no step
    assert_eq!(rt; gate.of(0), Some((20_000, 0)));
    Ok(())
}

#[test]
fn refuses_more_operations(rt: HostRuntime) -> Result<(), Fail> {
    let more = trace_of(rt.alloc(), 200_001)?;
    let text = "bad trace: line 200006 reason 9\n";
    check_call(&rt, rt.alloc(), "replay", &more, Status::BadTrace, text)?;
    Ok(())
}

/// Doubles the text so often.
fn double(alloc: Global, text: &mut String, doublings: u32) -> Result<(), NoMemory> {
    for _ in 0..doublings {
        let half = String::from_str(alloc, text.as_str())?;
        text.push_str(&half)?;
    }
    Ok(())
}

/// A line of one byte more than so many doublings of one byte give.
fn line_of(alloc: Global, doublings: u32) -> Result<String, NoMemory> {
    let mut line = String::from_str(alloc, "a")?;
    double(alloc, &mut line, doublings)?;
    line.push_str("a")?;
    Ok(line)
}

/// Replays the text with that line behind it.
fn check_line<R: Abort + Threads + Wait + Sync>(
    rt: &R,
    alloc: Global,
    front: &str,
    doublings: u32,
    text: &str,
) -> Result<(), NoMemory> {
    let line = line_of(alloc, doublings)?;
    check_joined(rt, alloc, "replay", front, &line, Status::BadTrace, text)
}

#[test]
fn refuses_bytes_beyond_the_most(rt: HostRuntime) -> Result<(), Fail> {
    // 2^24 bytes and one more, and a line of 2^12 bytes and one more
    check_line(&rt, rt.alloc(), "", 24, "bad trace: line 0 reason 1\n")?;
    check_line(&rt, rt.alloc(), HEADER, 12, "bad trace: line 10 reason 2\n")?;
    Ok(())
}
