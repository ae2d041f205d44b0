//! Exit statuses of the program, from the arguments of its command line.
use crate::calling::{Faults, NO_FAULTS, check_end};
use crate::summaries::TEN;
use crate::tests::{SHARERS, SHARING, USAGE};
use k_io::NoMemory;
use std::alloc::Global;
use std::process::Abort;
use std::sync::Wait;
use std::test::Fail;
use std::thread::Threads;

/// The first read of the source fails.
const NO_READ: Faults = Faults { read: 1, write: 0 };

/// The first write to the sink fails.
const NO_WRITE: Faults = Faults { read: 0, write: 1 };

/// Has the program end on the trace by each kind of command, with and without faults.
fn check_ends<R: Abort + Threads + Wait + Sync>(
    rt: &R,
    alloc: Global,
    trace: &str,
) -> Result<(), NoMemory> {
    for (line, faults, want, text) in [
        ("kaffe replay", NO_FAULTS, 0, SHARERS),
        ("kaffe replay x", NO_FAULTS, 2, USAGE),
        ("kaffe", NO_READ, 2, USAGE),
        ("kaffe run", NO_READ, 4, ""),
        ("kaffe replay", NO_WRITE, 5, ""),
        ("kaffe check", NO_FAULTS, 6, "refused 1\n"),
        ("kaffe big 10", NO_READ, 0, TEN),
        ("kaffe big 10", NO_WRITE, 5, ""),
    ] {
        check_end(rt, alloc, line, trace, faults, want, text)?;
    }
    Ok(())
}

#[test]
fn each_command_ends_with_the_number_of_its_answer(rt: HostRuntime) -> Result<(), Fail> {
    check_ends(&rt, rt.alloc(), SHARING)?;
    let bad = "bad trace: line 1 reason 12\n";
    check_end(&rt, rt.alloc(), "kaffe run", "", NO_FAULTS, 1, bad)?;
    Ok(())
}
