//! Runs of the workload in the order of the file, on the caller's thread.
ghost use Rattle.std.specs.Prelude.{◌≤◌};
ghost use Rattle.k_big.specs.Workload.{most_objects};

use k_big::{big_trace, summary};
use k_filed::solo;
use k_io::MemSink;
use std::alloc::Global;
use std::process::Abort;
use std::test::Fail;

/// Runs the trace, and compares the summary.
fn check_summary<R: Abort>(rt: &R, alloc: Global, objects: u32, text: &str) -> Result<(), Fail>
    requires { objects ≤ most_objects }
{
    let trace = big_trace(alloc, objects)?;
    let end = solo(alloc, &trace)?;
    let mut out = MemSink::make(alloc, 256, Vec::new(alloc))?;
    summary(&mut out, objects, &end)?;
    assert_eq!(rt; str::from_utf8(out.bytes()), Ok(text));
    Ok(())
}

#[test]
fn runs_come_to_the_worked_summaries(rt: HostRuntime) -> Result<(), Fail> {
    check_summary(
        &rt,
        rt.alloc(),
        1,
        "big 1\noperations 52\nevents 52\nfaults 0\nfreed 0\nkernel 240\nlive 160\nroot 320\n",
    )?;
    check_summary(
        &rt,
        rt.alloc(),
        10,
        "big 10\noperations 372\nevents 380\nfaults 0\nfreed 32\nkernel 1040\nlive 960\nroot 3200\n",
    )?;
    check_summary(
        &rt,
        rt.alloc(),
        25,
        "big 25\noperations 900\nevents 916\nfaults 0\nfreed 64\nkernel 2800\nlive 2720\nroot 8000\n",
    )
}
