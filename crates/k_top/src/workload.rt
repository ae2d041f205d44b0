//! The command that runs the workload.
ghost use Rattle.std.specs.Prelude.{◌≡◌, ◌≤◌, IfOk};
ghost use Rattle.k_answers.specs.k_big.Workload.{big_trace, most_objects};
ghost use Rattle.k_run.specs.Runs.{IsRunOf};
ghost use Rattle.k_status.specs.Telling.{IsUnwritten, Answers};
ghost use Rattle.k_answers.specs.Parts.{TellsOfBig};

use k_answers::{big_trace, summary};
use k_io::{Gate, NoMemory, Sink};
use k_run::{Outcome, run_trace};
use k_status::{Status, after_writing, want_of_memory};
use std::alloc::Global;
use std::sync::Wait;
use std::thread::Threads;

/// Runs the trace where each of eight processes makes so many objects on threads, and writes the summary of the run as one piece. It
/// waits for the locks of the heaps.
pub fn run_workload<K: Sink, G: Gate, R: Threads + Wait + Sync>(
    rt: &R,
    alloc: Global,
    objects: u32,
    out: &mut K,
    gate: &G,
) -> Status
    requires { objects ≤ most_objects }
    ensures answered { Answers (TellsOfBig objects)
        (record { agreed = K.Holds out.old; agrees = K.Holds out.new; failed_before = K.faults out.old; failed_after = K.faults out.new })
        result }
    ensures unwritten { IsUnwritten result → out.new ≡ out.old }
{
    match run_big(rt, alloc, objects, gate) {
        Ok(outcome) => after_writing(Status::Good, summary(out, objects, &outcome)),
        Err(refused) => want_of_memory(refused),
    }
}

/// Runs the trace where each of eight processes makes so many objects, on threads.
fn run_big<G: Gate, R: Threads + Wait + Sync>(
    rt: &R,
    alloc: Global,
    objects: u32,
    gate: &G,
) -> Result<Outcome, NoMemory>
    requires { objects ≤ most_objects }
    ensures { IfOk result (IsRunOf (big_trace objects)) }
{
    let trace = big_trace(alloc, objects)?;
    run_trace(rt, alloc, trace, gate)
}
