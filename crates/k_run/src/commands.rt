//! The commands that run a trace: on threads, or in the order of the file.
//!
//! Only the run on threads takes a handle by which it may wait; the other one returns.
ghost use Rattle.std.specs.Prelude.{◌≡◌, IfErr, IfOk};
ghost use Rattle.k_types.specs.Bounds.{most_trace_bytes};
ghost use Rattle.k_status.specs.Telling.{IsUnwritten, Answers, IsWritten, TellsOfBytes, TellsOfSource};
ghost use Rattle.k_status.specs.Reports.{IsFileReport, IsSomeReport};
ghost use Rattle.k_status.specs.Readings.{HasCause};
ghost use Rattle.k_run.specs.Commands.{HasReplayed, HasRun, IsNamedEnd, status_of, text_of};

use crate::{Outcome, replay_trace, run_trace};
use k_io::{Gate, Sink, Source};
use k_report::report;
use k_status::{RunError, Status, after_writing, trace_of, want_of_memory, write_bad_trace};
use std::alloc::Global;
use std::sync::Wait;
use std::thread::Threads;

/// Reads a trace from the source, runs it on threads, and writes its report. It reads at most one byte past the most bytes of a
/// trace. It waits for the locks of the heaps.
pub fn run_file<S: Source, K: Sink, G: Gate, R: Threads + Wait + Sync>(
    rt: &R,
    alloc: Global,
    src: &mut S,
    out: &mut K,
    gate: &G,
) -> Status
    ensures answered { Answers
        (TellsOfSource most_trace_bytes (TellsOfBytes IsSomeReport) (record { left = S.left src.old; rest = S.left src.new; failed_before = S.faults src.old; failed_after = S.faults src.new }))
        (record { agreed = K.Holds out.old; agrees = K.Holds out.new; failed_before = K.faults out.old; failed_after = K.faults out.new })
        result }
    ensures unwritten { IsUnwritten result → out.new ≡ out.old }
{
    let ended = run_source(rt, alloc, src, gate);
    tell_end(out, ended)
}

/// Reads a trace from the source, does its operations in the order of the file on the caller's thread, and writes its report. It reads
/// at most one byte past the most bytes of a trace.
pub fn replay_file<S: Source, K: Sink>(alloc: Global, src: &mut S, out: &mut K) -> Status
    ensures answered { Answers
        (TellsOfSource most_trace_bytes (TellsOfBytes IsFileReport) (record { left = S.left src.old; rest = S.left src.new; failed_before = S.faults src.old; failed_after = S.faults src.new }))
        (record { agreed = K.Holds out.old; agrees = K.Holds out.new; failed_before = K.faults out.old; failed_after = K.faults out.new })
        result }
    ensures unwritten { IsUnwritten result → out.new ≡ out.old }
{
    let ended = replay_source(alloc, src);
    tell_end(out, ended)
}

/// Runs the trace that the source gives, on threads.
fn run_source<G: Gate, R: Threads + Wait + Sync, S: Source>(
    rt: &R,
    alloc: Global,
    src: &mut S,
    gate: &G,
) -> Result<Outcome, RunError>
    ensures ok { IfOk result (λ end. HasRun (record { left = S.left src.old; rest = S.left src.new; failed_before = S.faults src.old; failed_after = S.faults src.new }) end) }
    ensures err { IfErr result (λ error. HasCause (record { left = S.left src.old; rest = S.left src.new; failed_before = S.faults src.old; failed_after = S.faults src.new }) error) }
{
    let trace = trace_of(alloc, src)?;
    Ok(run_trace(rt, alloc, trace, gate)?)
}

/// Runs the trace that the source gives, in the order of the file.
pub fn replay_source<S: Source>(alloc: Global, src: &mut S) -> Result<Outcome, RunError>
    ensures ok { IfOk result (λ end. HasReplayed (record { left = S.left src.old; rest = S.left src.new; failed_before = S.faults src.old; failed_after = S.faults src.new }) end) }
    ensures err { IfErr result (λ error. HasCause (record { left = S.left src.old; rest = S.left src.new; failed_before = S.faults src.old; failed_after = S.faults src.new }) error) }
{
    let trace = trace_of(alloc, src)?;
    Ok(replay_trace(alloc, trace)?)
}

/// Writes the report of the run that is over, or says why there is none.
pub fn tell_end<K: Sink>(out: &mut K, ended: Result<Outcome, RunError>) -> Status
    requires { IfOk ended IsNamedEnd }
    ensures written { IsWritten
        (record { agreed = K.Holds out.old; agrees = K.Holds out.new; failed_before = K.faults out.old; failed_after = K.faults out.new })
        (status_of ended) (text_of ended) result }
    ensures unwritten { IsUnwritten result → out.new ≡ out.old }
{
    match ended {
        Ok(outcome) => after_writing(Status::Good, report(out, &outcome.names, &outcome)),
        Err(RunError::NoMemory(refused)) => want_of_memory(refused),
        Err(RunError::Unread) => Status::ReadFault,
        Err(RunError::Bad { line, reason }) => write_bad_trace(out, line, reason),
    }
}
