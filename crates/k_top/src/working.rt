//! The command that runs a trace and tells the work of its collections.
ghost use Rattle.std.specs.Prelude.{◌≡◌, ◌++◌, IfErr, IfOk};
ghost use Rattle.k_io.specs.Writing.{Writes};
ghost use Rattle.k_run.specs.k_outcome.Ends.{journal_of, last_state};
ghost use Rattle.k_text.specs.Report.{text_over};
ghost use Rattle.k_types.specs.Bounds.{most_trace_bytes};
ghost use Rattle.k_answers.specs.k_work.Lines.{work_text};
ghost use Rattle.k_status.specs.Telling.{IsUnwritten, Answers, TellsOfBytes, TellsOfSource};
ghost use Rattle.k_answers.specs.Reports.{IsWorkReport};
ghost use Rattle.k_status.specs.Readings.{HasCause};
ghost use Rattle.k_top.specs.Runs.{CanBeWritten, HasWorkedRun};

use k_answers::{WorkTable, work_of, write_work};
use k_io::{Gate, Sink, Source, WriteFailed};
use k_report::report;
use k_run::{Outcome, run_trace, tell_end};
use k_status::{RunError, Status, after_writing, trace_of};
use std::alloc::Global;
use std::sync::Wait;
use std::thread::Threads;

/// Reads a trace from the source, runs it on threads, and writes its report and the work of its collections. It reads at most one byte past
/// the most bytes of a trace. It waits for the locks of the heaps. Once the run is over it steps the plain machine over the journal.
pub fn work_file<S: Source, K: Sink, G: Gate, R: Threads + Wait + Sync>(
    rt: &R,
    alloc: Global,
    src: &mut S,
    out: &mut K,
    gate: &G,
) -> Status
    ensures answered { Answers
        (TellsOfSource most_trace_bytes (TellsOfBytes IsWorkReport) (record { left = S.left src.old; rest = S.left src.new; failed_before = S.faults src.old; failed_after = S.faults src.new }))
        (record { agreed = K.Holds out.old; agrees = K.Holds out.new; failed_before = K.faults out.old; failed_after = K.faults out.new })
        result }
    ensures unwritten { IsUnwritten result → out.new ≡ out.old }
{
    match work_source(rt, alloc, src, gate) {
        Ok((outcome, table)) => after_writing(Status::Good, write_worked(out, &outcome, &table)),
        Err(error) => tell_end(out, Err(error)),
    }
}

/// Runs the trace that the source gives, and credits its collections.
fn work_source<S: Source, G: Gate, R: Threads + Wait + Sync>(
    rt: &R,
    alloc: Global,
    src: &mut S,
    gate: &G,
) -> Result<(Outcome, WorkTable), RunError>
    ensures ok { IfOk result (λ ended. HasWorkedRun (record { left = S.left src.old; rest = S.left src.new; failed_before = S.faults src.old; failed_after = S.faults src.new }) ended.0 ended.1) }
    ensures err { IfErr result (λ error. HasCause (record { left = S.left src.old; rest = S.left src.new; failed_before = S.faults src.old; failed_after = S.faults src.new }) error) }
{
    let trace = trace_of(alloc, src)?;
    let outcome = run_trace(rt, alloc, trace, gate)?;
    let table = work_of(alloc, outcome.setup(), &outcome)?;
    Ok((outcome, table))
}

/// Writes the report of the run that is over, and then the lines of its work.
fn write_worked<K: Sink>(
    out: &mut K,
    outcome: &Outcome,
    table: &WorkTable,
) -> Result<(), WriteFailed>
    requires { CanBeWritten outcome.now table.now }
    ensures { Writes (K.Holds out.old) (K.Holds out.new) (K.faults out.old) (K.faults out.new) result (text_over outcome.now.names outcome.now.setup (journal_of outcome.now) (last_state outcome.now) ++ work_text outcome.now.names table.now) }
{
    report(out, &outcome.names, outcome)?;
    write_work(out, &outcome.names, table)
}
