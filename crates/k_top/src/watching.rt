//! The command that runs a trace beside a watcher.
ghost use Rattle.std.specs.Prelude.{◌≡◌, ◌++◌, IfErr, IfOk};
ghost use Rattle.k_io.specs.Writing.{Writes};
ghost use Rattle.k_run.specs.k_outcome.Ends.{journal_of, last_state};
ghost use Rattle.k_text.specs.Report.{text_over};
ghost use Rattle.k_types.specs.Bounds.{most_trace_bytes};
ghost use Rattle.k_status.specs.Telling.{IsUnwritten, Answers, TellsOfBytes, TellsOfSource};
ghost use Rattle.k_answers.specs.Reports.{IsWatchedReport};
ghost use Rattle.k_status.specs.Readings.{HasCause};
ghost use Rattle.k_answers.specs.Samples.{samples_text};
ghost use Rattle.k_run.specs.Commands.{IsNamedEnd};
ghost use Rattle.k_top.specs.Runs.{HasWatchedRun};

use crate::watched::watch_trace;
use k_answers::write_samples;
use k_io::{Gate, Sink, Source, WriteFailed};
use k_report::report;
use k_run::{Outcome, Sample, tell_end};
use k_status::{RunError, Status, after_writing, trace_of};
use std::alloc::Global;
use std::sync::Wait;
use std::thread::Threads;

/// Reads a trace from the source, runs it on threads beside a watcher that takes so many samples, and writes its report and the samples. It
/// reads at most one byte past the most bytes of a trace. It waits for the locks of the heaps; the watcher waits for none of them.
pub fn watch_file<S: Source, K: Sink, G: Gate, R: Threads + Wait + Sync>(
    rt: &R,
    alloc: Global,
    src: &mut S,
    count: u32,
    out: &mut K,
    gate: &G,
) -> Status
    ensures answered { Answers
        (TellsOfSource most_trace_bytes (TellsOfBytes (IsWatchedReport count)) (record { left = S.left src.old; rest = S.left src.new; failed_before = S.faults src.old; failed_after = S.faults src.new }))
        (record { agreed = K.Holds out.old; agrees = K.Holds out.new; failed_before = K.faults out.old; failed_after = K.faults out.new })
        result }
    ensures unwritten { IsUnwritten result → out.new ≡ out.old }
{
    match watch_source(rt, alloc, src, count, gate) {
        Ok((outcome, samples)) => {
            after_writing(Status::Good, write_watched(out, &outcome, &samples))
        }
        Err(error) => tell_end(out, Err(error)),
    }
}

/// Runs the trace that the source gives, beside a watcher.
fn watch_source<S: Source, G: Gate, R: Threads + Wait + Sync>(
    rt: &R,
    alloc: Global,
    src: &mut S,
    count: u32,
    gate: &G,
) -> Result<(Outcome, Vec<Sample>), RunError>
    ensures ok { IfOk result (λ ended. HasWatchedRun (record { left = S.left src.old; rest = S.left src.new; failed_before = S.faults src.old; failed_after = S.faults src.new }) count ended.0 ended.1.items) }
    ensures err { IfErr result (λ error. HasCause (record { left = S.left src.old; rest = S.left src.new; failed_before = S.faults src.old; failed_after = S.faults src.new }) error) }
{
    let trace = trace_of(alloc, src)?;
    Ok(watch_trace(rt, alloc, trace, count, gate)?)
}

/// Writes the report of the run that is over, and then the samples.
fn write_watched<K: Sink>(
    out: &mut K,
    outcome: &Outcome,
    samples: &[Sample],
) -> Result<(), WriteFailed>
    requires { IsNamedEnd outcome.now }
    ensures { Writes (K.Holds out.old) (K.Holds out.new) (K.faults out.old) (K.faults out.new) result (text_over outcome.now.names outcome.now.setup (journal_of outcome.now) (last_state outcome.now) ++ samples_text samples.now) }
{
    report(out, &outcome.names, outcome)?;
    write_samples(out, samples)
}
