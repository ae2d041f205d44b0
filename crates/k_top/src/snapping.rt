//! The command that writes the snapshot of the state that a trace leaves.
ghost use Rattle.std.specs.Prelude.{◌≡◌};
ghost use Rattle.k_types.specs.Bounds.{most_trace_bytes};
ghost use Rattle.k_status.specs.Telling.{IsUnwritten, Answers, TellsOfBytes, TellsOfSource};
ghost use Rattle.k_answers.specs.Reports.{IsFileSnapshot};

use k_answers::snapshot;
use k_io::{Sink, Source};
use k_run::{replay_source, tell_end};
use k_status::{Status, after_writing};
use std::alloc::Global;

/// Reads a trace from the source, does its operations in the order of the file on the caller's thread, and writes the snapshot of the
/// state that they leave. It reads at most one byte past the most bytes of a trace.
pub fn snap_file<S: Source, K: Sink>(alloc: Global, src: &mut S, out: &mut K) -> Status
    ensures answered { Answers
        (TellsOfSource most_trace_bytes (TellsOfBytes IsFileSnapshot) (record { left = S.left src.old; rest = S.left src.new; failed_before = S.faults src.old; failed_after = S.faults src.new }))
        (record { agreed = K.Holds out.old; agrees = K.Holds out.new; failed_before = K.faults out.old; failed_after = K.faults out.new })
        result }
    ensures unwritten { IsUnwritten result → out.new ≡ out.old }
{
    match replay_source(alloc, src) {
        Ok(outcome) => after_writing(Status::Good, snapshot(out, &outcome.names, &outcome)),
        Err(error) => tell_end(out, Err(error)),
    }
}
