//! The command that does the operations of a script, whose processes make and end child processes.
ghost use Rattle.std.specs.Prelude.{◌≡◌, IfErr, IfOk};
ghost use Rattle.k_types.specs.Bounds.{most_trace_bytes};
ghost use Rattle.k_status.specs.Telling.{IsUnwritten, Answers, TellsOfSource};
ghost use Rattle.k_answers.specs.Parts.{TellsOfScript};
ghost use Rattle.k_answers.specs.Scripts.{HasCause};
ghost use Rattle.k_top.specs.Scripts.{HasReplayed};

use k_answers::translation_of;
use k_io::{Sink, Source};
use k_run::{Outcome, replay_trace, tell_end};
use k_status::{RunError, Status};
use std::alloc::Global;

/// Reads a script from the source, does the operations of its translation in the order of the file on the caller's thread, and writes
/// their report. It reads at most one byte past the most bytes of a trace.
pub fn tree_file<S: Source, K: Sink>(alloc: Global, src: &mut S, out: &mut K) -> Status
    ensures answered { Answers
        (TellsOfSource most_trace_bytes TellsOfScript (record { left = S.left src.old; rest = S.left src.new; failed_before = S.faults src.old; failed_after = S.faults src.new }))
        (record { agreed = K.Holds out.old; agrees = K.Holds out.new; failed_before = K.faults out.old; failed_after = K.faults out.new })
        result }
    ensures unwritten { IsUnwritten result → out.new ≡ out.old }
{
    let ended = tree_source(alloc, src);
    tell_end(out, ended)
}

/// Does the operations of the translation of the script that the source gives, in the order of the file.
fn tree_source<S: Source>(alloc: Global, src: &mut S) -> Result<Outcome, RunError>
    ensures ok { IfOk result (λ end. HasReplayed (record { left = S.left src.old; rest = S.left src.new; failed_before = S.faults src.old; failed_after = S.faults src.new }) end) }
    ensures err { IfErr result (λ error. HasCause (record { left = S.left src.old; rest = S.left src.new; failed_before = S.faults src.old; failed_after = S.faults src.new }) error) }
{
    let trace = translation_of(alloc, src)?;
    Ok(replay_trace(alloc, trace)?)
}
