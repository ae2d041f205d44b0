//! The runner before a sink that gathers what is written.
ghost use Rattle.std.specs.Prelude.{◌≡◌, map, string_bytes};
ghost use Rattle.k_run.specs.Tellings.{TellsOfWords};
ghost use Rattle.k_status.specs.Telling.{Answers};

use crate::words::runner;
use k_gather::{Gathered, SinkName};
use k_io::{Gate, Sink, Source};
use k_status::{Status, after_writing};
use std::alloc::Global;
use std::sync::Wait;
use std::thread::Threads;

/// Does what [`runner`] does, and gives the sink back. What is written is gathered, so that the sink gets many lines by one write, and what
/// is left of it is handed on at the end. After a write that failed nothing more is handed on.
pub fn gathered_call<'a, N: SinkName, S: Source, K: Sink, G: Gate, R: Threads + Wait + Sync>(
    rt: &R,
    alloc: Global,
    words: &[String],
    src: &mut S,
    out: &'a mut K,
    gate: &G,
) -> (Status, &'a mut K)
    requires { out.ghost_name ≡ N.name }
    ensures told { Answers
        (TellsOfWords (map string_bytes words.now) (record { left = S.left src.old; rest = S.left src.new; failed_before = S.faults src.old; failed_after = S.faults src.new }))
        (record { agreed = K.Holds out.old; agrees = K.Holds result.1.now; failed_before = K.faults out.old; failed_after = K.faults result.1.now })
        result.0 }
    ensures same_sink { result.1.ghost_name ≡ out.entry.ghost_name }
{
    let mut sink: Gathered<'a, K, N> = Gathered::over(out);
    match runner(rt, alloc, words, src, &mut sink, gate) {
        Status::WriteFault => (Status::WriteFault, sink.into_inner()),
        status => {
            let handed = sink.hand_on();
            (after_writing(status, handed), sink.into_inner())
        }
    }
}
