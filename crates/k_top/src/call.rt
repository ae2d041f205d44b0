//! The top call.
ghost use Rattle.std.specs.Prelude.{◌≡◌, map, string_bytes};
ghost use Rattle.k_answers.specs.Answers.{IsAnswered};
ghost use Rattle.k_answers.specs.Parts.{Means};
ghost use Rattle.k_status.specs.Telling.{Answers, IsUnwritten};
ghost use Rattle.k_answers.specs.Commands.{IsReading};

use crate::settling::tell_at_once;
use crate::watching::watch_file;
use crate::working::work_file;
use crate::workload::run_workload;
use k_answers::{Command, command_of};
use k_io::{Gate, Sink, Source};
use k_run::run_file;
use k_status::Status;
use std::alloc::Global;
use std::sync::Wait;
use std::thread::Threads;

/// Does what the words say, and writes the text of its status.
///
/// The words are decided first, then the source is read, then the trace is judged, then it is run, its
/// report checked or a snapshot audited, and then the text is written. So the source is not read where the words are no command,
/// nor by `big`, whose trace is made, and nothing is written before the run, the check or the audit has ended.
///
/// `run`, `big`, `watch` and `work` have at most four threads do what the processes have to do, and tell the gate where they stand; `replay`
/// and `snap` do the operations in the order of the file, on the caller's thread. Those four wait for the locks of the heaps: they return if they get
/// them. Whatever the threads and the gate do, the report is that of a legal and complete history. No other command waits, and none calls the
/// gate.
///
/// Memory is taken for the bytes of the input and for the trace; then, before the first operation, for all that the operations can come
/// to need: the journal, the objects, the tables, the locks and the places for the report. Each goes with the input. `check` and
/// `work` take memory for their machine as it goes, and `audit` for what the snapshot says. docs/PERFORMANCE.md has what it costs in time.
pub fn kaffe<S: Source, K: Sink, G: Gate, R: Threads + Wait + Sync>(
    rt: &R,
    alloc: Global,
    words: &[String],
    src: &mut S,
    out: &mut K,
    gate: &G,
) -> Status
    ensures answered { IsAnswered (map string_bytes words.now)
        (record { left = S.left src.old; rest = S.left src.new; failed_before = S.faults src.old; failed_after = S.faults src.new })
        (record { agreed = K.Holds out.old; agrees = K.Holds out.new; failed_before = K.faults out.old; failed_after = K.faults out.new })
        result }
    ensures unread { ¬ IsReading (map string_bytes words.now) → src.new ≡ src.old }
    ensures unwritten { IsUnwritten result → out.new ≡ out.old }
{
    tell(rt, alloc, words, src, out, gate)
}

/// Does what the words say, and tells what its status means of the words and the source.
pub(crate) fn tell<S: Source, K: Sink, G: Gate, R: Threads + Wait + Sync>(
    rt: &R,
    alloc: Global,
    words: &[String],
    src: &mut S,
    out: &mut K,
    gate: &G,
) -> Status
    ensures told { Answers
        (Means (map string_bytes words.now) (record { left = S.left src.old; rest = S.left src.new; failed_before = S.faults src.old; failed_after = S.faults src.new }))
        (record { agreed = K.Holds out.old; agrees = K.Holds out.new; failed_before = K.faults out.old; failed_after = K.faults out.new })
        result }
    ensures unread { ¬ IsReading (map string_bytes words.now) → src.new ≡ src.old }
    ensures unwritten { IsUnwritten result → out.new ≡ out.old }
{
    match command_of(words) {
        Some(Command::Run) => run_file(rt, alloc, src, out, gate),
        Some(Command::Big(objects)) => run_workload(rt, alloc, objects, out, gate),
        Some(Command::Watch(count)) => watch_file(rt, alloc, src, count, out, gate),
        Some(Command::Work) => work_file(rt, alloc, src, out, gate),
        Some(Command::Replay)
        | Some(Command::Check)
        | Some(Command::Snap)
        | Some(Command::Audit)
        | Some(Command::Tree)
        | None => tell_at_once(alloc, words, src, out),
    }
}
