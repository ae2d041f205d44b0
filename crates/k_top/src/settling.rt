//! What the program answers without waiting for anybody.
ghost use Rattle.std.specs.Prelude.{◌≡◌, map, string_bytes};
ghost use Rattle.k_answers.specs.Answers.{IsAnswered};
ghost use Rattle.k_answers.specs.Parts.{Means};
ghost use Rattle.k_status.specs.Telling.{Answers, IsUnwritten};
ghost use Rattle.k_answers.specs.Commands.{IsReading, WaitsForNobody};

use crate::snapping::snap_file;
use crate::spawning::tree_file;
use k_answers::{Command, audit_file, check_file, command_of, write_usage};
use k_io::{Sink, Source};
use k_run::replay_file;
use k_status::Status;
use std::alloc::Global;

/// Does what the words say where they are `replay`, `check`, `snap`, `audit`, `tree`, or no command. It waits for nobody, so it returns,
/// whatever the source and the sink do.
pub fn answer_at_once<S: Source, K: Sink>(
    alloc: Global,
    words: &[String],
    src: &mut S,
    out: &mut K,
) -> Status
    requires { WaitsForNobody (map string_bytes words.now) }
    ensures answered { IsAnswered (map string_bytes words.now)
        (record { left = S.left src.old; rest = S.left src.new; failed_before = S.faults src.old; failed_after = S.faults src.new })
        (record { agreed = K.Holds out.old; agrees = K.Holds out.new; failed_before = K.faults out.old; failed_after = K.faults out.new })
        result }
    ensures unread { ¬ IsReading (map string_bytes words.now) → src.new ≡ src.old }
    ensures unwritten { IsUnwritten result → out.new ≡ out.old }
{
    tell_at_once(alloc, words, src, out)
}

/// Does what these words say, and tells what its status means of the words and the source.
pub(crate) fn tell_at_once<S: Source, K: Sink>(
    alloc: Global,
    words: &[String],
    src: &mut S,
    out: &mut K,
) -> Status
    requires { WaitsForNobody (map string_bytes words.now) }
    ensures told { Answers
        (Means (map string_bytes words.now) (record { left = S.left src.old; rest = S.left src.new; failed_before = S.faults src.old; failed_after = S.faults src.new }))
        (record { agreed = K.Holds out.old; agrees = K.Holds out.new; failed_before = K.faults out.old; failed_after = K.faults out.new })
        result }
    ensures unread { ¬ IsReading (map string_bytes words.now) → src.new ≡ src.old }
    ensures unwritten { IsUnwritten result → out.new ≡ out.old }
{
    match command_of(words) {
        Some(Command::Replay) => replay_file(alloc, src, out),
        Some(Command::Check) => check_file(alloc, src, out),
        Some(Command::Snap) => snap_file(alloc, src, out),
        Some(Command::Audit) => audit_file(alloc, src, out),
        Some(Command::Tree) => tree_file(alloc, src, out),
        Some(Command::Run) => unreachable!(),
        Some(Command::Big(_)) => unreachable!(),
        Some(Command::Watch(_)) => unreachable!(),
        Some(Command::Work) => unreachable!(),
        None => write_usage(out),
    }
}
