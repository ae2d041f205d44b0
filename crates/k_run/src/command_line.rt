//! The program that runs traces alone, but for its streams: from the arguments of the command line to an exit status.
ghost use Rattle.std.specs.Process.{exit_status};
ghost use Rattle.k_run.specs.Tellings.{TellsOfWords};
ghost use Rattle.k_status.specs.Arguments.{words_of};
ghost use Rattle.k_status.specs.Telling.{Answers, EndsWith};

use crate::gathering::gathered_call;
use k_io::{Gate, Sink, Source};
use k_status::{exit_code, want_of_memory, words_after_name};
use std::alloc::Global;
use std::env::Args;
use std::io;
use std::marker::Brand;
use std::process::ExitCode;
use std::sync::Wait;
use std::thread::Threads;

/// Runs a trace as the arguments say, and gives the exit status of the program, the number of its answer.
///
/// The first argument is the program's name. Arguments that are not UTF-8 ask for no order.
pub fn program<S: Source, K: Sink, G: Gate, R: Threads + Wait + Sync>(
    rt: &R,
    alloc: Global,
    args: io::Result<Args>,
    src: &mut S,
    out: &mut K,
    gate: &G,
) -> ExitCode
    ensures { EndsWith
        (Answers (TellsOfWords (words_of args) (record { left = S.left src.old; rest = S.left src.new; failed_before = S.faults src.old; failed_after = S.faults src.new }))
        (record { agreed = K.Holds out.old; agrees = K.Holds out.new; failed_before = K.faults out.old; failed_after = K.faults out.new }))
        (record { agreed = K.Holds out.old; agrees = K.Holds out.new; failed_before = K.faults out.old; failed_after = K.faults out.new })
        (exit_status result) }
{
    match words_after_name(alloc, args) {
        Ok(words) => {
            let (status, _out) = gathered_call::<Brand, S, K, G, R>(
                rt, alloc, &words, src, out, gate,
            );
            exit_code(status)
        }
        Err(refused) => exit_code(want_of_memory(refused)),
    }
}
