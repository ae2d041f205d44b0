//! The words of the program that runs traces alone, and what it does at them.
ghost use Rattle.std.specs.Prelude.{◌≡◌, map, string_bytes};
ghost use Rattle.k_run.specs.Tellings.{TellsOfWords};
ghost use Rattle.k_run.specs.Words.{IsNoOrder, order_named, order_of, usage_text};
ghost use Rattle.k_status.specs.Telling.{Answers, IsUnwritten, IsWritten};

use crate::commands::{replay_file, run_file};
use k_io::{Gate, Sink, Source, write_all};
use k_status::{Status, after_writing};
use std::alloc::Global;
use std::sync::Wait;
use std::thread::Threads;

/// In which order the operations of a trace are done.
#[derive(Clone, Copy)]
pub enum Order {
    /// As the threads come to it that work for the processes.
    OnThreads,
    /// In the order of the file, on the caller's thread.
    OfFile,
}

/// The order that the words ask for, those after the program's name; `None` where they ask for none.
pub fn order_of(words: &[String]) -> Option<Order>
    ensures { result ≡ order_of (map string_bytes words.now) }
{
    match words {
        [word] => order_named(word.as_str()),
        _ => None,
    }
}

/// The order that the word asks for.
fn order_named(word: &str) -> Option<Order>
    ensures { result ≡ order_named word.now }
{
    match word {
        "run" => Some(Order::OnThreads),
        "replay" => Some(Order::OfFile),
        _ => None,
    }
}

/// Writes how the program is called, as one piece.
fn write_usage<K: Sink>(out: &mut K) -> Status
    ensures { IsWritten
        (record { agreed = K.Holds out.old; agrees = K.Holds out.new; failed_before = K.faults out.old; failed_after = K.faults out.new })
        Status.Usage usage_text result }
{
    let written = write_all(out, b"usage: kaffe_run run | replay\n");
    after_writing(Status::Usage, written)
}

/// Runs the trace that the source gives in the order that the words ask for, and writes its report.
///
/// With `run` it waits for the locks of the heaps and tells the gate where the threads stand; with `replay` it waits for nobody, and calls
/// no gate. Where the words ask for no order the source is not read.
pub fn runner<S: Source, K: Sink, G: Gate, R: Threads + Wait + Sync>(
    rt: &R,
    alloc: Global,
    words: &[String],
    src: &mut S,
    out: &mut K,
    gate: &G,
) -> Status
    ensures told { Answers
        (TellsOfWords (map string_bytes words.now) (record { left = S.left src.old; rest = S.left src.new; failed_before = S.faults src.old; failed_after = S.faults src.new }))
        (record { agreed = K.Holds out.old; agrees = K.Holds out.new; failed_before = K.faults out.old; failed_after = K.faults out.new })
        result }
    ensures unread { IsNoOrder (map string_bytes words.now) → src.new ≡ src.old }
    ensures unwritten { IsUnwritten result → out.new ≡ out.old }
{
    match order_of(words) {
        Some(Order::OnThreads) => run_file(rt, alloc, src, out, gate),
        Some(Order::OfFile) => replay_file(alloc, src, out),
        None => write_usage(out),
    }
}
