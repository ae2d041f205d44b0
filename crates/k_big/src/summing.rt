//! The summary of a run.
ghost use Rattle.std.specs.Prelude.{◌≡◌, ◌<◌, ◌≤◌, ◌+◌, ◌++◌, ◌∷◌, length};
ghost use Rattle.std.specs.List.{join_with_byte};
ghost use Rattle.k_io.specs.Writing.{Writes};
ghost use Rattle.k_big.specs.Summary.{HasSmallCharges, charges_of, count_words, summary_over};

use crate::counting::counts_of;
use k_io::{Sink, WriteFailed};
use k_text::View;
use k_types::{Heap, LimitId, Pid};
use k_words::LineBuffer;

/// What all processes together are charged, in bytes.
fn charges_of<V: View>(view: &V) -> u64
    requires { HasSmallCharges (V.trace view.now) (V.state view.now) }
    ensures { result ≡ charges_of (V.trace view.now) (V.state view.now) }
{
    let mut sum = 0;
    for pid in 0..view.procs() {
        sum += view.charge(Pid(pid));
    }
    sum
}

/// Ends the line, and adds a line of a word and a number without its end.
fn push_next(text: &mut LineBuffer, word: &[u8], number: u64)
    requires { length text.old + length word.now + 22 ≤ 1024 }
    ensures text { text.new ≡ text.old ++ 10 ∷ join_with_byte 32 (count_words word.now number) }
    ensures short { length text.new ≤ length text.old + length word.now + 22 }
{
    text.push_text(b"\n");
    text.push_text(word);
    text.push_number(number);
}

/// Writes the summary of a run where each process was to make so many objects: what the journal comes to, and the bytes that the
/// final state has. Each number is counted from what the view shows.
///
/// The text goes to the sink as one piece, and what a write did not take is handed on again. The work goes with the number of
/// events. It takes no memory.
///
/// # Errors
///
/// `WriteFailed` where a write failed; a front of the text was taken then.
pub fn summary<K: Sink, V: View>(out: &mut K, objects: u32, view: &V) -> Result<(), WriteFailed>
    requires limits { 0 < length (V.trace view.now).limits }
    requires charges { HasSmallCharges (V.trace view.now) (V.state view.now) }
    ensures { Writes (K.Holds out.old) (K.Holds out.new) (K.faults out.old) (K.faults out.new) result (summary_over objects (V.trace view.now) (V.events view.now) (V.state view.now)) }
{
    let counts = counts_of(view);
    let mut text = LineBuffer::new();
    text.push_text(b"big");
    text.push_number(u64::from(objects));
    push_next(&mut text, b"operations", u64::from(counts.operations));
    push_next(&mut text, b"events", u64::from(view.events()));
    push_next(&mut text, b"faults", u64::from(counts.faults));
    push_next(&mut text, b"freed", counts.freed);
    push_next(&mut text, b"kernel", view.bytes(Heap::Kernel));
    push_next(&mut text, b"live", charges_of(view));
    push_next(&mut text, b"root", view.use_of(LimitId(0)));
    text.write_to(out)
}
