//! A sink over a writer of the standard library.
ghost use Rattle.std.specs.Prelude.{◌≡◌};

use crate::adapted::write_answer;
use crate::{Sink, WriteFailed};
use std::io::Write;

/// A writer of the standard library, with a count of its errors. Taking nothing is one. It tells
/// the bytes that the writer tells: none over standard output.
#[derive(Drop)]
pub struct StdSink<W> {
    inner: W,
    faults: u64,
}

impl<W: Write> StdSink<W> {
    /// Writes to this writer. No error was seen yet.
    pub fn of(inner: W) -> StdSink<W>
        ensures writer { result.inner ≡ inner }
        ensures count { result.faults ≡ 0 }
    {
        StdSink { inner, faults: 0 }
    }
}

impl<W: Write> Sink for StdSink<W> {
    ghost use Rattle.k_io.specs.Known.{IsKnown};

    ghost Holds = { λ s given xs. IsKnown (W.contents s.inner) xs };

    ghost faults = { λ s. s.faults };

    fn write(&mut self, piece: &[u8]) -> Result<usize, WriteFailed> {
        write_answer(self.inner.write(piece), &mut self.faults)
    }
}
