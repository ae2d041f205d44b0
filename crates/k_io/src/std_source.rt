//! A source over a reader of the standard library.
ghost use Rattle.std.specs.Prelude.{◌≡◌};

use crate::adapted::read_answer;
use crate::{ReadFailed, Source};
use std::io::Read;

/// A reader of the standard library, with a count of its errors. It tells the bytes that the
/// reader tells: none over standard input.
#[derive(Drop)]
pub struct StdSource<R> {
    inner: R,
    faults: u64,
}

impl<R: Read> StdSource<R> {
    /// Reads from this reader. No error was seen yet.
    pub fn of(inner: R) -> StdSource<R>
        ensures reader { result.inner ≡ inner }
        ensures count { result.faults ≡ 0 }
    {
        StdSource { inner, faults: 0 }
    }
}

impl<R: Read> Source for StdSource<R> {
    ghost left = { λ s. R.remaining s.inner };

    ghost faults = { λ s. s.faults };

    fn read(&mut self, into: &mut [u8]) -> Result<usize, ReadFailed> {
        read_answer(self.inner.read(into), &mut self.faults)
    }
}
