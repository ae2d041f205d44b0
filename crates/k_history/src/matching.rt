//! A sink that compares.
ghost use Rattle.std.specs.Prelude.{◌≡◌, ◌<◌, ◌≤◌, ◌-◌, ◌^◌, ℕ, true, List, [], length, IfOk, OnOk, Ok};
ghost use Rattle.k_io.specs.Causes.{HasCause};
ghost use Rattle.k_io.specs.Taking.{WriteTakes};
ghost use Rattle.k_history.specs.Difference.{Compares, compared, difference};

use k_io::{Sink, WriteFailed};
use std::marker::Model;

/// A sink that keeps nothing and compares what is written to it with bytes that were given. No call takes memory, and no
/// write fails.
///
/// Contracts see the bytes that it was made over, how many of them have come, the number of the line that comes next, and
/// whether all that was written is the same; where it is not, that line is the first that differs.
#[derive(Drop)]
pub struct MatchSink<'a> {
    bytes: &'a [u8],
    at: usize,
    line: u32,
    same: bool,
}

impl<'a> Model for MatchSink<'a> {
    ghost use Rattle.std.specs.Prelude.{length, ◌≤◌, ◌<◌, ◌+◌, ◌-◌, ◌^◌};
    ghost use Rattle.k_history.specs.Difference.{Compared};

    ghost Value = { Compared };

    ghost view = { λ s. record { bytes = s.bytes.now; at = s.at; line = s.line; same = s.same } };

    ghost invariant = { λ s. (length s.bytes.now < 2 ^ 32 - 1) × (s.at ≤ length s.bytes.now) × (s.line ≤ s.at + 1) };
}

impl<'a> MatchSink<'a> {
    /// A sink that compares with these bytes, to which nothing was written.
    pub fn over(bytes: &'a [u8]) -> MatchSink<'a>
        requires few { length bytes.now < 2 ^ 32 - 1 }
        ensures { Compares result bytes.now [] }
    {
        MatchSink {
            bytes,
            at: 0,
            line: 1,
            same: true,
        }
    }

    /// Compares the next byte.
    fn compare(&mut self, byte: u8)
        ensures { self.new ≡ compared self.old byte }
    {
        if !self.same || self.at >= self.bytes.len() || byte != self.bytes[self.at] {
            self.same = false;
            return;
        }
        self.at += 1;
        if byte == b'\n' {
            self.line += 1;
        }
    }

    /// The number of the first line, counted from 1, in which the bytes that were given differ from those that were
    /// written; `None` where they are the same. A line that is missing, is too many or lacks its line feed differs.
    pub fn first_difference(&self) -> Option<u32>
        ensures { (given xs : List ℕ) → Compares self.now given xs → result ≡ difference xs given }
    {
        if self.same && self.at == self.bytes.len() {
            None
        } else {
            Some(self.line)
        }
    }
}

impl<'a> Sink for MatchSink<'a> {
    ghost use Rattle.k_history.specs.Difference.{Compares};

    ghost Holds = { λ s given xs. Compares s given xs };

    ghost faults = { λ s. 0 };

    fn write(&mut self, piece: &[u8]) -> Result<usize, WriteFailed>
        requires { 0 < length piece.now }
        ensures bound { IfOk result (λ n. (0 < n) × (n ≤ length piece.now)) }
        ensures bytes { WriteTakes (λ given xs. Compares self.old given xs) (λ given xs. Compares self.new given xs) result piece.now }
        ensures cause { HasCause 0 0 result }
        ensures steady { OnOk result (◌≡◌ {A = ℕ} 0 0) }
        ensures whole { result ≡ Ok (length piece.now) }
    {
        for byte in piece {
            self.compare(*byte);
        }
        Ok(piece.len())
    }
}
