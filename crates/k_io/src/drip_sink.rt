//! A sink in memory that takes one byte a call.
ghost use Rattle.std.specs.Prelude.{◌≡◌, ◌≤◌, ◌<◌, [], length, take, IfOk, OnOk, IsErr, IsTrue, ◌↔◌};
ghost use Rattle.k_io.specs.Causes.{HasCause};
ghost use Rattle.k_io.specs.Taking.{WriteTakes};
ghost use Rattle.k_io.specs.Memory.{refuses, after_write};

use crate::{MemSink, NoMemory, Sink, WriteFailed};
use std::alloc::Global;
use std::marker::Model;

/// A sink in memory with a fixed room that takes one byte a call. It fails at chosen calls and where it is full, and at
/// no other.
#[derive(Drop)]
pub struct DripSink {
    inner: MemSink,
}

impl Model for DripSink {
    ghost use Rattle.k_io.specs.Memory.{SinkState};

    ghost Value = { SinkState };

    ghost view = { λ s. s.inner };
}

impl DripSink {
    /// Takes up to `room` bytes. The writes whose numbers, from 1, are in `fails` fail.
    ///
    /// # Errors
    ///
    /// `NoMemory` where the room could not be allocated. No write takes memory.
    pub fn make(alloc: Global, room: usize, fails: Vec<u32>) -> Result<DripSink, NoMemory>
        ensures { IfOk result (λ s. s ≡ record { taken = []; space = room; fails = fails.items; calls = 0; faults = 0 }) }
    {
        let inner = MemSink::make(alloc, room, fails)?;
        Ok(DripSink { inner })
    }

    /// The bytes that were taken.
    pub fn bytes(&self) -> &[u8]
        ensures { result.now ≡ self.now.taken }
    {
        self.inner.bytes()
    }
}

impl Sink for DripSink {
    ghost Holds = { λ s given xs. xs ≡ s.taken };

    ghost faults = { λ s. s.faults };

    fn write(&mut self, piece: &[u8]) -> Result<usize, WriteFailed>
        requires { 0 < length piece.now }
        ensures bound { IfOk result (λ n. (0 < n) × (n ≤ length piece.now)) }
        ensures bytes { WriteTakes (λ given xs. xs ≡ self.old.taken) (λ given xs. xs ≡ self.new.taken) result piece.now }
        ensures cause { HasCause self.old.faults self.new.faults result }
        ensures steady { OnOk result (self.new.faults ≡ self.old.faults) }
        ensures answer { IsErr result ↔ IsTrue (refuses self.old) }
        ensures count { IfOk result (λ n. n ≡ 1) }
        ensures after { self.new ≡ after_write self.old (take 1 piece.now) }
    {
        self.inner.write(&piece[..1])
    }
}
