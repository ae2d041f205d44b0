//! A sink in memory, which fails at chosen calls.
ghost use Rattle.std.specs.Prelude.{◌≡◌, ◌≤◌, ◌<◌, [], length, IfOk, OnOk, IsErr, IsTrue, ◌↔◌, min};
ghost use Rattle.k_io.specs.Causes.{HasCause};
ghost use Rattle.k_io.specs.Taking.{WriteTakes};
ghost use Rattle.k_io.specs.Memory.{SinkState, refuses, after_write};

use crate::calls::is_listed;
use crate::{NoMemory, Sink, WriteFailed};
use std::alloc::Global;
use std::marker::Model;

/// A sink in memory with a fixed room, which fails at chosen calls and where it is full, and at no
/// other. It takes as much of a piece as there is room for.
#[derive(Drop)]
pub struct MemSink {
    bytes: Vec<u8>,
    room: usize,
    fails: Vec<u32>,
    calls: u64,
    faults: u64,
}

impl Model for MemSink {
    ghost use Rattle.std.specs.Prelude.{length, ◌≤◌, ◌-◌, vec_capacity};
    ghost use Rattle.k_io.specs.Memory.{SinkState};

    ghost Value = { SinkState };

    ghost view = { λ s. record { taken = s.bytes.items; space = s.room - length s.bytes.items; fails = s.fails.items; calls = s.calls; faults = s.faults } };

    ghost invariant = { λ s. (length s.bytes.items ≤ s.room) × (s.room ≤ vec_capacity s.bytes) };
}

impl MemSink {
    /// Takes up to `room` bytes. The writes whose numbers, from 1, are in `fails` fail.
    ///
    /// # Errors
    ///
    /// `NoMemory` where the room could not be allocated. No write takes memory.
    pub fn make(alloc: Global, room: usize, fails: Vec<u32>) -> Result<MemSink, NoMemory>
        ensures { IfOk result (λ s. s ≡ record { taken = []; space = room; fails = fails.items; calls = 0; faults = 0 }) }
    {
        let bytes = Vec::with_capacity(alloc, room)?;
        Ok(MemSink {
            bytes,
            room,
            fails,
            calls: 0,
            faults: 0,
        })
    }

    /// The bytes that were taken.
    pub fn bytes(&self) -> &[u8]
        ensures { result.now ≡ self.now.taken }
    {
        &self.bytes
    }
}

impl Sink for MemSink {
    ghost Holds = { λ s given xs. xs ≡ s.taken };

    ghost faults = { λ s. s.faults };

    fn write(&mut self, piece: &[u8]) -> Result<usize, WriteFailed>
        requires { 0 < length piece.now }
        ensures bound { IfOk result (λ n. (0 < n) × (n ≤ length piece.now)) }
        ensures bytes { WriteTakes (λ given xs. xs ≡ self.old.taken) (λ given xs. xs ≡ self.new.taken) result piece.now }
        ensures cause { HasCause self.old.faults self.new.faults result }
        ensures steady { OnOk result (self.new.faults ≡ self.old.faults) }
        ensures answer { IsErr result ↔ IsTrue (refuses self.old) }
        ensures count { IfOk result (λ n. n ≡ min (length piece.now) self.old.space) }
        ensures after { self.new ≡ after_write self.old piece.now }
    {
        self.calls = self.calls.saturating_add(1);
        let space = self.room - self.bytes.len();
        if is_listed(&self.fails, self.calls) || space == 0 {
            self.faults = self.faults.saturating_add(1);
            return Err(WriteFailed);
        }
        let count = piece.len().min(space);
        match self.bytes.extend_from_slice(&piece[..count]) {
            Ok(()) => Ok(count),
            Err(_) => unreachable!(),
        }
    }
}
