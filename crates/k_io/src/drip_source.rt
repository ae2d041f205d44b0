//! A source in memory that gives one byte a call.
ghost use Rattle.std.specs.Prelude.{◌≡◌, ◌<◌, Some, length, IfOk, OnOk, IsErr, IsTrue, ◌↔◌, min};
ghost use Rattle.std.specs.Io.{ReadsAtMost};
ghost use Rattle.std.specs.Io.KnownBytes.{ReadConsumes};
ghost use Rattle.k_io.specs.Causes.{HasCause};
ghost use Rattle.k_io.specs.Memory.{is_due, one_more};

use crate::{MemSource, ReadFailed, Source};
use std::marker::Model;

/// A source over bytes in memory that gives one byte a call, and fails at chosen calls and at no other.
#[derive(Drop)]
pub struct DripSource {
    inner: MemSource,
}

impl Model for DripSource {
    ghost use Rattle.k_io.specs.Memory.{SourceState};

    ghost Value = { SourceState };

    ghost view = { λ s. s.inner };
}

impl DripSource {
    /// Gives these bytes. The reads whose numbers, from 1, are in `fails` fail. Takes no memory.
    pub fn of(bytes: Vec<u8>, fails: Vec<u32>) -> DripSource
        ensures { result ≡ record { left = bytes.items; fails = fails.items; calls = 0; faults = 0 } }
    {
        DripSource {
            inner: MemSource::of(bytes, fails),
        }
    }
}

impl Source for DripSource {
    ghost left = { λ s. Some s.left };

    ghost faults = { λ s. s.faults };

    fn read(&mut self, into: &mut [u8]) -> Result<usize, ReadFailed>
        requires { 0 < length into.old }
        ensures bound { ReadsAtMost result into.new }
        ensures bytes { ReadConsumes (Some self.old.left) (Some self.new.left) result into.new }
        ensures cause { HasCause self.old.faults self.new.faults result }
        ensures due { IsErr result ↔ IsTrue (is_due self.old.fails self.old.calls) }
        ensures count { IfOk result (λ n. n ≡ min 1 (length self.old.left)) }
        ensures calls { self.new.calls ≡ one_more self.old.calls }
        ensures steady { OnOk result (self.new.faults ≡ self.old.faults) }
        ensures kept { self.new.fails ≡ self.old.fails }
    {
        self.inner.read(&mut into[..1])
    }
}
