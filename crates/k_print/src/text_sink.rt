//! A sink that keeps all that it takes, in memory that grows.
ghost use Rattle.std.specs.Prelude.{◌≡◌, ◌<◌, []};

use k_io::{NoMemory, Sink, WriteFailed};
use std::alloc::Global;
use std::marker::Model;

/// What was taken, how many writes found no memory, and what the last of these was refused. No write fails for another reason.
#[derive(Drop)]
pub(crate) struct TextSink {
    bytes: Vec<u8>,
    faults: u64,
    refused: Option<NoMemory>,
}

impl Model for TextSink {
    ghost use Rattle.std.specs.Prelude.{◌≡◌, ◌⊎◌, IsTrue, is_some};
    ghost use Rattle.k_print.specs.Taken.{TakenValue};

    ghost Value = { TakenValue };

    ghost view = { λ s. record { taken = s.bytes.items; faults = s.faults } };

    ghost invariant = { λ s. (s.faults ≡ 0) ⊎ IsTrue (is_some s.refused) };
}

impl TextSink {
    /// A sink that has taken nothing.
    pub(crate) fn make(alloc: Global) -> TextSink
        ensures taken { result.taken ≡ [] }
        ensures faults { result.faults ≡ 0 }
    {
        TextSink {
            bytes: Vec::new(alloc),
            faults: 0,
            refused: None,
        }
    }

    /// What was taken.
    pub(crate) fn into_bytes(self) -> Vec<u8>
        ensures { result.items ≡ self.taken }
    {
        let TextSink {
            bytes,
            faults: _,
            refused: _,
        } = self;
        bytes
    }

    /// What a write was refused.
    pub(crate) fn into_refused(self) -> NoMemory
        requires { 0 < self.faults }
    {
        let TextSink {
            bytes: _,
            faults: _,
            refused,
        } = self;
        match refused {
            Some(refused) => refused,
            None => unreachable!(),
        }
    }
}

impl Sink for TextSink {
    ghost Holds = { λ s given xs. xs ≡ s.taken };

    ghost faults = { λ s. s.faults };

    fn write(&mut self, piece: &[u8]) -> Result<usize, WriteFailed> {
        match self.bytes.extend_from_slice(piece) {
            Ok(()) => Ok(piece.len()),
            Err(why) => {
                self.faults = self.faults.saturating_add(1);
                self.refused = Some(NoMemory::from(why));
                Err(WriteFailed)
            }
        }
    }
}
