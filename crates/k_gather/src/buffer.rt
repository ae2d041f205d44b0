//! Bytes that were gathered and not yet handed on.
ghost use Rattle.std.specs.Prelude.{◌≡◌, ◌≤◌, ◌+◌, ◌++◌, [], length, drop};

use std::marker::Model;

/// How many bytes are gathered at most.
pub(crate) const ROOM: usize = 8192;

/// Bytes in order, as many as there is room for. It takes no memory beside its own.
#[derive(Drop)]
pub(crate) struct Buffer {
    bytes: [u8; ROOM],
    len: usize,
}

impl Model for Buffer {
    ghost use Rattle.std.specs.Prelude.{ℕ, List, ◌≤◌, take};
    ghost use Rattle.k_gather.specs.declared.buffer.TheConstants.{ROOM};

    ghost Value = { List ℕ };

    ghost view = { λ b. take b.len b.bytes };

    ghost invariant = { λ b. b.len ≤ ROOM };
}

impl Buffer {
    /// No bytes.
    pub(crate) fn new() -> Buffer
        ensures { result ≡ [] }
    {
        Buffer {
            bytes: [0; ROOM],
            len: 0,
        }
    }

    /// The bytes.
    pub(crate) fn as_slice(&self) -> &[u8]
        ensures { result.now ≡ self.now }
    {
        &self.bytes[..self.len]
    }

    /// How many bytes more there is room for.
    pub(crate) fn room(&self) -> usize
        ensures { length self.now + result ≡ ROOM }
    {
        ROOM - self.len
    }

    /// Puts the bytes behind those that are there.
    pub(crate) fn append(&mut self, more: &[u8])
        requires { length self.old + length more.now ≤ ROOM }
        ensures { self.new ≡ self.old ++ more.now }
    {
        let len = self.len;
        self.bytes[len..len + more.len()].copy_from_slice(more);
        self.len = len + more.len();
    }

    /// Lets all bytes go.
    pub(crate) fn clear(&mut self)
        ensures { self.new ≡ [] }
    {
        self.len = 0;
    }

    /// Lets the first bytes go, and moves the others to the front.
    pub(crate) fn let_go(&mut self, count: usize)
        requires { count ≤ length self.old }
        ensures { self.new ≡ drop count self.old }
    {
        let len = self.len;
        self.bytes.copy_within(count..len, 0);
        self.len = len - count;
    }
}
