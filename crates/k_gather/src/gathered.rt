//! The sink that gathers.
ghost use Rattle.std.specs.Prelude.{◌≡◌, ◌≤◌, ◌<◌, ◌+◌, ◌++◌, [], length, IfOk, IsOk, OnOk};
ghost use Rattle.k_gather.specs.Gathering.{Gathers, Keeps};
ghost use Rattle.k_io.specs.Causes.{HasCause};
ghost use Rattle.k_io.specs.Taking.{WriteTakes};
ghost use Rattle.k_io.specs.Writing.{Writes};

use crate::buffer::{Buffer, ROOM};
use crate::names::SinkName;
use crate::passing::pass;
use k_io::{Sink, WriteFailed};
use std::marker::PhantomData;

/// A sink before the sink of this name. It keeps what is written to it, up to 8,192 bytes, and hands that on where the next piece does not
/// fit behind it; a piece that is longer than that is handed on as it is. What is gathered when it is dropped is lost: see
/// [`Gathered::hand_on`].
///
/// Where a write of the sink behind it fails, so does the write that asked for it. What the sink behind did not take stays gathered, and of
/// the new piece nothing is taken.
#[derive(Drop)]
pub struct Gathered<'a, K, N: SinkName> {
    inner: &'a mut K,
    held: Buffer,
    of: PhantomData<N>,
    pub ghost same_sink: { inner.ghost_name ≡ N.name },
}

impl<'a, K: Sink, N: SinkName> Gathered<'a, K, N> {
    /// A sink that hands on to this one. Nothing is gathered yet.
    pub fn over(inner: &'a mut K) -> Gathered<'a, K, N>
        requires { inner.ghost_name ≡ N.name }
        ensures inner { result.inner.now ≡ inner.old }
        ensures empty { result.held ≡ [] }
    {
        Gathered {
            inner,
            held: Buffer::new(),
            of: PhantomData,
        }
    }

    /// The sink behind. What is still gathered is lost.
    pub fn into_inner(self) -> &'a mut K
        ensures same_sink { result.ghost_name ≡ self.entry.inner.ghost_name }
        ensures inner { result.now ≡ self.entry.inner.now }
    {
        let Gathered {
            inner,
            held: _,
            of: _,
        } = self;
        inner
    }

    /// Hands on all that is gathered.
    ///
    /// # Errors
    ///
    /// `WriteFailed` at the first write that fails. What was not taken stays gathered.
    pub fn hand_on(&mut self) -> Result<(), WriteFailed>
        ensures written { Writes (K.Holds self.old.inner.now) (K.Holds self.new.inner.now) (K.faults self.old.inner.now) (K.faults self.new.inner.now) result self.old.held }
        ensures kept { Keeps (Gathers (K.Holds self.old.inner.now) self.old.held) (Gathers (K.Holds self.new.inner.now) self.new.held) }
        ensures empty { OnOk result (self.new.held ≡ []) }
        ensures idle { self.old.held ≡ [] → IsOk result }
    {
        match pass(self.inner, self.held.as_slice()) {
            Ok(()) => {
                self.held.clear();
                Ok(())
            }
            Err(stopped) => {
                self.held.let_go(stopped.taken);
                Err(WriteFailed)
            }
        }
    }

    /// Hands on what is gathered where so many bytes more do not fit behind it, and else does nothing. A piece that is longer than the
    /// buffer finds nothing gathered.
    fn make_room(&mut self, count: usize) -> Result<(), WriteFailed>
        ensures kept { Keeps (Gathers (K.Holds self.old.inner.now) self.old.held) (Gathers (K.Holds self.new.inner.now) self.new.held) }
        ensures steady { OnOk result (K.faults self.new.inner.now ≡ K.faults self.old.inner.now) }
        ensures cause { HasCause (K.faults self.old.inner.now) (K.faults self.new.inner.now) result }
        ensures fits { OnOk result (count ≤ ROOM → length self.new.held + count ≤ ROOM) }
        ensures empty { OnOk result (ROOM < count → self.new.held ≡ []) }
        ensures unneeded { length self.old.held + count ≤ ROOM → IsOk result × (self.new ≡ self.old) }
    {
        if count <= self.held.room() {
            return Ok(());
        }
        self.hand_on()
    }
}

impl<'a, K: Sink, N: SinkName> Sink for Gathered<'a, K, N> {
    ghost Holds = { λ g given xs. Gathers (K.Holds g.inner.now) g.held given xs };

    ghost faults = { λ g. K.faults g.inner.now };

    fn write(&mut self, piece: &[u8]) -> Result<usize, WriteFailed>
        requires { 0 < length piece.now }
        ensures bound { IfOk result (λ n. (0 < n) × (n ≤ length piece.now)) }
        ensures bytes { WriteTakes (Gathers (K.Holds self.old.inner.now) self.old.held) (Gathers (K.Holds self.new.inner.now) self.new.held) result piece.now }
        ensures cause { HasCause (K.faults self.old.inner.now) (K.faults self.new.inner.now) result }
        ensures steady { OnOk result (K.faults self.new.inner.now ≡ K.faults self.old.inner.now) }
        ensures gathered { length self.old.held + length piece.now ≤ ROOM → (self.new.inner.now ≡ self.old.inner.now) × (self.new.held ≡ self.old.held ++ piece.now) }
    {
        self.make_room(piece.len())?;
        if piece.len() > ROOM {
            return self.inner.write(piece);
        }
        self.held.append(piece);
        Ok(piece.len())
    }
}
