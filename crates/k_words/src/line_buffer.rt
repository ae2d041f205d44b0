//! Lines that are being made.
ghost use Rattle.std.specs.Prelude.{◌≡◌, ℕ, ◌<◌, ◌≤◌, ◌+◌, ◌++◌, ◌∷◌, [], List, length, decimal, OnOk, OnErr};
ghost use Rattle.k_io.specs.Writing.{Writes};
ghost use Rattle.k_words.specs.Spaced.{spaced};

use itoa::Buffer;
use k_io::{NoMemory, Sink, WriteFailed, write_all};
use std::marker::Model;

/// How many bytes a line has at most.
pub(crate) const LINE_ROOM: usize = 1024;

/// A line that is being made, in 1,024 bytes that lie where the buffer lies. The longest line of a
/// report is that of an object, which has at most 984 bytes, and no line that spells a trace is longer. Only
/// `append_to` takes memory.
///
/// Contracts see the bytes of the line so far.
#[derive(Drop)]
pub struct LineBuffer {
    bytes: [u8; LINE_ROOM],
    len: usize,
}

impl Model for LineBuffer {
    ghost use Rattle.std.specs.Prelude.{List, ℕ, ◌≤◌, take};
    ghost use Rattle.k_words.specs.declared.line_buffer.TheConstants.{LINE_ROOM};

    ghost Value = { List ℕ };

    ghost view = { λ l. take l.len l.bytes };

    ghost invariant = { λ l. l.len ≤ LINE_ROOM };
}

impl LineBuffer {
    /// An empty line.
    pub fn new() -> LineBuffer
        ensures { result ≡ [] }
    {
        LineBuffer {
            bytes: [0; LINE_ROOM],
            len: 0,
        }
    }

    /// The bytes.
    fn as_slice(&self) -> &[u8]
        ensures { result.now ≡ self.now }
    {
        &self.bytes[..self.len]
    }

    /// Lets all bytes go.
    fn clear(&mut self)
        ensures { self.new ≡ [] }
    {
        self.len = 0;
    }

    /// Adds bytes.
    pub fn push_text(&mut self, text: &[u8])
        requires { length self.old + length text.now ≤ 1024 }
        ensures { self.new ≡ self.old ++ text.now }
    {
        let len = self.len;
        self.bytes[len..len + text.len()].copy_from_slice(text);
        self.len = len + text.len();
    }

    /// Adds a space and a word.
    pub fn push_word(&mut self, word: &[u8])
        requires { length self.old + length word.now < 1024 }
        ensures { self.new ≡ self.old ++ 32 ∷ word.now }
    {
        self.push_text(b" ");
        self.push_text(word);
    }

    /// Adds two words, each with a space before it.
    pub fn push_words(&mut self, first: &[u8], second: &[u8])
        requires { length self.old + length first.now + length second.now < 1023 }
        ensures text { self.new ≡ self.old ++ spaced (first.now ∷ second.now ∷ []) }
        ensures len { length self.new ≡ length self.old + length first.now + length second.now + 2 }
    {
        self.push_word(first);
        self.push_word(second);
    }

    /// Adds the digits of a number.
    pub fn push_digits(&mut self, number: u64)
        requires { length self.old + 20 ≤ 1024 }
        ensures text { self.new ≡ self.old ++ decimal number }
        ensures short { length self.new ≤ length self.old + 20 }
    {
        let mut buffer = Buffer::new();
        self.push_text(buffer.format(number).as_bytes());
    }

    /// Adds a space and a number.
    pub fn push_number(&mut self, number: u64)
        requires { length self.old + 21 ≤ 1024 }
        ensures text { self.new ≡ self.old ++ 32 ∷ decimal number }
        ensures short { length self.new ≤ length self.old + 21 }
    {
        self.push_text(b" ");
        self.push_digits(number);
    }

    /// Adds the line feed.
    fn end_line(&mut self)
        requires { length self.old < 1024 }
        ensures { self.new ≡ self.old ++ 10 ∷ [] }
    {
        self.push_text(b"\n");
    }

    /// Ends the line with a line feed, adds it to the text, and begins the next. `NoMemory` comes where the text finds
    /// no room; it is left as it was then.
    pub fn append_to(&mut self, text: &mut Vec<u8>) -> Result<(), NoMemory>
        requires { length self.old < 1024 }
        ensures added { OnOk result (text.new.items ≡ text.old.items ++ self.old ++ 10 ∷ []) }
        ensures unchanged { OnErr result (text.new.items ≡ text.old.items) }
        ensures empty { self.new ≡ [] }
    {
        self.end_line();
        let result = text.extend_from_slice(self.as_slice());
        self.clear();
        result?;
        Ok(())
    }

    /// Ends the line with a line feed, hands it over as one piece, and begins the next. `WriteFailed`
    /// comes where a write failed; the sink took a front of the line then.
    pub fn write_to<K: Sink>(&mut self, out: &mut K) -> Result<(), WriteFailed>
        requires { length self.old < 1024 }
        ensures written { Writes (K.Holds out.old) (K.Holds out.new) (K.faults out.old) (K.faults out.new) result (self.old ++ 10 ∷ []) }
        ensures empty { self.new ≡ [] }
    {
        self.end_line();
        let result = write_all(out, self.as_slice());
        self.clear();
        result
    }
}
