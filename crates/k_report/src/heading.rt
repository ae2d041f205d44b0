//! The lines that are the same in every report.
ghost use Rattle.std.specs.Prelude.{◌≡◌, ◌<◌, ◌++◌, ◌∷◌, [], length};
ghost use Rattle.k_io.specs.Writing.{Writes};

use k_io::{Sink, WriteFailed};
use k_words::LineBuffer;

/// Writes a line that is known.
pub fn heading<K: Sink>(out: &mut K, line: &mut LineBuffer, text: &[u8]) -> Result<(), WriteFailed>
    requires empty { line.old ≡ [] }
    requires room { length text.now < 1024 }
    ensures written { Writes (K.Holds out.old) (K.Holds out.new) (K.faults out.old) (K.faults out.new) result (text.now ++ 10 ∷ []) }
    ensures empty { line.new ≡ [] }
{
    line.push_text(text);
    line.write_to(out)
}
