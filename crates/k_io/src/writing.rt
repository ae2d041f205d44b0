//! A text written whole to a sink.
ghost use Rattle.k_io.specs.Writing.{Writes};

use crate::{Sink, WriteFailed};

/// Hands the bytes to the sink until it has taken them all. What a write did not take is handed
/// again. Takes no memory.
///
/// # Errors
///
/// `WriteFailed` at the first write that fails. The sink then has taken a front of the bytes.
pub fn write_all<K: Sink>(out: &mut K, bytes: &[u8]) -> Result<(), WriteFailed>
    ensures { Writes (K.Holds out.old) (K.Holds out.new) (K.faults out.old) (K.faults out.new) result bytes.now }
{
    let mut done = 0;
    while done < bytes.len() {
        done += out.write(&bytes[done..])?;
    }
    Ok(())
}
