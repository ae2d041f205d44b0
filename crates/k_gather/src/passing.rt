//! Bytes handed to a sink, with a count of those that it took.
ghost use Rattle.std.specs.Prelude.{◌≡◌, ◌≤◌, [], length, take, IfErr, IsOk, OnOk};
ghost use Rattle.k_io.specs.Causes.{HasCause};
ghost use Rattle.k_io.specs.Taking.{Takes};

use k_io::Sink;

/// A write failed. Before that so many bytes were taken.
#[derive(Clone, Copy, Debug, PartialEq, Eq)]
pub(crate) struct Stopped {
    pub(crate) taken: usize,
}

/// Hands the bytes to the sink until it has taken them all. What a write did not take is handed to it again.
pub(crate) fn pass<K: Sink>(out: &mut K, bytes: &[u8]) -> Result<(), Stopped>
    ensures ok { OnOk result (Takes (K.Holds out.old) (K.Holds out.new) bytes.now) }
    ensures front { IfErr result (λ stopped. Takes (K.Holds out.old) (K.Holds out.new) (take stopped.taken bytes.now)) }
    ensures within { IfErr result (λ stopped. stopped.taken ≤ length bytes.now) }
    ensures steady { OnOk result (K.faults out.new ≡ K.faults out.old) }
    ensures cause { HasCause (K.faults out.old) (K.faults out.new) result }
    ensures idle { bytes.now ≡ [] → IsOk result }
{
    let mut done = 0;
    while done < bytes.len() {
        match out.write(&bytes[done..]) {
            Ok(taken) => done += taken,
            Err(_) => return Err(Stopped { taken: done }),
        }
    }
    Ok(())
}
