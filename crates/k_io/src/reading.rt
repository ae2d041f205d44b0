//! A source read to its end, or up to a limit.
ghost use Rattle.std.specs.Prelude.{◌≡◌, ◌<◌, ◌≤◌, ◌+◌, ◌^◌, IfOk, OnOk, IsErrOf, vec_len};
ghost use Rattle.std.specs.Io.KnownBytes.{Consumes, IsAtEnd};
ghost use Rattle.k_io.specs.Causes.{RoseOrLast};

use crate::{NoMemory, Source};
use std::alloc::Global;

/// How many bytes are asked for at once.
const PIECE: usize = 4096;

/// Why a source was not read to its end.
#[derive(Clone, Copy, Debug, PartialEq, Eq)]
pub enum ReadAllError {
    /// Memory ran out.
    NoMemory(NoMemory),
    /// The source failed.
    ReadFault,
}

/// All bytes up to the end of input; or, where there are more than `limit`, the first `limit + 1`.
///
/// # Errors
///
/// `ReadFault` at the first read that fails, and `NoMemory` where the bytes found no room. What
/// was read until then is lost.
pub fn read_all<S: Source>(
    alloc: Global,
    src: &mut S,
    limit: usize,
) -> Result<Vec<u8>, ReadAllError>
    requires { limit < 2 ^ 32 }
    ensures bound { IfOk result (λ v. vec_len v ≤ limit + 1) }
    ensures bytes { IfOk result (λ v. Consumes (S.left src.old) (S.left src.new) v.items) }
    ensures end { IfOk result (λ v. vec_len v ≤ limit → IsAtEnd (S.left src.new)) }
    ensures steady { OnOk result (S.faults src.new ≡ S.faults src.old) }
    ensures later { S.faults src.old ≤ S.faults src.new }
    ensures fault { IsErrOf result ReadAllError.ReadFault → RoseOrLast (S.faults src.old) (S.faults src.new) }
{
    let mut all = Vec::new(alloc);
    let mut buffer = [0u8; PIECE];
    while all.len() <= limit {
        let wanted = (limit + 1 - all.len()).min(PIECE);
        match src.read(&mut buffer[..wanted]) {
            Ok(0) => return Ok(all),
            Ok(count) => {
                if let Err(refused) = all.extend_from_slice(&buffer[..count]) {
                    return Err(ReadAllError::NoMemory(NoMemory::from(refused)));
                }
            }
            Err(_) => return Err(ReadAllError::ReadFault),
        }
    }
    Ok(all)
}
