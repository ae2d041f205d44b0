//! Where a process stands among those of a host.
ghost use Rattle.std.specs.Prelude.{◌≡◌, ◌<◌, IfErr, IfOk, None, length, slice_get};

use k_ends::{Guest, HostError};
use k_types::Pid;

/// The place of the process among the guests; `Unknown` comes where it is none of them. Constant time.
pub(crate) fn place_of(guests: &[Guest], pid: Pid) -> Result<usize, HostError>
    ensures place { IfOk result (λ at. (at ≡ pid.0) × (at < length guests.now)) }
    ensures none { IfErr result (λ why. (why ≡ HostError.Unknown) × (slice_get guests.now pid.0 ≡ None)) }
{
    let at = pid.0 as usize;
    if at >= guests.len() {
        return Err(HostError::Unknown);
    }
    Ok(at)
}
