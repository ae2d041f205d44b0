//! Whether a call can be done.
ghost use Rattle.std.specs.Prelude.{◌≤◌, ◌⊎◌, ◌↔◌, IfErr, IsTrue, OnOk};
ghost use Rattle.k_types.specs.TraceRules.{is_spelled};
ghost use Rattle.k_host.specs.CallsRefusals.{Lacks};
ghost use Rattle.k_keeper.specs.Kept.{IsAlive, IsGone};

use k_host::{Host, HostError};
use k_spell::is_spelled;
use k_types::{Op, Pid};

/// Tells that the process is one of the host's and lives. Constant time.
pub(crate) fn alive(host: &Host, pid: Pid) -> Result<(), HostError>
    ensures ok { OnOk result (IsAlive host.now pid) }
    ensures why { IfErr result (λ why. IsGone host.now pid why) }
{
    let Some(ended) = host.has_ended(pid) else {
        return Err(HostError::Unknown);
    };
    if ended {
        return Err(HostError::Ended);
    }
    Ok(())
}

/// Whether so many events are left.
fn is_enough(left: u64, needed: u64) -> bool
    ensures { IsTrue result ↔ (needed ≤ left) }
{
    needed <= left
}

/// Tells that so many events are left.
pub(crate) fn spared(left: u64, needed: u64) -> Result<(), HostError>
    ensures ok { OnOk result (needed ≤ left) }
    ensures why { IfErr result (λ why. Lacks HostError.Reserved (needed ≤ left) why) }
{
    if !is_enough(left, needed) {
        return Err(HostError::Reserved);
    }
    Ok(())
}

/// Tells that the process lives, and that so many events are left.
pub(crate) fn ready(host: &Host, pid: Pid, left: u64, needed: u64) -> Result<(), HostError>
    ensures ok { OnOk result (IsAlive host.now pid × (needed ≤ left)) }
    ensures why { IfErr result (λ why. IsGone host.now pid why ⊎ Lacks HostError.Reserved (needed ≤ left) why) }
{
    alive(host, pid)?;
    spared(left, needed)
}

/// Tells that a line of a trace can have the operation. So whatever the processes ask for, all that the host does can be printed.
#[inline(always)]
pub(crate) fn spelled(op: &Op) -> Result<(), HostError>
    ensures ok { OnOk result (IsTrue (is_spelled op.now)) }
    ensures why { IfErr result (λ why. Lacks HostError.Unknown (IsTrue (is_spelled op.now)) why) }
{
    if !is_spelled(op) {
        return Err(HostError::Unknown);
    }
    Ok(())
}
