//! The faults of operations on other processes and on limits.
ghost use Rattle.std.specs.Prelude.{◌≡◌, ◌<◌, length};
ghost use Rattle.k_types.specs.Bounds.{maximum_below};
ghost use Rattle.k_types.specs.Limits.{is_above};
ghost use Rattle.k_types.specs.Replies.{ends_other, faults, first_fault, may_resize};
ghost use Rattle.k_types.specs.Trace.{process_count};
ghost use Rattle.k_types.specs.declared.op.Op.TheVariants.{Kill, Resize};

use crate::firsts::{fault_where, first_of};
use k_state::PlainLists;
use k_types::{Fault, LimitId, Pid};

// Whether the limit of the other process is below that of the process.
fn is_above(lists: &PlainLists, pid: Pid, other: Pid) -> bool
    requires process { pid.0 < process_count lists.now.setup }
    requires other { other.0 < process_count lists.now.setup }
    ensures { result ≡ is_above lists.now.setup pid.0 other.0 }
{
    lists.is_ancestor(lists.limit_of(pid), lists.limit_of(other))
}

// Whether the process ends the other one when it kills it.
pub(crate) fn ends_other(lists: &PlainLists, pid: Pid, other: Pid) -> bool
    requires process { pid.0 < process_count lists.now.setup }
    requires other { other.0 < process_count lists.now.setup }
    ensures { result ≡ ends_other lists.now.setup lists.now.state pid.0 other.0 }
{
    is_above(lists, pid, other) && lists.lives(other)
}

// The fault of a `kill`.
#[tactic(auto, unfolding(k_types::specs::Replies::faults))]
pub(crate) fn kill_fault(lists: &PlainLists, pid: Pid, target: Pid) -> Option<Fault>
    requires process { pid.0 < process_count lists.now.setup }
    requires target { target.0 < process_count lists.now.setup }
    ensures { result ≡ first_fault (faults lists.now.setup lists.now.state pid.0 (Kill target)) }
{
    let may = is_above(lists, pid, target);
    first_of(&[fault_where(!may, Fault::ProcNotBelow(target))])
}

// Whether the limit is below that of the process.
fn may_resize(lists: &PlainLists, pid: Pid, limit: LimitId) -> bool
    requires process { pid.0 < process_count lists.now.setup }
    requires limit { limit.0 < length lists.now.setup.limits }
    ensures { result ≡ may_resize lists.now.setup pid.0 limit.0 }
{
    lists.is_ancestor(lists.limit_of(pid), limit)
}

// The first fault of a `resize`. Only a limit below that of the process is measured.
#[tactic(auto, using(crate::proofs::Used::used_past), unfolding(k_types::specs::Replies::faults, k_types::specs::Replies::first_fault, k_types::specs::Replies::fault_where))]
pub(crate) fn resize_fault(lists: &PlainLists, pid: Pid, limit: LimitId, max: u64) -> Option<Fault>
    requires process { pid.0 < process_count lists.now.setup }
    requires limit { limit.0 < length lists.now.setup.limits }
    requires max { max < maximum_below }
    ensures { result ≡ first_fault (faults lists.now.setup lists.now.state pid.0 (Resize limit max)) }
{
    if !may_resize(lists, pid, limit) {
        return Some(Fault::LimitNotBelow(limit));
    }
    match lists.full_for(limit, max) {
        Some(full) => Some(Fault::LimitFull(full)),
        None => fault_where(max < lists.use_of(limit), Fault::InUse(limit)),
    }
}
