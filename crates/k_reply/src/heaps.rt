//! The faults of operations that want bytes or a shared heap.
ghost use Rattle.std.specs.Prelude.{◌≡◌, ◌<◌, ◌∷◌, [], nat_lt, not, length, IsTrue};
ghost use Rattle.k_types.specs.Replies.{faults, first_fault, is_frozen, is_populating, is_unmade, size_fault};
ghost use Rattle.k_types.specs.Trace.{process_count};
ghost use Rattle.k_types.specs.declared.op.Op.TheVariants.{Attach, Freeze, KNew, New, SNew, Share};

use crate::firsts::{fault_where, first_of};
use k_state::{PlainLists, is_same_heap};
use k_types::{Fault, Heap, Phase, Pid, Reg, SharedId, TypeId};

fn is_unmade(phase: Phase) -> bool
    ensures { result ≡ is_unmade phase }
{
    matches!(phase, Phase::Unmade)
}

fn is_frozen(phase: Phase) -> bool
    ensures { result ≡ is_frozen phase }
{
    matches!(phase, Phase::Frozen(_))
}

pub(crate) fn is_populating(phase: Phase, pid: Pid) -> bool
    ensures { result ≡ is_populating phase pid.0 }
{
    match phase {
        Phase::Populating(q) => q.0 == pid.0,
        _ => false,
    }
}

// The fault, where so many bytes more do not fit for the process.
#[tactic(auto, unfolding(k_types::specs::Replies::size_fault))]
fn size_fault(lists: &PlainLists, pid: Pid, size: u64) -> Option<Fault>
    requires { pid.0 < process_count lists.now.setup }
    ensures { result ≡ size_fault lists.now.setup lists.now.state pid.0 size }
{
    match lists.full_limit(lists.limit_of(pid), size) {
        Some(limit) => Some(Fault::LimitFull(limit)),
        None => None,
    }
}

// The fault of a `new`.
#[tactic(auto, unfolding(k_types::specs::Replies::faults))]
pub(crate) fn new_fault(lists: &PlainLists, pid: Pid, reg: Reg, ty: TypeId) -> Option<Fault>
    requires process { pid.0 < process_count lists.now.setup }
    requires ty { ty.0 < length lists.now.setup.types }
    ensures { result ≡ first_fault (faults lists.now.setup lists.now.state pid.0 (New reg ty)) }
{
    first_of(&[size_fault(lists, pid, lists.size_of_type(ty))])
}

// The fault of a `knew`.
#[tactic(auto, unfolding(k_types::specs::Replies::faults))]
pub(crate) fn kernel_fault(lists: &PlainLists, pid: Pid, reg: Reg, ty: TypeId) -> Option<Fault>
    requires { ty.0 < length lists.now.setup.types }
    ensures { result ≡ first_fault (faults lists.now.setup lists.now.state pid.0 (KNew reg ty)) }
{
    let ceiling = lists.ceiling();
    let used = lists.bytes(Heap::Kernel);
    let full = ceiling < used || ceiling - used < lists.size_of_type(ty);
    first_of(&[fault_where(full, Fault::KernelFull)])
}

// The first fault of an `snew`.
#[tactic(auto, unfolding(k_types::specs::Replies::faults))]
pub(crate) fn shared_fault(
    lists: &PlainLists,
    pid: Pid,
    reg: Reg,
    shared: SharedId,
    ty: TypeId,
) -> Option<Fault>
    requires process { pid.0 < process_count lists.now.setup }
    requires ty { ty.0 < length lists.now.setup.types }
    ensures { result ≡ first_fault (faults lists.now.setup lists.now.state pid.0 (SNew reg shared ty)) }
{
    let populates = is_populating(lists.phase(shared), pid);
    first_of(&[
        fault_where(!populates, Fault::NotPopulating(shared)),
        size_fault(lists, pid, lists.size_of_type(ty)),
    ])
}

// The fault of a `share`.
#[tactic(auto, unfolding(k_types::specs::Replies::faults))]
pub(crate) fn share_fault(lists: &PlainLists, pid: Pid, shared: SharedId) -> Option<Fault>
    ensures { result ≡ first_fault (faults lists.now.setup lists.now.state pid.0 (Share shared)) }
{
    let unmade = is_unmade(lists.phase(shared));
    first_of(&[fault_where(!unmade, Fault::Taken(shared))])
}

// The first fault of a `freeze`.
#[tactic(auto, unfolding(k_types::specs::Replies::faults, k_types::specs::Replies::first_fault, k_types::specs::Replies::fault_where))]
pub(crate) fn freeze_fault(
    lists: &PlainLists,
    pid: Pid,
    shared: SharedId,
    root: Reg,
) -> Option<Fault>
    requires process { pid.0 < process_count lists.now.setup }
    requires root { root.0 < 16 }
    ensures { result ≡ first_fault (faults lists.now.setup lists.now.state pid.0 (Freeze shared root)) }
{
    match lists.register(pid, root) {
        None => Some(Fault::Null),
        Some(x) => {
            let lies_there = is_same_heap(lists.owner(x.seg), Heap::Shared(shared));
            let populates = is_populating(lists.phase(shared), pid);
            first_of(&[
                fault_where(!lies_there, Fault::Segv),
                fault_where(!populates, Fault::NotPopulating(shared)),
            ])
        }
    }
}

// The first fault of an `attach`. Only a frozen heap that the process does not share yet is measured.
#[tactic(auto, unfolding(k_types::specs::Replies::faults, k_types::specs::Replies::first_fault, k_types::specs::Replies::fault_where))]
pub(crate) fn attach_fault(
    lists: &PlainLists,
    pid: Pid,
    reg: Reg,
    shared: SharedId,
) -> Option<Fault>
    requires { pid.0 < process_count lists.now.setup }
    ensures { result ≡ first_fault (faults lists.now.setup lists.now.state pid.0 (Attach reg shared)) }
{
    if !is_frozen(lists.phase(shared)) {
        return Some(Fault::NotFrozen(shared));
    }
    if lists.has_share(pid, shared) {
        return None;
    }
    size_fault(lists, pid, lists.bytes(Heap::Shared(shared)))
}
