//! The faults of operations on a field of an object.
ghost use Rattle.std.specs.Prelude.{◌≡◌};
ghost use Rattle.k_types.specs.Replies.{
  access_faults,
  first_fault,
  is_foreign,
  is_frozen_heap,
  load_faults,
  number_faults,
  passes_barrier,
  sharer_fault,
  store_faults,
};

use crate::fields::{field_at, field_count, is_ref};
use crate::firsts::{fault_where, first_of};
use k_state::{PlainLists, is_same_heap, kind_of};
use k_types::{Fault, Heap, Name, Phase, Pid, legal};

// Whether the heap is that of another living process.
fn is_foreign(owner: Heap, pid: Pid) -> bool
    ensures { result ≡ is_foreign owner pid.0 }
{
    match owner {
        Heap::User(q) => q.0 != pid.0,
        _ => false,
    }
}

// The fault where the heap is a shared one that the process does not share.
fn sharer_fault(lists: &PlainLists, owner: Heap, pid: Pid) -> Option<Fault>
    ensures { result ≡ sharer_fault lists.now.state owner pid.0 }
{
    match owner {
        Heap::Shared(shared) => {
            fault_where(!lists.has_share(pid, shared), Fault::NotSharer(shared))
        }
        _ => None,
    }
}

// Whether the heap is a shared one that is frozen.
fn is_frozen_heap(lists: &PlainLists, heap: Heap) -> bool
    ensures { result ≡ is_frozen_heap lists.now.state heap }
{
    match heap {
        Heap::Shared(shared) => matches!(lists.phase(shared), Phase::Frozen(_)),
        _ => false,
    }
}

// Whether the barrier lets the object refer to the value.
#[tactic(auto, unfolding(k_types::specs::Replies::passes_barrier))]
fn passes_barrier(lists: &PlainLists, x: Name, value: Option<Name>) -> bool
    ensures { result ≡ passes_barrier lists.now.setup lists.now.state x value }
{
    match value {
        None => true,
        Some(y) => {
            let from = lists.owner(x.seg);
            let to = lists.owner(y.seg);
            legal(kind_of(from), kind_of(to), is_same_heap(from, to))
        }
    }
}

// The first fault of an access to the field.
#[tactic(auto, unfolding(k_types::specs::Replies::access_faults))]
fn access_fault(lists: &PlainLists, pid: Pid, x: Name, field: u32) -> Option<Fault>
    ensures { result ≡ first_fault (access_faults lists.now.setup lists.now.state pid.0 x field) }
{
    let owner = lists.owner(x.seg);
    first_of(&[
        fault_where(is_foreign(owner, pid), Fault::Foreign),
        sharer_fault(lists, owner, pid),
        fault_where(field_count(lists, x) <= field, Fault::NoField),
    ])
}

#[tactic(auto, using(crate::proofs::FirstFaults::first_front))]
// The first fault of a store of the value into the field.
pub(crate) fn store_fault(
    lists: &PlainLists,
    pid: Pid,
    x: Name,
    field: u32,
    value: Option<Name>,
) -> Option<Fault>
    ensures { result ≡ first_fault (store_faults lists.now.setup lists.now.state pid.0 field value x) }
{
    first_of(&[
        access_fault(lists, pid, x, field),
        fault_where(!is_ref(field_at(lists, x, field)), Fault::WrongKind),
        fault_where(is_frozen_heap(lists, lists.owner(x.seg)), Fault::Frozen),
        fault_where(!passes_barrier(lists, x, value), Fault::Segv),
    ])
}

#[tactic(auto, using(crate::proofs::FirstFaults::first_front))]
// The first fault of a load from the field.
pub(crate) fn load_fault(lists: &PlainLists, pid: Pid, x: Name, field: u32) -> Option<Fault>
    ensures { result ≡ first_fault (load_faults lists.now.setup lists.now.state pid.0 field x) }
{
    first_of(&[
        access_fault(lists, pid, x, field),
        fault_where(!is_ref(field_at(lists, x, field)), Fault::WrongKind),
    ])
}

#[tactic(auto, using(crate::proofs::FirstFaults::first_front))]
// The first fault of a put into the field, or of a get from it.
pub(crate) fn number_fault(lists: &PlainLists, pid: Pid, x: Name, field: u32) -> Option<Fault>
    ensures { result ≡ first_fault (number_faults lists.now.setup lists.now.state pid.0 field x) }
{
    first_of(&[
        access_fault(lists, pid, x, field),
        fault_where(is_ref(field_at(lists, x, field)), Fault::WrongKind),
    ])
}
