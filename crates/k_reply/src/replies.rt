//! The first fault of each operation, and its reply.
ghost use Rattle.std.specs.Prelude.{◌≡◌, ◌<◌, IsTrue};
ghost use Rattle.k_state.specs.Rooms.{HasRoom};
ghost use Rattle.k_types.specs.Replies.{
  answer,
  at_base,
  faults,
  first_fault,
  load_faults,
  loaded_number,
  loaded_reference,
  number_faults,
  reply_to,
  root_of,
  store_faults,
};
ghost use Rattle.k_types.specs.State.{register};
ghost use Rattle.k_types.specs.Steps.{in_range};
ghost use Rattle.k_types.specs.Trace.{IsHeap, process_count, segment_of};
ghost use Rattle.k_types.specs.Updates.{next_name};

use crate::access::{load_fault, number_fault, store_fault};
use crate::fields::{field_at, number_in, reference};
use crate::governing::{kill_fault, resize_fault};
use crate::heaps::{
    attach_fault, freeze_fault, kernel_fault, new_fault, share_fault, shared_fault,
};
use k_state::PlainLists;
use k_types::{Fault, Heap, Name, Op, Phase, Pid, Reg, Reply, Seg, Serial, SharedId};

/// The object from which every run begins.
pub const DIRECTORY: Name = Name {
    seg: Seg(0),
    serial: Serial(1),
};

// The first fault of a store through the register.
#[tactic(auto, unfolding(k_types::specs::Replies::first_fault))]
fn fault_of_store(lists: &PlainLists, pid: Pid, base: Reg, field: u32, value: Reg) -> Option<Fault>
    requires process { pid.0 < process_count lists.now.setup }
    requires base { base.0 < 16 }
    requires value { value.0 < 16 }
    ensures { result ≡ first_fault (at_base (register lists.now.state.registers pid.0 base.0)
        (store_faults lists.now.setup lists.now.state pid.0 field (register lists.now.state.registers pid.0 value.0))) }
{
    match lists.register(pid, base) {
        None => Some(Fault::Null),
        Some(x) => store_fault(lists, pid, x, field, lists.register(pid, value)),
    }
}

// The first fault of a load through the register.
#[tactic(auto, unfolding(k_types::specs::Replies::first_fault))]
fn fault_of_load(lists: &PlainLists, pid: Pid, base: Reg, field: u32) -> Option<Fault>
    requires process { pid.0 < process_count lists.now.setup }
    requires base { base.0 < 16 }
    ensures { result ≡ first_fault (at_base (register lists.now.state.registers pid.0 base.0)
        (load_faults lists.now.setup lists.now.state pid.0 field)) }
{
    match lists.register(pid, base) {
        None => Some(Fault::Null),
        Some(x) => load_fault(lists, pid, x, field),
    }
}

// The first fault of a put or a get through the register.
#[tactic(auto, unfolding(k_types::specs::Replies::first_fault))]
fn fault_of_number(lists: &PlainLists, pid: Pid, base: Reg, field: u32) -> Option<Fault>
    requires process { pid.0 < process_count lists.now.setup }
    requires base { base.0 < 16 }
    ensures { result ≡ first_fault (at_base (register lists.now.state.registers pid.0 base.0)
        (number_faults lists.now.setup lists.now.state pid.0 field)) }
{
    match lists.register(pid, base) {
        None => Some(Fault::Null),
        Some(x) => number_fault(lists, pid, x, field),
    }
}

/// The first fault of the operation, in the order of faults; none where the machine does it.
///
/// A size is tested against sums over all processes and segments.
#[tactic(auto, using(std::proofs::lemmas::Bool::Decides::nat_tests), unfolding(k_types::specs::Replies::faults, k_types::specs::Replies::first_fault, k_types::specs::Steps::in_range))]
pub fn first_fault(lists: &PlainLists, pid: Pid, op: &Op) -> Option<Fault>
    requires process { pid.0 < process_count lists.now.setup }
    requires in_range { IsTrue (in_range lists.now.setup op.now) }
    ensures { result ≡ first_fault (faults lists.now.setup lists.now.state pid.0 op.now) }
{
    match *op {
        Op::New { reg, ty } => new_fault(lists, pid, reg, ty),
        Op::KNew { reg, ty } => kernel_fault(lists, pid, reg, ty),
        Op::SNew { reg, shared, ty } => shared_fault(lists, pid, reg, shared, ty),
        Op::Store { base, field, value } => fault_of_store(lists, pid, base, field, value),
        Op::Load { base, field, .. } => fault_of_load(lists, pid, base, field),
        Op::Put { base, field, .. } => fault_of_number(lists, pid, base, field),
        Op::Get { base, field } => fault_of_number(lists, pid, base, field),
        Op::Share { shared } => share_fault(lists, pid, shared),
        Op::Freeze { shared, root } => freeze_fault(lists, pid, shared, root),
        Op::Attach { reg, shared } => attach_fault(lists, pid, reg, shared),
        Op::Kill { target } => kill_fault(lists, pid, target),
        Op::Resize { limit, max } => resize_fault(lists, pid, limit, max),
        Op::Move { .. } => None,
        Op::Clear { .. } => None,
        Op::Dir { .. } => None,
        Op::Collect => None,
        Op::KCollect => None,
        Op::Exit => None,
    }
}

/// The reference in the field of what the register holds; null where the field is no reference, or there is none.
pub fn loaded_reference(lists: &PlainLists, pid: Pid, base: Reg, field: u32) -> Option<Name>
    requires process { pid.0 < process_count lists.now.setup }
    requires base { base.0 < 16 }
    ensures { result ≡ loaded_reference lists.now.state pid.0 base.0 field }
{
    match lists.register(pid, base) {
        None => None,
        Some(x) => reference(field_at(lists, x, field)),
    }
}

// The number in the field of what the register holds.
fn loaded_number(lists: &PlainLists, pid: Pid, base: Reg, field: u32) -> u64
    requires process { pid.0 < process_count lists.now.setup }
    requires base { base.0 < 16 }
    ensures { result ≡ loaded_number lists.now.state pid.0 base.0 field }
{
    match lists.register(pid, base) {
        None => 0,
        Some(x) => number_in(field_at(lists, x, field)),
    }
}

/// The root of a shared heap of that phase, where it is frozen.
pub fn root_of(phase: Phase) -> Option<Name>
    ensures { result ≡ root_of phase }
{
    match phase {
        Phase::Frozen(root) => Some(root),
        _ => None,
    }
}

// The name of the next object that is allocated in the heap.
fn next_name(lists: &PlainLists, heap: Heap) -> Name
    requires heap { IsHeap lists.now.setup heap }
    requires room { HasRoom 1 lists.now.state }
    ensures { result ≡ next_name (segment_of lists.now.setup heap) lists.now.state }
{
    lists.next_name(lists.segment_of(heap))
}

/// What the operation is answered where it is not refused.
#[tactic(auto, using(std::proofs::lemmas::Bool::Decides::nat_tests), unfolding(k_types::specs::Replies::answer, k_types::specs::Steps::in_range))]
pub fn answer(lists: &PlainLists, pid: Pid, op: &Op) -> Reply
    requires process { pid.0 < process_count lists.now.setup }
    requires in_range { IsTrue (in_range lists.now.setup op.now) }
    requires room { HasRoom 1 lists.now.state }
    ensures { result ≡ answer lists.now.setup lists.now.state pid.0 op.now }
{
    match *op {
        Op::New { .. } => Reply::Made(next_name(lists, Heap::User(pid))),
        Op::KNew { .. } => Reply::Made(next_name(lists, Heap::Kernel)),
        Op::SNew { shared, .. } => Reply::Made(next_name(lists, Heap::Shared(shared))),
        Op::Load { base, field, .. } => Reply::Loaded(loaded_reference(lists, pid, base, field)),
        Op::Dir { .. } => Reply::Loaded(Some(DIRECTORY)),
        Op::Get { base, field } => Reply::Value(loaded_number(lists, pid, base, field)),
        Op::Attach { shared, .. } => Reply::Loaded(root_of(lists.phase(shared))),
        _ => Reply::Done,
    }
}

/// The reply to the operation: its first fault, or else its answer.
///
/// A size is tested against sums over all processes and segments; the rest of the time goes with the logarithm of the number
/// of objects.
#[tactic(auto, unfolding(k_types::specs::Replies::reply_to))]
pub fn reply_to(lists: &PlainLists, pid: Pid, op: &Op) -> Reply
    requires process { pid.0 < process_count lists.now.setup }
    requires in_range { IsTrue (in_range lists.now.setup op.now) }
    requires room { HasRoom 1 lists.now.state }
    ensures { result ≡ reply_to lists.now.setup lists.now.state pid.0 op.now }
{
    match first_fault(lists, pid, op) {
        Some(fault) => Reply::Refused(fault),
        None => answer(lists, pid, op),
    }
}
