//! What an operation leaves that is not refused.
ghost use Rattle.std.specs.Prelude.{◌≡◌, ◌<◌, IfSome, IsTrue, OnErr, OnOk, length};
ghost use Rattle.k_scan.specs.k_state.Rooms.{HasRoom};
ghost use Rattle.k_types.specs.Effects.{after_freeze, after_kill, after_new, after_put, after_store, effect, with_exit_of_store};
ghost use Rattle.k_types.specs.Known.{IsKnownName};
ghost use Rattle.k_types.specs.Owners.{phase_of};
ghost use Rattle.k_types.specs.Replies.{root_of};
ghost use Rattle.k_types.specs.Sound.{IsSound};
ghost use Rattle.k_types.specs.State.{register};
ghost use Rattle.k_types.specs.Steps.{in_range};
ghost use Rattle.k_types.specs.Trace.{IsHeap, process_count, segment_of};
ghost use Rattle.k_types.specs.Updates.{add_share, set_phase, set_register};
ghost use Rattle.k_types.specs.declared.names.Phase.TheVariants.{Populating};

use k_reply::{DIRECTORY, loaded_reference, root_of};
use k_scan::{FieldValue, PlainLists, begin, end_of_process, is_same_heap};
use k_types::{Heap, Name, NoMemory, Op, Phase, Pid, Reg, SharedId, TypeId};
use std::alloc::Global;

// Makes the heap's next object, to which the register refers from then on.
fn allocate(
    alloc: Global,
    lists: &mut PlainLists,
    pid: Pid,
    reg: Reg,
    heap: Heap,
    ty: TypeId,
) -> Result<(), NoMemory>
    requires process { pid.0 < process_count lists.old.setup }
    requires reg { reg.0 < 16 }
    requires heap { IsHeap lists.old.setup heap }
    requires ty { ty.0 < length lists.old.setup.types }
    requires room { HasRoom 1 lists.old.state }
    ensures setup { lists.new.setup ≡ lists.old.setup }
    ensures ok { OnOk result (lists.new.state ≡ after_new lists.old.setup pid.0 reg.0 (segment_of lists.old.setup heap) ty lists.old.state) }
    ensures err { OnErr result (lists.new ≡ lists.old) }
{
    let seg = lists.segment_of(heap);
    let name = lists.create(alloc, seg, ty)?;
    lists.set_register(pid, reg, Some(name));
    Ok(())
}

// Adds the exit item of a store, where the owners differ.
#[tactic(auto, unfolding(k_types::specs::Effects::with_exit_of_store))]
fn add_exit_of_store(lists: &mut PlainLists, x: Name, value: Option<Name>) -> Result<(), NoMemory>
    requires { HasRoom 1 lists.old.state }
    ensures setup { lists.new.setup ≡ lists.old.setup }
    ensures ok { OnOk result (lists.new.state ≡ with_exit_of_store lists.old.setup x value lists.old.state) }
    ensures err { OnErr result (lists.new ≡ lists.old) }
{
    if let Some(y) = value {
        let from = lists.owner(x.seg);
        if !is_same_heap(from, lists.owner(y.seg)) {
            lists.add_exit(from, y)?;
        }
    }
    Ok(())
}

#[tactic(auto, unfolding(k_types::specs::Effects::after_store))]
fn store(
    lists: &mut PlainLists,
    pid: Pid,
    base: Reg,
    field: u32,
    value: Reg,
) -> Result<(), NoMemory>
    requires process { pid.0 < process_count lists.old.setup }
    requires base { base.0 < 16 }
    requires value { value.0 < 16 }
    requires room { HasRoom 1 lists.old.state }
    ensures setup { lists.new.setup ≡ lists.old.setup }
    ensures ok { OnOk result (lists.new.state ≡ after_store lists.old.setup (register lists.old.state.registers pid.0 base.0) field
        (register lists.old.state.registers pid.0 value.0) lists.old.state) }
    ensures err { OnErr result (lists.new ≡ lists.old) }
{
    if let Some(x) = lists.register(pid, base) {
        let to = lists.register(pid, value);
        add_exit_of_store(lists, x, to)?;
        lists.write(x, field, FieldValue::Reference(to));
    }
    Ok(())
}

#[tactic(auto, unfolding(k_types::specs::Effects::after_put))]
fn put(lists: &mut PlainLists, pid: Pid, base: Reg, field: u32, number: u64)
    requires process { pid.0 < process_count lists.old.setup }
    requires base { base.0 < 16 }
    ensures setup { lists.new.setup ≡ lists.old.setup }
    ensures state { lists.new.state ≡ after_put (register lists.old.state.registers pid.0 base.0) field number lists.old.state }
{
    if let Some(x) = lists.register(pid, base) {
        lists.write(x, field, FieldValue::Integer(number));
    }
}

#[tactic(auto, unfolding(k_types::specs::Updates::add_share, k_types::specs::Updates::set_phase))]
fn share(lists: &mut PlainLists, pid: Pid, shared: SharedId) -> Result<(), NoMemory>
    requires process { pid.0 < process_count lists.old.setup }
    requires heap { shared.0 < lists.old.setup.shared_heaps }
    ensures setup { lists.new.setup ≡ lists.old.setup }
    ensures ok { OnOk result (lists.new.state ≡ add_share pid.0 shared.0 (set_phase shared.0 (Populating pid) lists.old.state)) }
    ensures err { OnErr result (lists.new ≡ lists.old) }
{
    lists.add_share(pid, shared)?;
    lists.set_phase(shared, Phase::Populating(pid));
    Ok(())
}

#[tactic(auto, unfolding(k_types::specs::Effects::after_freeze))]
fn freeze(lists: &mut PlainLists, pid: Pid, shared: SharedId, root: Reg)
    requires process { pid.0 < process_count lists.old.setup }
    requires heap { shared.0 < lists.old.setup.shared_heaps }
    requires root { root.0 < 16 }
    requires known { IfSome (register lists.old.state.registers pid.0 root.0) (IsKnownName lists.old.setup) }
    ensures setup { lists.new.setup ≡ lists.old.setup }
    ensures state { lists.new.state ≡ after_freeze shared.0 (register lists.old.state.registers pid.0 root.0) lists.old.state }
{
    if let Some(root) = lists.register(pid, root) {
        lists.set_phase(shared, Phase::Frozen(root));
    }
}

fn attach(lists: &mut PlainLists, pid: Pid, reg: Reg, shared: SharedId) -> Result<(), NoMemory>
    requires process { pid.0 < process_count lists.old.setup }
    requires reg { reg.0 < 16 }
    ensures setup { lists.new.setup ≡ lists.old.setup }
    ensures ok { OnOk result (lists.new.state ≡ set_register pid.0 reg.0 (root_of (phase_of lists.old.state.phases shared.0))
        (add_share pid.0 shared.0 lists.old.state)) }
    ensures err { OnErr result (lists.new ≡ lists.old) }
{
    let root = root_of(lists.phase(shared));
    lists.add_share(pid, shared)?;
    lists.set_register(pid, reg, root);
    Ok(())
}

// Ends the process, unless it had ended before.
#[tactic(auto, unfolding(k_types::specs::Effects::after_kill))]
fn kill(alloc: Global, lists: &mut PlainLists, target: Pid) -> Result<(), NoMemory>
    requires { target.0 < process_count lists.old.setup }
    ensures setup { lists.new.setup ≡ lists.old.setup }
    ensures ok { OnOk result (lists.new.state ≡ after_kill lists.old.setup target.0 lists.old.state) }
    ensures err { OnErr result (lists.new ≡ lists.old) }
{
    if !lists.lives(target) {
        return Ok(());
    }
    end_of_process(alloc, lists, target)
}

// The operation's effect, whatever it is answered, but for the count of operations done. `NoMemory` comes where an object, an
// exit item, a share, a collection or an end finds no memory, and leaves the state as it was.
#[tactic(auto, using(std::proofs::lemmas::Bool::Decides::nat_tests), unfolding(k_types::specs::Effects::effect, k_types::specs::Steps::in_range))]
pub(crate) fn take_effect(
    alloc: Global,
    lists: &mut PlainLists,
    pid: Pid,
    op: &Op,
) -> Result<(), NoMemory>
    requires process { pid.0 < process_count lists.old.setup }
    requires in_range { IsTrue (in_range lists.old.setup op.now) }
    requires sound { IsSound lists.old.setup lists.old.state }
    requires room { HasRoom 1 lists.old.state }
    ensures setup { lists.new.setup ≡ lists.old.setup }
    ensures ok { OnOk result (lists.new.state ≡ effect lists.old.setup pid.0 op.now lists.old.state) }
    ensures err { OnErr result (lists.new ≡ lists.old) }
{
    match *op {
        Op::New { reg, ty } => allocate(alloc, lists, pid, reg, Heap::User(pid), ty),
        Op::KNew { reg, ty } => allocate(alloc, lists, pid, reg, Heap::Kernel, ty),
        Op::SNew { reg, shared, ty } => {
            allocate(alloc, lists, pid, reg, Heap::Shared(shared), ty)
        }
        Op::Store { base, field, value } => store(lists, pid, base, field, value),
        Op::Put {
            base,
            field,
            number,
        } => {
            put(lists, pid, base, field, number);
            Ok(())
        }
        Op::Collect => begin(alloc, lists, Heap::User(pid)),
        Op::KCollect => begin(alloc, lists, Heap::Kernel),
        Op::Share { shared } => share(lists, pid, shared),
        Op::Freeze { shared, root } => {
            freeze(lists, pid, shared, root);
            Ok(())
        }
        Op::Attach { reg, shared } => attach(lists, pid, reg, shared),
        Op::Exit => end_of_process(alloc, lists, pid),
        Op::Kill { target } => kill(alloc, lists, target),
        Op::Resize { limit, max } => {
            lists.set_max(limit, max);
            Ok(())
        }
        Op::Get { .. } => Ok(()),
        Op::Load { reg, base, field } => {
            let loaded = loaded_reference(lists, pid, base, field);
            lists.set_register(pid, reg, loaded);
            Ok(())
        }
        Op::Move { reg, from } => {
            let held = lists.register(pid, from);
            lists.set_register(pid, reg, held);
            Ok(())
        }
        Op::Clear { reg } => {
            lists.set_register(pid, reg, None);
            Ok(())
        }
        Op::Dir { reg } => {
            lists.set_register(pid, reg, Some(DIRECTORY));
            Ok(())
        }
    }
}
