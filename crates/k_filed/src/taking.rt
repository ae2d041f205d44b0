//! Steps that the machine has, taken and noted in the journal.
ghost use Rattle.std.specs.Prelude.{◌≡◌, ◌≤◌, [], ◌∷◌, OnOk, Some};
ghost use Rattle.k_filed.specs.Taken.{HasTaken, first_events};
ghost use Rattle.k_state.specs.Rooms.{HasRoom};
ghost use Rattle.k_types.specs.FileOrder.{absorptions, end_of, events_of, heap_begun, last_events, with_end};
ghost use Rattle.k_types.specs.Replies.{reply_to};
ghost use Rattle.k_types.specs.Steps.{IsPossible, IsRun, waits_for_orphans};
ghost use Rattle.k_types.specs.declared.event.Event.TheVariants.{Closing, Done};
ghost use Rattle.k_types.specs.declared.names.Heap.TheVariants.{Kernel};

use k_plain::PlainState;
use k_reply::{all_ended, is_orphan};
use k_types::{Event, Heap, NoMemory, Op, Pid, SharedId};
use std::alloc::Global;

// Takes the step and notes its event.
fn take(
    alloc: Global,
    state: &mut PlainState,
    events: &mut Vec<Event>,
    event: Event,
) -> Result<(), NoMemory>
    requires possible { IsPossible state.old.setup state.old.state event }
    requires room { HasRoom 1 state.old.state }
    ensures { OnOk result (HasTaken state.old state.new events.old.items events.new.items (event ∷ [])) }
{
    state.take(alloc, &event)?;
    events.push(event)?;
    Ok(())
}

// Ends the open collection of the heap.
fn end(
    alloc: Global,
    state: &mut PlainState,
    events: &mut Vec<Event>,
    heap: Heap,
) -> Result<(), NoMemory>
    requires possible { IsPossible state.old.setup state.old.state (end_of state.old.setup state.old.state heap) }
    requires room { HasRoom 1 state.old.state }
    ensures { OnOk result (HasTaken state.old state.new events.old.items events.new.items
        (end_of state.old.setup state.old.state heap ∷ [])) }
{
    let event = state.end_of(alloc, heap)?;
    take(alloc, state, events, event)
}

// Absorbs all orphans, by rising number. Walks over all shares for each shared heap.
fn absorb_orphans(
    alloc: Global,
    state: &mut PlainState,
    events: &mut Vec<Event>,
) -> Result<(), NoMemory>
    requires legal { IsRun state.old.setup state.old.state (absorptions state.old.setup state.old.state) }
    requires few { state.old.setup.shared_heaps ≤ 64 }
    requires room { HasRoom 64 state.old.state }
    ensures { OnOk result (HasTaken state.old state.new events.old.items events.new.items
        (absorptions state.old.setup state.old.state)) }
{
    let count = state.lists().shared_count();
    for s in 0..count {
        let shared = SharedId(s);
        if is_orphan(state.lists(), shared) {
            take(alloc, state, events, Event::Absorbed { shared })?;
        }
    }
    Ok(())
}

// Does the operation and notes it with its reply.
fn take_operation(
    alloc: Global,
    state: &mut PlainState,
    events: &mut Vec<Event>,
    pid: Pid,
    op: &Op,
) -> Result<(), NoMemory>
    requires possible { IsPossible state.old.setup state.old.state
        (Done pid op.now (reply_to state.old.setup state.old.state pid.0 op.now)) }
    requires room { HasRoom 1 state.old.state }
    ensures { OnOk result (HasTaken state.old state.new events.old.items events.new.items
        (Done pid op.now (reply_to state.old.setup state.old.state pid.0 op.now) ∷ [])) }
{
    let reply = state.operate(alloc, pid, op)?;
    events.push(Event::Done {
        pid,
        op: *op,
        reply,
    })?;
    Ok(())
}

// The heap whose collection the operation begins.
fn heap_begun(pid: Pid, op: &Op) -> Option<Heap>
    ensures { result ≡ heap_begun pid.0 op.now }
{
    match *op {
        Op::Collect => Some(Heap::User(pid)),
        Op::KCollect => Some(Heap::Kernel),
        _ => None,
    }
}

fn waits_for_orphans(op: &Op) -> bool
    ensures { result ≡ waits_for_orphans op.now }
{
    matches!(*op, Op::KCollect)
}

// Does the operation, and ends the collection that it begins.
fn take_whole_operation(
    alloc: Global,
    state: &mut PlainState,
    events: &mut Vec<Event>,
    pid: Pid,
    op: &Op,
) -> Result<(), NoMemory>
    requires legal { IsRun state.old.setup state.old.state (with_end state.old.setup state.old.state
        (Done pid op.now (reply_to state.old.setup state.old.state pid.0 op.now)) (heap_begun pid.0 op.now)) }
    requires room { HasRoom 2 state.old.state }
    ensures { OnOk result (HasTaken state.old state.new events.old.items events.new.items (with_end state.old.setup state.old.state
        (Done pid op.now (reply_to state.old.setup state.old.state pid.0 op.now)) (heap_begun pid.0 op.now))) }
{
    take_operation(alloc, state, events, pid, op)?;
    match heap_begun(pid, op) {
        Some(heap) => end(alloc, state, events, heap),
        None => Ok(()),
    }
}

// Absorbs all orphans, where the operation waits for them.
fn absorb_before(
    alloc: Global,
    state: &mut PlainState,
    events: &mut Vec<Event>,
    op: &Op,
) -> Result<(), NoMemory>
    requires legal { IsRun state.old.setup state.old.state (first_events state.old.setup state.old.state op.now) }
    requires few { state.old.setup.shared_heaps ≤ 64 }
    requires room { HasRoom 64 state.old.state }
    ensures { OnOk result (HasTaken state.old state.new events.old.items events.new.items
        (first_events state.old.setup state.old.state op.now)) }
{
    if !waits_for_orphans(op) {
        return Ok(());
    }
    absorb_orphans(alloc, state, events)
}

// Does the process's operation with all that belongs to it: first the absorptions for which it waits, then the operation, then
// the end of the collection that it begins.
pub(crate) fn do_operation(
    alloc: Global,
    state: &mut PlainState,
    events: &mut Vec<Event>,
    pid: Pid,
    op: &Op,
) -> Result<(), NoMemory>
    requires legal { IsRun state.old.setup state.old.state (events_of state.old.setup state.old.state pid.0 (Some op.now)) }
    requires few { state.old.setup.shared_heaps ≤ 64 }
    requires room { HasRoom 66 state.old.state }
    ensures { OnOk result (HasTaken state.old state.new events.old.items events.new.items
        (events_of state.old.setup state.old.state pid.0 (Some op.now))) }
{
    absorb_before(alloc, state, events, op)?;
    take_whole_operation(alloc, state, events, pid, op)
}

// Begins the last collection of the kernel, and ends it.
fn take_closing(
    alloc: Global,
    state: &mut PlainState,
    events: &mut Vec<Event>,
) -> Result<(), NoMemory>
    requires legal { IsRun state.old.setup state.old.state (with_end state.old.setup state.old.state Closing (Some Kernel)) }
    requires room { HasRoom 2 state.old.state }
    ensures { OnOk result (HasTaken state.old state.new events.old.items events.new.items
        (with_end state.old.setup state.old.state Closing (Some Kernel))) }
{
    take(alloc, state, events, Event::Closing)?;
    end(alloc, state, events, Heap::Kernel)
}

// Where every process has ended, absorbs all orphans and does the last collection of the kernel.
pub(crate) fn do_last(
    alloc: Global,
    state: &mut PlainState,
    events: &mut Vec<Event>,
) -> Result<(), NoMemory>
    requires legal { IsRun state.old.setup state.old.state (last_events state.old.setup state.old.state) }
    requires few { state.old.setup.shared_heaps ≤ 64 }
    requires room { HasRoom 66 state.old.state }
    ensures { OnOk result (HasTaken state.old state.new events.old.items events.new.items
        (last_events state.old.setup state.old.state)) }
{
    if !all_ended(state.lists()) {
        return Ok(());
    }
    absorb_orphans(alloc, state, events)?;
    take_closing(alloc, state, events)
}
