//! One step of the machine.
ghost use Rattle.std.specs.Prelude.{◌≡◌, ◌↔◌, IfOk, IsFalse, IsTrue, OnErr, OnOk};
ghost use Rattle.k_scan.specs.k_state.Rooms.{HasRoom};
ghost use Rattle.k_types.specs.Effects.{after_ended, step};
ghost use Rattle.k_types.specs.FileOrder.{end_of};
ghost use Rattle.k_types.specs.Sound.{IsSound};
ghost use Rattle.k_types.specs.State.{is_scanned};
ghost use Rattle.k_types.specs.Steps.{IsPossible};

use crate::answering::take_answered;
use k_reply::{may_be_absorbed, may_be_done, may_close};
use k_scan::{PlainLists, absorb, close, end_collection, end_collection_by};
use k_types::{Event, Heap, NoMemory};
use std::alloc::Global;

// Ends the open collection of the heap, where there is one and this event is its end as it is now, and says whether it is.
fn end_if_possible(
    alloc: Global,
    lists: &mut PlainLists,
    heap: Heap,
    event: &Event,
) -> Result<bool, NoMemory>
    requires room { HasRoom 1 lists.old.state }
    ensures setup { lists.new.setup ≡ lists.old.setup }
    ensures possible { IfOk result (λ had. IsTrue had ↔ (IsTrue (is_scanned lists.old.state.scans heap) × (event.now ≡ end_of lists.old.setup lists.old.state heap))) }
    ensures ended { IfOk result (λ had. IsTrue had → lists.new.state ≡ after_ended lists.old.setup heap lists.old.state) }
    ensures same { IfOk result (λ had. IsFalse had → lists.new ≡ lists.old) }
    ensures err { OnErr result (lists.new ≡ lists.old) }
{
    if !lists.is_scanned(heap) {
        return Ok(false);
    }
    end_collection_by(alloc, lists, heap, event)
}

// Takes a step that is possible. `NoMemory` comes where what the step makes or marks finds no memory, and leaves the machine
// as it was.
#[tactic(auto, unfolding(k_types::specs::Effects::step))]
pub(crate) fn take_step(
    alloc: Global,
    lists: &mut PlainLists,
    event: &Event,
) -> Result<(), NoMemory>
    requires possible { IsPossible lists.old.setup lists.old.state event.now }
    requires sound { IsSound lists.old.setup lists.old.state }
    requires room { HasRoom 1 lists.old.state }
    ensures setup { lists.new.setup ≡ lists.old.setup }
    ensures ok { OnOk result (lists.new.state ≡ step lists.old.setup lists.old.state event.now) }
    ensures err { OnErr result (lists.new ≡ lists.old) }
{
    match event {
        Event::Done { pid, op, reply } => take_answered(alloc, lists, *pid, op, reply),
        Event::Ended { heap, .. } => end_collection(alloc, lists, *heap),
        Event::Absorbed { shared } => absorb(alloc, lists, *shared),
        Event::Closing => close(alloc, lists),
    }
}

// Takes the step of the event, if the machine has it now, and says whether it has. `NoMemory` comes as for a step that is
// possible, and leaves the machine as it was.
pub(crate) fn step_if_possible(
    alloc: Global,
    lists: &mut PlainLists,
    event: &Event,
) -> Result<bool, NoMemory>
    requires sound { IsSound lists.old.setup lists.old.state }
    requires room { HasRoom 1 lists.old.state }
    ensures setup { lists.new.setup ≡ lists.old.setup }
    ensures possible { IfOk result (λ had. IsTrue had ↔ IsPossible lists.old.setup lists.old.state event.now) }
    ensures stepped { IfOk result (λ had. IsTrue had → lists.new.state ≡ step lists.old.setup lists.old.state event.now) }
    ensures same { IfOk result (λ had. IsFalse had → lists.new ≡ lists.old) }
    ensures err { OnErr result (lists.new ≡ lists.old) }
{
    let possible = match event {
        Event::Ended { heap, .. } => return end_if_possible(alloc, lists, *heap, event),
        Event::Done { pid, op, reply } => may_be_done(lists, *pid, op, reply),
        Event::Absorbed { shared } => may_be_absorbed(lists, *shared),
        Event::Closing => may_close(lists),
    };
    if !possible {
        return Ok(false);
    }
    take_step(alloc, lists, event)?;
    Ok(true)
}
