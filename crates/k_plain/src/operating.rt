//! Operations with their replies.
ghost use Rattle.std.specs.Prelude.{◌≡◌, ◌<◌, IfOk, IsTrue, OnErr};
ghost use Rattle.k_scan.specs.k_state.Rooms.{HasRoom};
ghost use Rattle.k_types.specs.Effects.{effect_unless, step};
ghost use Rattle.k_types.specs.Replies.{faults, first_fault, reply_to};
ghost use Rattle.k_types.specs.Sound.{IsSound};
ghost use Rattle.k_types.specs.Steps.{in_range};
ghost use Rattle.k_types.specs.Trace.{process_count};
ghost use Rattle.k_types.specs.declared.event.Event.TheVariants.{Done};

use crate::effects::take_effect;
use k_reply::{answer, first_fault};
use k_scan::PlainLists;
use k_types::{NoMemory, Op, Pid, Reply};
use std::alloc::Global;

// The operation, but for the count of operations done.
#[tactic(auto, unfolding(k_types::specs::Replies::reply_to))]
fn attempt(alloc: Global, lists: &mut PlainLists, pid: Pid, op: &Op) -> Result<Reply, NoMemory>
    requires process { pid.0 < process_count lists.old.setup }
    requires in_range { IsTrue (in_range lists.old.setup op.now) }
    requires sound { IsSound lists.old.setup lists.old.state }
    requires room { HasRoom 1 lists.old.state }
    ensures setup { lists.new.setup ≡ lists.old.setup }
    ensures reply { IfOk result (λ said. said ≡ reply_to lists.old.setup lists.old.state pid.0 op.now) }
    ensures state { IfOk result (λ said. lists.new.state
        ≡ effect_unless (first_fault (faults lists.old.setup lists.old.state pid.0 op.now)) lists.old.setup pid.0 op.now lists.old.state) }
    ensures err { OnErr result (lists.new ≡ lists.old) }
{
    match first_fault(lists, pid, op) {
        Some(fault) => Ok(Reply::Refused(fault)),
        None => {
            let reply = answer(lists, pid, op);
            take_effect(alloc, lists, pid, op)?;
            Ok(reply)
        }
    }
}

// Does the operation of the process as the machine does, and gives the machine's reply. What is refused changes the count of
// operations done alone. `NoMemory` comes as for the effect, and leaves the machine as it was.
#[tactic(auto, unfolding(k_types::specs::Effects::step, k_types::specs::Effects::after_operation))]
pub(crate) fn operate(
    alloc: Global,
    lists: &mut PlainLists,
    pid: Pid,
    op: &Op,
) -> Result<Reply, NoMemory>
    requires process { pid.0 < process_count lists.old.setup }
    requires in_range { IsTrue (in_range lists.old.setup op.now) }
    requires sound { IsSound lists.old.setup lists.old.state }
    requires room { HasRoom 1 lists.old.state }
    ensures setup { lists.new.setup ≡ lists.old.setup }
    ensures reply { IfOk result (λ said. said ≡ reply_to lists.old.setup lists.old.state pid.0 op.now) }
    ensures state { IfOk result (λ said. lists.new.state ≡ step lists.old.setup lists.old.state (Done pid op.now said)) }
    ensures err { OnErr result (lists.new ≡ lists.old) }
{
    let reply = attempt(alloc, lists, pid, op)?;
    lists.count_done(pid);
    Ok(reply)
}
