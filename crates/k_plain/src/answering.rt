//! Operations whose replies are known.
ghost use Rattle.std.specs.Prelude.{◌≡◌, ◌<◌, IsTrue, OnErr, OnOk};
ghost use Rattle.k_scan.specs.k_state.Rooms.{HasRoom};
ghost use Rattle.k_types.specs.Effects.{effect_unless, step};
ghost use Rattle.k_types.specs.Replies.{faults, first_fault, reply_to};
ghost use Rattle.k_types.specs.Sound.{IsSound};
ghost use Rattle.k_types.specs.Steps.{in_range};
ghost use Rattle.k_types.specs.Trace.{process_count};
ghost use Rattle.k_types.specs.declared.event.Event.TheVariants.{Done};

use crate::effects::take_effect;
use k_scan::PlainLists;
use k_types::{NoMemory, Op, Pid, Reply};
use std::alloc::Global;

// The effect of an operation that the machine answers so: none where it is refused.
fn take_effect_unless_refused(
    alloc: Global,
    lists: &mut PlainLists,
    pid: Pid,
    op: &Op,
    said: &Reply,
) -> Result<(), NoMemory>
    requires process { pid.0 < process_count lists.old.setup }
    requires in_range { IsTrue (in_range lists.old.setup op.now) }
    requires sound { IsSound lists.old.setup lists.old.state }
    requires room { HasRoom 1 lists.old.state }
    requires said { said.now ≡ reply_to lists.old.setup lists.old.state pid.0 op.now }
    ensures setup { lists.new.setup ≡ lists.old.setup }
    ensures ok { OnOk result (lists.new.state
        ≡ effect_unless (first_fault (faults lists.old.setup lists.old.state pid.0 op.now)) lists.old.setup pid.0 op.now lists.old.state) }
    ensures err { OnErr result (lists.new ≡ lists.old) }
{
    match *said {
        Reply::Refused(_) => Ok(()),
        _ => take_effect(alloc, lists, pid, op),
    }
}

// Does the operation of the process that the machine answers so. Its faults are not looked for again. `NoMemory` comes as for the
// effect, and leaves the machine as it was.
#[tactic(auto, unfolding(k_types::specs::Effects::step, k_types::specs::Effects::after_operation))]
pub(crate) fn take_answered(
    alloc: Global,
    lists: &mut PlainLists,
    pid: Pid,
    op: &Op,
    said: &Reply,
) -> Result<(), NoMemory>
    requires process { pid.0 < process_count lists.old.setup }
    requires in_range { IsTrue (in_range lists.old.setup op.now) }
    requires sound { IsSound lists.old.setup lists.old.state }
    requires room { HasRoom 1 lists.old.state }
    requires said { said.now ≡ reply_to lists.old.setup lists.old.state pid.0 op.now }
    ensures setup { lists.new.setup ≡ lists.old.setup }
    ensures ok { OnOk result (lists.new.state ≡ step lists.old.setup lists.old.state (Done pid op.now said.now)) }
    ensures err { OnErr result (lists.new ≡ lists.old) }
{
    take_effect_unless_refused(alloc, lists, pid, op, said)?;
    lists.count_done(pid);
    Ok(())
}
