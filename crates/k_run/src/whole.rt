//! A trace that is run or replayed, from its opening to its end.
ghost use Rattle.std.specs.Prelude.{IfOk, None, ◌≡◌};
ghost use Rattle.k_opening.specs.k_outcome.Ends.{journal_of};
ghost use Rattle.k_opening.specs.k_outcome.Listed.{AreRoomsFor};
ghost use Rattle.k_run.specs.Runs.{IsRunOf};
ghost use Rattle.k_opening.specs.k_outcome.k_process.Heaps.{value_of};
ghost use Rattle.k_opening.specs.k_outcome.k_process.BetweenSteps.{AllStand};
ghost use Rattle.k_opening.specs.k_still.Opening.{IsSetupOf};
ghost use Rattle.k_trace.specs.Meaning.{meaning_of};
ghost use Rattle.k_trace.specs.Rules.{IsTrace};
ghost use Rattle.k_types.specs.FileOrder.{file_order};

use crate::replaying::replay;
use crate::running::run;
use crate::world::finish;
use k_io::{Gate, NoMemory};
use k_opening::{Outcome, Still, World, WorldName, open, open_still};
use k_trace::Trace;
use std::alloc::Global;
use std::marker::Brand;
use std::sync::Wait;
use std::thread::Threads;

/// Puts the run behind its locks, has workers do it, and ends it.
fn run_still<W: WorldName + Send + Sync, G: Gate, R: Threads + Wait + Sync>(
    rt: &R,
    alloc: Global,
    still: Still,
    gate: &G,
) -> Result<Outcome, NoMemory>
    requires stands { AllStand W.world (value_of still.cells.heaps) }
    requires setup { IsSetupOf still.cells.setup W.world }
    requires rooms { AreRoomsFor W.world.trace still.rooms }
    requires alone { W.watched ≡ None }
    ensures { IfOk result (λ outcome. IsRunOf (record { names = still.cells.names; trace = W.world.trace }) outcome) }
{
    let mut world: World<W> = open(rt, alloc, still)?;
    run(rt, &mut world, gate);
    Ok(finish(world))
}

/// Runs the trace on at most four threads while the caller waits; the gate is told of each operation and of each step. It waits for
/// locks, and returns where it gets them. Whatever the threads and the gate did, what comes back is a run of the trace:
/// its journal is a legal and complete history, and where every process has ended, all is reclaimed. It takes all memory before the
/// first operation.
///
/// # Errors
///
/// `NoMemory` where the run finds no room, before its first operation.
pub fn run_trace<G: Gate, R: Threads + Wait + Sync>(
    rt: &R,
    alloc: Global,
    trace: Trace,
    gate: &G,
) -> Result<Outcome, NoMemory>
    requires { IsTrace (meaning_of trace) }
    ensures { IfOk result (IsRunOf (meaning_of trace)) }
{
    let still = open_still(alloc, trace)?;
    run_still::<Brand, G, R>(rt, alloc, still, gate)
}

/// Does the operations of the trace in the order of the file, on the caller's thread and with no lock. What comes back is a run of the
/// trace, and its journal is the history in that order. It takes all memory before the first operation.
///
/// # Errors
///
/// `NoMemory` where the run finds no room, before its first operation.
pub fn replay_trace(alloc: Global, trace: Trace) -> Result<Outcome, NoMemory>
    requires { IsTrace (meaning_of trace) }
    ensures { IfOk result (λ outcome. IsRunOf (meaning_of trace) outcome × (journal_of outcome ≡ file_order (meaning_of trace).trace)) }
{
    let still = open_still(alloc, trace)?;
    Ok(replay(still))
}
