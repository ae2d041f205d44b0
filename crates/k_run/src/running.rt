//! Workers on threads, which draw processes and do their operations.
ghost use Rattle.std.specs.Prelude.{◌≡◌};

use k_io::{Gate, GatePlace};
use k_opening::{Locks, MOST_WORKERS, World, WorldName};
use k_turns::work_all;
use k_types::Pid;
use k_worker::{HoldsNone, done_behind, told, turn_behind};
use std::sync::Wait;
use std::thread::Threads;

/// How often a worker goes on with a process before others have their turn.
const STEPS_A_TURN: u32 = 64;

/// So many operations of a process end a turn. The last stretch of them may go beyond.
const OPERATIONS_A_TURN: u64 = 1_024;

/// Does what the processes have to do, by as many workers as there are processes and at most four. Each draws the process that has
/// waited longest, does a thousand of its operations or somewhat more, and gives it back, or lets it go where nothing is left to do; where
/// no thread can be made for a worker, the caller does its work. The gate says how many operations a stretch may have; it is told of each step, and of
/// each operation that is in no stretch. It waits for locks and for the queue, and takes no memory. What it leaves, `finish` does.
pub fn run<W: WorldName + Send + Sync, G: Gate, R: Threads + Wait + Sync>(
    rt: &R,
    world: &mut World<W>,
    gate: &G,
)
    ensures { world.new ≡ world.old }
{
    let (locks, stretch) = (&world.locks, gate.stretch());
    work_all(
        rt,
        &world.turns,
        world.passes.as_mut_slice(),
        MOST_WORKERS as usize,
        &|pid: Pid| -> bool { take_turn(rt, locks, pid, stretch, gate) },
    );
}

/// One turn of the process, and whether it may have more to do. A worker holds no lock between turns, so each begins with the token that says so.
/// Before each operation and the stretch behind it the gate is told with no lock held; how many are done by then is seen once before the turn,
/// and then under the hold of the operation before.
fn take_turn<W: WorldName, G: Gate>(
    rt: &impl Wait,
    locks: &Locks<W>,
    pid: Pid,
    stretch: u32,
    gate: &G,
) -> bool {
    let Some(lock) = locks.processes.get(pid.0 as usize) else {
        return false;
    };
    let mut order = HoldsNone::between_turns();
    let Some(first) = done_behind(rt, &mut order, lock, pid) else {
        return false;
    };
    let mut done = first;
    for _ in 0..STEPS_A_TURN {
        gate.pass(pid.0, told(done), GatePlace::BeforeOp);
        let Some(next) = turn_behind(rt, &mut order, locks, lock, pid, stretch, gate) else {
            return false;
        };
        done = next;
        if done >= first && done - first >= OPERATIONS_A_TURN {
            return true;
        }
    }
    true
}
