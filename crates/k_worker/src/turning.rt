//! The next operation of a process, under the locks that it needs: each takes those of its process's heap, the kernel's, a shared heap's
//! and the book's in this order, as far as it needs them. A kill takes the locks of two processes' heaps, that of the lower number first.
ghost use Rattle.std.specs.Prelude.{IsFalse};
ghost use Rattle.k_operate.specs.Readiness.{begins_or_ends};
ghost use Rattle.k_locks.specs.k_process.BetweenSteps.{ComesNext};
ghost use Rattle.k_worker.specs.Running.{HasKilledUnless, HasTakenTurn};

use crate::collecting::{collect, collect_kernel, exit, go_on, kill};
use crate::stepping::{do_inside, do_under_book, do_under_kernel, do_under_shared};
use crate::stretching::go_inside;
use crate::turns::Turn;
use k_io::Gate;
use k_locks::{
    HoldsNone, HoldsProcess, LockedProcess, Locks, WorldName, lock_book, lock_kernel, lock_process,
    lock_shared, lock_two,
};
use k_operate::Reach;
use k_types::{Op, Pid};
use std::sync::{Mutex, Wait};

/// The most stretches behind one operation.
const STRETCHES: u32 = 4;

/// How many operations the process has done; none where no other one comes next, or where another process stands behind the lock.
pub fn done_behind<W: WorldName>(
    rt: &impl Wait,
    order: &mut HoldsNone,
    lock: &Mutex<LockedProcess<W>>,
    pid: Pid,
) -> Option<u64> {
    let (process, _) = lock_process(rt, order, lock);
    process.done_before_next(pid)
}

/// Does the operation, which neither collects nor ends its process, if its process's lock is the only one of a process that it needs. It is
/// left for the end where the cell of another shared heap stands behind the lock of the one that it reaches.
fn operate<W: WorldName>(
    rt: &impl Wait,
    order: &mut HoldsProcess<'_>,
    locks: &Locks<W>,
    process: &mut LockedProcess<W>,
    op: &Op,
    gate: &impl Gate,
) -> Turn
    requires next { ComesNext W.world.trace process.old op.now }
    requires steps { IsFalse (begins_or_ends op.now) }
    ensures { HasTakenTurn W.world process.old process.new result }
{
    if do_inside(process, op) {
        return Turn::Done;
    }
    let reached = do_under_book(
        rt,
        process,
        &mut lock_book(rt, order, &locks.book),
        op,
        gate,
    );
    match reached {
        Reach::Own => Turn::Done,
        Reach::Kernel => {
            let (mut kernel, mut under_kernel) = lock_kernel(rt, order, &locks.kernel);
            Turn::of(do_under_kernel(
                rt,
                process,
                &mut kernel,
                &mut lock_book(rt, &mut under_kernel, &locks.book),
                op,
                gate,
            ))
        }
        Reach::Shared(id) => match locks.shared.get(id.0 as usize) {
            Some(lock) => {
                let (mut shared, mut under_shared) = lock_shared(rt, order, lock);
                Turn::of(do_under_shared(
                    rt,
                    process,
                    &mut shared,
                    &mut lock_book(rt, &mut under_shared, &locks.book),
                    op,
                    gate,
                ))
            }
            None => Turn::Over,
        },
        Reach::End(target) => Turn::Kills(target),
    }
}

/// Does the operation, if its process's lock is the only one of a process that it needs.
fn do_any<W: WorldName>(
    rt: &impl Wait,
    order: &mut HoldsProcess<'_>,
    locks: &Locks<W>,
    process: &mut LockedProcess<W>,
    op: &Op,
    gate: &impl Gate,
) -> Turn
    requires { ComesNext W.world.trace process.old op.now }
    ensures { HasTakenTurn W.world process.old process.new result }
{
    match *op {
        Op::Collect => {
            collect(rt, process, order, &locks.book, gate);
            Turn::Done
        }
        Op::KCollect => Turn::of(collect_kernel(rt, order, locks, process, gate)),
        Op::Exit => {
            let (mut kernel, mut under_kernel) = lock_kernel(rt, order, &locks.kernel);
            exit(
                rt,
                process,
                &mut kernel,
                &mut lock_book(rt, &mut under_kernel, &locks.book),
                gate,
            );
            Turn::Done
        }
        _ => operate(rt, order, locks, process, op, gate),
    }
}

/// Does the next operation of the process, whose lock is held. There may be none; or it touches another cell and is left for the end,
/// where another one stands behind the lock of that cell than its place says; or it ends another process, whose lock is not held.
fn turn<W: WorldName>(
    rt: &impl Wait,
    order: &mut HoldsProcess<'_>,
    locks: &Locks<W>,
    process: &mut LockedProcess<W>,
    gate: &impl Gate,
) -> Turn
    ensures { HasTakenTurn W.world process.old process.new result }
{
    match process.next() {
        Some(op) => do_any(rt, order, locks, process, &op, gate),
        None => Turn::Over,
    }
}

/// Does the kill of the target, if that comes next of the process, and says whether it did. Both locks are held.
fn kill_both<W: WorldName>(
    rt: &impl Wait,
    order: &mut HoldsProcess<'_>,
    locks: &Locks<W>,
    process: &mut LockedProcess<W>,
    target: &mut LockedProcess<W>,
    gate: &impl Gate,
) -> bool
    ensures { HasKilledUnless W.world.trace process.old process.new target.old target.new result }
{
    let Some(op) = process.next() else {
        return false;
    };
    let Op::Kill { target: asked } = op else {
        return false;
    };
    if asked != target.pid() {
        return false;
    }
    let (mut kernel, mut under_kernel) = lock_kernel(rt, order, &locks.kernel);
    kill(
        rt,
        process,
        target,
        &mut kernel,
        &mut lock_book(rt, &mut under_kernel, &locks.book),
        &op,
        gate,
    );
    true
}

/// Has the process do its next operation, which was the kill of the target while its lock was held alone, and says whether it did. The
/// lock of the lower number is taken first, and what comes next is asked again: another process may have ended this one meanwhile.
fn kill_behind<W: WorldName>(
    rt: &impl Wait,
    order: &mut HoldsNone,
    locks: &Locks<W>,
    pid: Pid,
    target: Pid,
    gate: &impl Gate,
) -> bool {
    if pid.0 < target.0 {
        match lock_two(rt, order, locks, pid, target) {
            Some((mut process, mut target, mut under_both)) => {
                kill_both(rt, &mut under_both, locks, &mut process, &mut target, gate)
            }
            None => false,
        }
    } else if target.0 < pid.0 {
        match lock_two(rt, order, locks, target, pid) {
            Some((mut target, mut process, mut under_both)) => {
                kill_both(rt, &mut under_both, locks, &mut process, &mut target, gate)
            }
            None => false,
        }
    } else {
        false
    }
}

/// Does more operations of the process whose lock is held: those inside its heap, and then, under one hold of the book, what follows up to
/// and with a collection. The gate is not told before them.
fn stretch<W: WorldName>(
    rt: &impl Wait,
    order: &mut HoldsProcess<'_>,
    locks: &Locks<W>,
    process: &mut LockedProcess<W>,
    most: u32,
    gate: &impl Gate,
) {
    for _ in 0..STRETCHES {
        if !go_inside(process, most) || !go_on(rt, process, order, locks, most, gate) {
            return;
        }
    }
}

/// Has the process behind the lock do its next operation and a stretch of more, and says how many it has done then; none where it did not,
/// where no other one comes next, or where another process stands behind the lock.
pub fn turn_behind<W: WorldName>(
    rt: &impl Wait,
    order: &mut HoldsNone,
    locks: &Locks<W>,
    lock: &Mutex<LockedProcess<W>>,
    pid: Pid,
    most: u32,
    gate: &impl Gate,
) -> Option<u64> {
    let target = {
        let (mut process, mut under_process) = lock_process(rt, order, lock);
        match turn(rt, &mut under_process, locks, &mut process, gate) {
            Turn::Done => {
                stretch(rt, &mut under_process, locks, &mut process, most, gate);
                return process.done_before_next(pid);
            }
            Turn::Over => return None,
            Turn::Kills(target) => target,
        }
    };
    if !kill_behind(rt, order, locks, pid, target, gate) {
        return None;
    }
    done_behind(rt, order, lock, pid)
}
