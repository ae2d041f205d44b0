//! Operations that follow one another under one hold of the book.
ghost use Rattle.std.specs.Prelude.{IsFalse};
ghost use Rattle.k_operate.specs.Readiness.{begins_or_ends};
ghost use Rattle.k_locks.specs.k_process.BetweenSteps.{ComesNext};

use crate::stepping::{do_inside, do_under_book, do_under_kernel};
use k_io::Gate;
use k_locks::{LockedBook, LockedProcess, Locks, WorldName, try_kernel};
use k_operate::Reach;
use k_types::Op;
use std::sync::Wait;

/// Does the operation, and says whether it did. The lock of the kernel's heap comes before the book's, which is held: so nobody waits for
/// it here, and where another worker has it the operation is left for a turn of its own.
fn follow_step<W: WorldName>(
    rt: &impl Wait,
    locks: &Locks<W>,
    process: &mut LockedProcess<W>,
    book: &mut LockedBook<W>,
    op: &Op,
    gate: &impl Gate,
) -> bool
    requires next { ComesNext W.world.trace process.old op.now }
    requires steps { IsFalse (begins_or_ends op.now) }
{
    if do_inside(process, op) {
        return true;
    }
    match do_under_book(rt, process, book, op, gate) {
        Reach::Own => true,
        Reach::Kernel => match try_kernel(&locks.kernel) {
            Some(mut kernel) => do_under_kernel(rt, process, &mut kernel, book, op, gate),
            None => false,
        },
        Reach::Shared(_) => false,
        Reach::End(_) => false,
    }
}

/// The same of any operation: one that begins a collection or ends its process is left.
fn follow_any<W: WorldName>(
    rt: &impl Wait,
    locks: &Locks<W>,
    process: &mut LockedProcess<W>,
    book: &mut LockedBook<W>,
    op: &Op,
    gate: &impl Gate,
) -> bool
    requires { ComesNext W.world.trace process.old op.now }
{
    match *op {
        Op::Collect => false,
        Op::KCollect => false,
        Op::Exit => false,
        _ => follow_step(rt, locks, process, book, op, gate),
    }
}

/// Does what comes next of the process under the hold of the book, so many operations at most.
pub(crate) fn follow<W: WorldName>(
    rt: &impl Wait,
    locks: &Locks<W>,
    process: &mut LockedProcess<W>,
    book: &mut LockedBook<W>,
    most: u32,
    gate: &impl Gate,
) {
    for _ in 0..most {
        match process.next() {
            Some(op) => {
                if !follow_any(rt, locks, process, book, &op, gate) {
                    return;
                }
            }
            None => return,
        }
    }
}

/// Does what comes next inside the heap of the process, so many operations at most, and says whether one comes then that needs more.
pub(crate) fn go_inside<W: WorldName>(process: &mut LockedProcess<W>, most: u32) -> bool {
    for _ in 0..most {
        match process.next() {
            Some(op) => {
                if !do_inside(process, &op) {
                    return true;
                }
            }
            None => return false,
        }
    }
    false
}
