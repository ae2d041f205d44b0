//! The next operation of a process whose lock is held.
ghost use Rattle.std.specs.Prelude.{IsFalse};
ghost use Rattle.k_locks.specs.k_process.BetweenSteps.{ComesNext};
ghost use Rattle.k_operate.specs.Readiness.{IsOutside, IsReady, begins_or_ends};
ghost use Rattle.k_worker.specs.Running.{HasDoneBeside, HasDoneUnless, IsReadyFor};
ghost use Rattle.k_types.specs.declared.names.Heap.TheVariants.{Kernel, Shared};

use k_io::{Gate, GatePlace};
use k_locks::{LockedBook, LockedKernel, LockedProcess, LockedShared, Process, WorldName, show};
use k_operate::{Reach, do_alone, do_with_kernel, do_with_shared, publish_all, reach};
use k_types::Op;
use std::sync::Wait;

/// How many operations are done, as a gate is told it: a trace has fewer than 32 bits count.
pub fn told(done: u64) -> u32 {
    done.min(u64::from(u32::MAX)) as u32
}

/// Tells the gate that the process is at the place.
pub(crate) fn tell(process: &Process, gate: &impl Gate, place: GatePlace) {
    gate.pass(process.cell.pid().0, told(process.cell.done()), place);
}

/// Does the operation inside the process's own heap, if it needs that heap alone, and says whether it did.
pub(crate) fn do_inside<W: WorldName>(process: &mut LockedProcess<W>, op: &Op) -> bool
    requires { ComesNext W.world.trace process.old op.now }
    ensures { HasDoneUnless W.world.trace op.now process.old process.new result }
{
    k_operate::do_inside(&mut process.process, op)
}

/// Publishes what was done inside the heap, and does the operation if it touches the process's own cell alone. It answers what the
/// operation reaches.
pub(crate) fn do_under_book<W: WorldName>(
    rt: &impl Wait,
    process: &mut LockedProcess<W>,
    book: &mut LockedBook<W>,
    op: &Op,
    gate: &impl Gate,
) -> Reach
    requires outside { IsOutside W.world.trace process.old op.now }
    requires steps { IsFalse (begins_or_ends op.now) }
    ensures { IsReadyFor result W.world op.now process.old process.new }
{
    publish_all(&mut process.process, &mut book.book);
    let reached = reach(&process.process.cell, &book.book, op);
    match reached {
        Reach::Own => {
            tell(&process.process, gate, GatePlace::InBook);
            do_alone(&mut process.process, &mut book.book, op);
            show(rt, &mut book.pen, &book.book);
        }
        Reach::Kernel => show(rt, &mut book.pen, &book.book),
        Reach::Shared(_) => show(rt, &mut book.pen, &book.book),
        Reach::End(_) => show(rt, &mut book.pen, &book.book),
    }
    reached
}

/// Does the operation if it reaches the kernel's cell, and says whether it did.
pub(crate) fn do_under_kernel<W: WorldName>(
    rt: &impl Wait,
    process: &mut LockedProcess<W>,
    kernel: &mut LockedKernel<W>,
    book: &mut LockedBook<W>,
    op: &Op,
    gate: &impl Gate,
) -> bool
    requires ready { IsReady W.world.trace process.old op.now }
    requires steps { IsFalse (begins_or_ends op.now) }
    ensures { HasDoneBeside W.world.trace op.now Kernel process.old process.new book.old result }
{
    match reach(&process.process.cell, &book.book, op) {
        Reach::Own => false,
        Reach::Kernel => {
            tell(&process.process, gate, GatePlace::InBook);
            do_with_kernel(&mut process.process, &mut kernel.kernel, &mut book.book, op);
            show(rt, &mut book.pen, &book.book);
            true
        }
        Reach::Shared(_) => false,
        Reach::End(_) => false,
    }
}

/// Does the operation if it reaches the shared heap's cell, and says whether it did.
pub(crate) fn do_under_shared<W: WorldName>(
    rt: &impl Wait,
    process: &mut LockedProcess<W>,
    shared: &mut LockedShared<W>,
    book: &mut LockedBook<W>,
    op: &Op,
    gate: &impl Gate,
) -> bool
    requires ready { IsReady W.world.trace process.old op.now }
    requires steps { IsFalse (begins_or_ends op.now) }
    ensures { HasDoneBeside W.world.trace op.now (Shared shared.old.id) process.old process.new book.old result }
{
    match reach(&process.process.cell, &book.book, op) {
        Reach::Own => false,
        Reach::Kernel => false,
        Reach::Shared(id) => {
            if shared.shared.id() != id {
                return false;
            }
            tell(&process.process, gate, GatePlace::InBook);
            do_with_shared(&mut process.process, &mut shared.shared, &mut book.book, op);
            show(rt, &mut book.pen, &book.book);
            true
        }
        Reach::End(_) => false,
    }
}
