//! Collections, absorptions and ends of processes under locks. While a heap is marked and swept its lock is held, and the book is free.
ghost use Rattle.std.specs.Prelude.{IsFalse, IsTrue, ◌≡◌};
ghost use Rattle.k_locks.specs.k_process.Keeping.{KernelKeeps};
ghost use Rattle.k_operate.specs.Collecting.{Collects, CollectsSwept, HasSameLeft, KernelCollectsSwept};
ghost use Rattle.k_locks.specs.k_process.BetweenSteps.{ComesNext, HasDone, ProcessStands};
ghost use Rattle.k_worker.specs.Running.{HasBegunUnless, HasCollectedUnless, IsAbsorbedIfFirst, IsLeft};
ghost use Rattle.k_types.specs.declared.names.CellPhase.TheVariants.{Begun};
ghost use Rattle.k_types.specs.declared.op.Op.TheVariants.{Collect, Exit, KCollect, Kill};

use crate::marking::{
    mark_collection, mark_kernel_collection, sweep_collection, sweep_kernel_collection,
};
use crate::stepping::tell;
use crate::stretching::follow;
use k_io::{Gate, GatePlace};
use k_locks::{
    HoldsKernel, HoldsProcess, KernelCell, LockedBook, LockedKernel, LockedProcess, LockedShared,
    Locks, Process, WorldName, lock_book, lock_kernel, lock_shared, show,
};
use k_mark::Swept;
use k_operate::{
    absorb_orphan, begin_collection, begin_kernel_collection, do_exit, do_kill, end_collection,
    end_kernel_collection, publish_all,
};
use k_types::{Op, SharedId};
use std::sync::{Mutex, Wait};

/// Publishes what the process did inside its heap, and begins the heap's collection.
fn begin<W: WorldName>(
    rt: &impl Wait,
    process: &mut Process,
    book: &mut LockedBook<W>,
    gate: &impl Gate,
)
    requires stands { ProcessStands W.world process.old }
    requires next { ComesNext W.world.trace process.old.cell Collect }
    ensures collects { Collects W.world Begun process.new }
    ensures done { HasDone W.world.trace Collect process.old.cell process.new.cell }
{
    publish_all(process, &mut book.book);
    tell(process, gate, GatePlace::InBook);
    begin_collection(process, &mut book.book);
    show(rt, &mut book.pen, &book.book);
}

/// Ends the collection of the process's heap, which is swept already.
fn end<W: WorldName>(
    rt: &impl Wait,
    process: &mut Process,
    book: &mut LockedBook<W>,
    freed: Swept,
    gate: &impl Gate,
)
    requires { CollectsSwept W.world process.old freed }
    ensures stands { ProcessStands W.world process.new }
    ensures same { HasSameLeft W.world.trace process.old.cell process.new.cell }
{
    tell(process, gate, GatePlace::InBook);
    end_collection(process, &mut book.book, freed);
    show(rt, &mut book.pen, &book.book);
}

/// Does `collect`. It holds the book where the collection begins and where it ends; the heap is marked and swept in between.
pub(crate) fn collect<W: WorldName>(
    rt: &impl Wait,
    process: &mut LockedProcess<W>,
    order: &mut HoldsProcess<'_>,
    book: &Mutex<LockedBook<W>>,
    gate: &impl Gate,
)
    requires { ComesNext W.world.trace process.old Collect }
    ensures { HasDone W.world.trace Collect process.old process.new }
{
    begin(
        rt,
        &mut process.process,
        &mut lock_book(rt, order, book),
        gate,
    );
    tell(&process.process, gate, GatePlace::Marking);
    mark_collection(order, &mut process.process);
    let freed = sweep_collection(order, &mut process.process);
    end(
        rt,
        &mut process.process,
        &mut lock_book(rt, order, book),
        freed,
        gate,
    );
}

/// Goes on under one hold of the book: it does so many operations at most, and begins a collection of the heap if that comes next
/// then. It marks, sweeps and ends the collection, and says whether there was one.
pub(crate) fn go_on<W: WorldName>(
    rt: &impl Wait,
    process: &mut LockedProcess<W>,
    order: &mut HoldsProcess<'_>,
    locks: &Locks<W>,
    most: u32,
    gate: &impl Gate,
) -> bool {
    {
        let mut book = lock_book(rt, order, &locks.book);
        follow(rt, locks, process, &mut book, most, gate);
        match process.next() {
            Some(Op::Collect) => begin(rt, &mut process.process, &mut book, gate),
            _ => return false,
        }
    }
    tell(&process.process, gate, GatePlace::Marking);
    mark_collection(order, &mut process.process);
    let freed = sweep_collection(order, &mut process.process);
    end(
        rt,
        &mut process.process,
        &mut lock_book(rt, order, &locks.book),
        freed,
        gate,
    );
    true
}

/// Does `exit`.
pub(crate) fn exit<W: WorldName>(
    rt: &impl Wait,
    process: &mut LockedProcess<W>,
    kernel: &mut LockedKernel<W>,
    book: &mut LockedBook<W>,
    gate: &impl Gate,
)
    requires { ComesNext W.world.trace process.old Exit }
    ensures { HasDone W.world.trace Exit process.old process.new }
{
    publish_all(&mut process.process, &mut book.book);
    tell(&process.process, gate, GatePlace::InBook);
    do_exit(&mut process.process, &mut kernel.kernel, &mut book.book);
    show(rt, &mut book.pen, &book.book);
}

/// Does the `kill` of the target, whose lock is held too.
pub(crate) fn kill<W: WorldName>(
    rt: &impl Wait,
    process: &mut LockedProcess<W>,
    target: &mut LockedProcess<W>,
    kernel: &mut LockedKernel<W>,
    book: &mut LockedBook<W>,
    op: &Op,
    gate: &impl Gate,
)
    requires next { ComesNext W.world.trace process.old op.now }
    requires asks { op.now ≡ Kill target.old.pid }
    ensures own { HasDone W.world.trace op.now process.old process.new }
    ensures target { HasSameLeft W.world.trace target.old target.new }
{
    tell(&process.process, gate, GatePlace::InBook);
    do_kill(
        &mut process.process,
        &mut target.process,
        &mut kernel.kernel,
        &mut book.book,
        op,
    );
    show(rt, &mut book.pen, &book.book);
}

/// Publishes what the process did inside its heap, and begins the kernel's collection, unless a shared heap is an orphan: it answers
/// the first one then.
fn begin_kernel<W: WorldName>(
    rt: &impl Wait,
    process: &mut LockedProcess<W>,
    kernel: &mut KernelCell,
    book: &mut LockedBook<W>,
    gate: &impl Gate,
) -> Option<SharedId>
    requires kernel { KernelKeeps W.world.trace W.world.table kernel.old }
    requires next { ComesNext W.world.trace process.old KCollect }
    ensures { HasBegunUnless result W.world process.old process.new kernel.new }
{
    publish_all(&mut process.process, &mut book.book);
    match book.book.first_orphan() {
        Some(orphan) => {
            show(rt, &mut book.pen, &book.book);
            Some(orphan)
        }
        None => {
            tell(&process.process, gate, GatePlace::InBook);
            begin_kernel_collection(&mut process.process, kernel, &mut book.book);
            show(rt, &mut book.pen, &book.book);
            None
        }
    }
}

/// Ends the collection of the kernel's heap, which the process began, and which is swept already.
fn end_kernel<W: WorldName>(
    rt: &impl Wait,
    process: &LockedProcess<W>,
    kernel: &mut KernelCell,
    book: &mut LockedBook<W>,
    freed: Swept,
    gate: &impl Gate,
)
    requires { KernelCollectsSwept W.world kernel.old freed }
    ensures { KernelKeeps W.world.trace W.world.table kernel.new }
{
    tell(&process.process, gate, GatePlace::InBook);
    end_kernel_collection(kernel, &mut book.book, freed);
    show(rt, &mut book.pen, &book.book);
}

/// Does `kcollect` unless a shared heap is an orphan: it answers the first one then. It holds the book where the collection begins
/// and where it ends; the heap is marked and swept in between.
fn try_collect_kernel<W: WorldName>(
    rt: &impl Wait,
    kernel: &mut LockedKernel<W>,
    order: &mut HoldsKernel<'_>,
    process: &mut LockedProcess<W>,
    book: &Mutex<LockedBook<W>>,
    gate: &impl Gate,
) -> Option<SharedId>
    requires { ComesNext W.world.trace process.old KCollect }
    ensures { HasCollectedUnless result W.world process.old process.new }
{
    let in_the_way = begin_kernel(
        rt,
        process,
        &mut kernel.kernel,
        &mut lock_book(rt, order, book),
        gate,
    );
    match in_the_way {
        Some(orphan) => Some(orphan),
        None => {
            mark_kernel_collection(order, &mut kernel.kernel);
            let freed = sweep_kernel_collection(order, &mut kernel.kernel);
            end_kernel(
                rt,
                process,
                &mut kernel.kernel,
                &mut lock_book(rt, order, book),
                freed,
                gate,
            );
            None
        }
    }
}

/// Has the kernel absorb the shared heap, if it is the first orphan still. It says no where the cell is another one's.
fn leave<W: WorldName>(
    rt: &impl Wait,
    shared: &mut LockedShared<W>,
    kernel: &mut LockedKernel<W>,
    book: &mut LockedBook<W>,
    orphan: SharedId,
    process: &LockedProcess<W>,
    gate: &impl Gate,
) -> bool
    ensures { IsTrue result → IsAbsorbedIfFirst orphan book.old book.new }
{
    if shared.shared.id() != orphan {
        return false;
    }
    let Some(first) = book.book.first_orphan() else {
        return true;
    };
    if first != orphan {
        return true;
    }
    tell(&process.process, gate, GatePlace::InBook);
    absorb_orphan(&mut shared.shared, &mut kernel.kernel, &mut book.book);
    show(rt, &mut book.pen, &book.book);
    true
}

/// Does `kcollect`, once no shared heap is an orphan, and says whether it did. It is left for the end where the cell of another shared
/// heap stands behind an orphan's lock.
pub(crate) fn collect_kernel<W: WorldName>(
    rt: &impl Wait,
    order: &mut HoldsProcess<'_>,
    locks: &Locks<W>,
    process: &mut LockedProcess<W>,
    gate: &impl Gate,
) -> bool
    requires { ComesNext W.world.trace process.old KCollect }
    ensures done { IsTrue result → HasDone W.world.trace KCollect process.old process.new }
    ensures left { IsFalse result → IsLeft W.world process.new KCollect }
{
    let (mut kernel, mut under_kernel) = lock_kernel(rt, order, &locks.kernel);
    for _ in rt.forever() {
        let Some(orphan) = try_collect_kernel(
            rt,
            &mut kernel,
            &mut under_kernel,
            process,
            &locks.book,
            gate,
        ) else {
            return true;
        };
        let Some(lock) = locks.shared.get(orphan.0 as usize) else {
            return false;
        };
        let (mut shared, mut under_shared) = lock_shared(rt, &mut under_kernel, lock);
        if !leave(
            rt,
            &mut shared,
            &mut kernel,
            &mut lock_book(rt, &mut under_shared, &locks.book),
            orphan,
            process,
            gate,
        ) {
            return false;
        }
    }
    unreachable!()
}
