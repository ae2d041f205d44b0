//! Shared heaps that nobody shares, which the kernel absorbs, and its collection, which comes after that.
ghost use Rattle.k_operate.specs.Adding.{AddsOperation, known_to};
ghost use Rattle.k_operate.specs.Absorbing.{CanAbsorbOrphan, CanCollectKernel, HasAbsorbedOrphan, HasAbsorbedOrphans};
ghost use Rattle.k_operate.specs.Steps.{HasDoneNext};
ghost use Rattle.k_process.specs.BetweenSteps.{RestStands};
ghost use Rattle.k_process.specs.Worlds.{WorldValue};
ghost use Rattle.k_types.specs.declared.op.Op.TheVariants.{KCollect};

use crate::collecting::{
    begin_kernel_collection, end_kernel_collection, mark_kernel_collection, sweep_kernel_collection,
};
use k_own::absorb;
use k_process::{Book, KernelCell, Process, SharedCell};

/// The kernel absorbs the shared heap, the orphan of the lowest number. The cost is in proportion to the exit items of the heap
/// and of the kernel.
pub fn absorb_orphan(shared: &mut SharedCell, kernel: &mut KernelCell, book: &mut Book)
    ghost world: { WorldValue }
    requires { CanAbsorbOrphan world shared.old kernel.old book.old }
    ensures { HasAbsorbedOrphan world shared.old shared.new kernel.new book.old book.new }
{
    absorb(shared, kernel, book);
}

/// The kernel absorbs all orphans, by rising number. To find each takes time in the number of processes and shared heaps.
pub fn absorb_orphans(shared: &mut Vec<SharedCell>, kernel: &mut KernelCell, book: &mut Book)
    ghost world: { WorldValue }
    requires { RestStands world kernel.old shared.old.items book.old }
    ensures { HasAbsorbedOrphans world kernel.new shared.new.items book.old book.new }
{
    while let Some(id) = book.first_orphan() {
        let heap = &mut shared[id.0 as usize];
        absorb_orphan(heap, kernel, book);
    }
}

/// Does the operation `kcollect` from its beginning to its end: the kernel absorbs all orphans, and then its heap is collected. The
/// cost is that of the pieces.
pub fn do_collect_kernel(
    process: &mut Process,
    kernel: &mut KernelCell,
    shared: &mut Vec<SharedCell>,
    book: &mut Book,
)
    ghost world: { WorldValue }
    requires { CanCollectKernel world process.old kernel.old shared.old.items book.old }
    ensures done { HasDoneNext world KCollect process.old process.new kernel.new shared.new.items book.new }
    ensures events { AddsOperation world.trace process.old.cell.pid KCollect (known_to process.old book.old) (known_to process.new book.new) }
{
    absorb_orphans(shared, kernel, book);
    begin_kernel_collection(process, kernel, book);
    mark_kernel_collection(kernel);
    let freed = sweep_kernel_collection(kernel);
    end_kernel_collection(kernel, book, freed);
}
