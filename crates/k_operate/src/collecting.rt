//! Collections of a process's heap and of the kernel's, from their beginning to their end.
//!
//! Each is made of four pieces. The book is needed for the first and the last; marking and sweeping need their cell alone, and the
//! events of other processes may come in between.
ghost use Rattle.k_process.specs.Keeping.{BookKeeps};
ghost use Rattle.k_operate.specs.Adding.{AddsOperation, known_to};
ghost use Rattle.k_operate.specs.Collecting.{CanBeginKernelCollection, CanEndCollection, CanEndKernelCollection, Collects, HasBegunCollection, HasBegunKernelCollection, HasEndedCollection, HasEndedKernelCollection, HasMarkedCollection, HasSweptCollection, IsNextAndSettled, KernelCollects, KernelCollectsSwept};
ghost use Rattle.k_operate.specs.Steps.{HasDoneAlone};
ghost use Rattle.k_process.specs.Worlds.{WorldValue};
ghost use Rattle.k_types.specs.declared.names.CellPhase.TheVariants.{Begun, Marked};
ghost use Rattle.k_types.specs.declared.op.Op.TheVariants.{Collect};

use k_collect::{
    begin_heap, begin_kernel, end_swept_heap, end_swept_kernel, mark_heap, mark_kernel, sweep_heap,
    sweep_kernel,
};
use k_mark::Swept;
use k_process::{Book, KernelCell, Process};

/// Does the operation `collect`, with which the collection of the process's heap begins. The cost is in proportion to the exit items
/// of the heap and to its entered and pinned objects.
pub fn begin_collection(process: &mut Process, book: &mut Book)
    ghost world: { WorldValue }
    requires { IsNextAndSettled world process.old book.old Collect }
    ensures { HasBegunCollection world process.old process.new book.old book.new }
{
    begin_heap(&mut process.cell, book);
}

/// Marks what the roots of the process's heap reach. The cost is in proportion to the marked objects and their fields.
pub fn mark_collection(process: &mut Process)
    ghost world: { WorldValue }
    requires { Collects world Begun process.old }
    ensures { HasMarkedCollection world process.old process.new }
{
    mark_heap(&mut process.cell);
}

/// Frees the objects of the process's heap that are not marked, and answers what went. The cost is in proportion to the objects that
/// were live.
pub fn sweep_collection(process: &mut Process) -> Swept
    ghost world: { WorldValue }
    requires { Collects world Marked process.old }
    ensures { HasSweptCollection world process.old process.new result }
{
    sweep_heap(&mut process.cell)
}

/// Ends the collection of the process's heap, which is swept already: the exit items that are not marked go, and the shares without a
/// way. The book may have new events of other processes since the collection began. The cost is in proportion to the exit items, and
/// for each shared heap that the process shares to those that are left; it does not depend on the objects.
pub fn end_collection(process: &mut Process, book: &mut Book, freed: Swept)
    ghost world: { WorldValue }
    requires { CanEndCollection world process.old book.old freed }
    ensures { HasEndedCollection world process.old process.new book.old book.new }
{
    end_swept_heap(&mut process.cell, book, freed);
}

/// Does the operation `collect` from its beginning to its end. The cost is that of the four pieces.
pub fn do_collect(process: &mut Process, book: &mut Book)
    ghost world: { WorldValue }
    requires { IsNextAndSettled world process.old book.old Collect }
    ensures done { HasDoneAlone world Collect process.old process.new book.new }
    ensures events { AddsOperation world.trace process.old.cell.pid Collect (known_to process.old book.old) (known_to process.new book.new) }
{
    begin_collection(process, book);
    mark_collection(process);
    let freed = sweep_collection(process);
    end_collection(process, book, freed);
}

/// Does the operation `kcollect`, with which the collection of the kernel's heap begins, where no shared heap is an orphan. The cost
/// is in proportion to the kernel's segments and exit items and to its entered and pinned objects.
pub fn begin_kernel_collection(process: &mut Process, kernel: &mut KernelCell, book: &mut Book)
    ghost world: { WorldValue }
    requires { CanBeginKernelCollection world process.old kernel.old book.old }
    ensures { HasBegunKernelCollection world process.old process.new kernel.new book.old book.new }
{
    begin_kernel(&mut process.cell, kernel, book);
}

/// Marks what the roots of the kernel's heap reach. The cost is in proportion to the marked objects and their fields.
pub fn mark_kernel_collection(kernel: &mut KernelCell)
    ghost world: { WorldValue }
    requires { KernelCollects world Begun kernel.old }
    ensures { KernelCollects world Marked kernel.new }
{
    mark_kernel(kernel);
}

/// Frees the objects of the kernel's heap that are not marked, and answers what went. The cost is in proportion to the objects that
/// were live.
pub fn sweep_kernel_collection(kernel: &mut KernelCell) -> Swept
    ghost world: { WorldValue }
    requires { KernelCollects world Marked kernel.old }
    ensures { KernelCollectsSwept world kernel.new result }
{
    sweep_kernel(kernel)
}

/// Ends the collection of the kernel's heap, which is swept already: the exit items that are not marked go. The book may have new
/// events of other processes since the collection began. The cost is in proportion to the exit items; it does not depend on the
/// objects.
pub fn end_kernel_collection(kernel: &mut KernelCell, book: &mut Book, freed: Swept)
    ghost world: { WorldValue }
    requires { CanEndKernelCollection world kernel.old book.old freed }
    ensures { HasEndedKernelCollection world kernel.new book.old book.new }
{
    end_swept_kernel(kernel, book, freed);
}
