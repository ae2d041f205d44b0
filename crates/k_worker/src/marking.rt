//! Heaps are marked and swept under a token of the order of locks: while the book is held none is free.
ghost use Rattle.k_operate.specs.Collecting.{Collects, HasMarkedCollection, HasSweptCollection, KernelCollects, KernelCollectsSwept};
ghost use Rattle.k_locks.specs.k_process.Worlds.{WorldValue};
ghost use Rattle.k_types.specs.declared.names.CellPhase.TheVariants.{Begun, Marked};

use k_locks::{HoldsKernel, HoldsProcess, KernelCell, Process};
use k_mark::Swept;

/// Marks what the roots of the process's heap reach, where the book is not held.
pub(crate) fn mark_collection(_order: &mut HoldsProcess<'_>, process: &mut Process)
    ghost world: { WorldValue }
    requires { Collects world Begun process.old }
    ensures { HasMarkedCollection world process.old process.new }
{
    k_operate::mark_collection(process);
}

/// Frees the objects of the process's heap that are not marked, where the book is not held, and answers what went.
pub(crate) fn sweep_collection(_order: &mut HoldsProcess<'_>, process: &mut Process) -> Swept
    ghost world: { WorldValue }
    requires { Collects world Marked process.old }
    ensures { HasSweptCollection world process.old process.new result }
{
    k_operate::sweep_collection(process)
}

/// Marks what the roots of the kernel's heap reach, where the book is not held.
pub(crate) fn mark_kernel_collection(_order: &mut HoldsKernel<'_>, kernel: &mut KernelCell)
    ghost world: { WorldValue }
    requires { KernelCollects world Begun kernel.old }
    ensures { KernelCollects world Marked kernel.new }
{
    k_operate::mark_kernel_collection(kernel);
}

/// Frees the objects of the kernel's heap that are not marked, where the book is not held, and answers what went.
pub(crate) fn sweep_kernel_collection(
    _order: &mut HoldsKernel<'_>,
    kernel: &mut KernelCell,
) -> Swept
    ghost world: { WorldValue }
    requires { KernelCollects world Marked kernel.old }
    ensures { KernelCollectsSwept world kernel.new result }
{
    k_operate::sweep_kernel_collection(kernel)
}
