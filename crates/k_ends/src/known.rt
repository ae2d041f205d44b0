//! What the tables of cells keep, told where a step asks for it.
ghost use Rattle.std.specs.Prelude.{◌≤◌, length};
ghost use Rattle.k_types.specs.Distinct.{AreDistinctNames};

use k_heap::HeapCell;
use k_kernel::KernelCell;

/// Tells that no exit item of the process stands twice, and that there are no more than it has room for.
pub(crate) fn know_exits(cell: &HeapCell)
    ensures distinct { AreDistinctNames cell.now.value.exits }
    ensures room { length cell.now.value.exits ≤ cell.now.exit_room }
{
    cell.exit_count();
}

/// Tells the same of the kernel's exit items.
pub(crate) fn know_kernel_exits(kernel: &KernelCell)
    ensures { AreDistinctNames kernel.now.value.exits }
{
    kernel.exit_count();
}
