//! Marking, which needs its cell alone.
ghost use Rattle.std.specs.Prelude.{◌≡◌};
ghost use Rattle.k_types.specs.Trace.{Trace};
ghost use Rattle.k_types.specs.declared.names.CellPhase.TheVariants.{Marked};
ghost use Rattle.k_types.specs.declared.names.Heap.TheVariants.{Kernel, User};
ghost use Rattle.k_collect.specs.Marking.{CanMark, HasMarkedOn};

use k_commit::{HeapCell, KernelCell};

/// Marks what the roots of the process's heap reach, under the lock of the heap alone. The cost is in proportion to the marked
/// objects and their fields.
pub fn mark_heap(cell: &mut HeapCell)
    ghost trace: { Trace }
    requires { CanMark trace (User cell.old.pid) cell.old.note cell.old.value }
    ensures rest { cell.new ≡ record cell.old { value = cell.new.value } }
    ensures marked { HasMarkedOn trace (User cell.old.pid) cell.old.note cell.old.value cell.new.value }
{
    cell.mark();
}

/// Marks what the roots of the kernel's heap reach, under the lock of the heap alone. The cost is in proportion to the marked
/// objects and their fields.
pub fn mark_kernel(kernel: &mut KernelCell)
    ghost trace: { Trace }
    requires { CanMark trace Kernel kernel.old.note kernel.old.value }
    ensures rest { kernel.new ≡ record kernel.old { value = kernel.new.value } }
    ensures marked { HasMarkedOn trace Kernel kernel.old.note kernel.old.value kernel.new.value }
{
    kernel.mark();
}
