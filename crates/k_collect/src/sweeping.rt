//! The sweep of a marked heap, which needs its cell alone.
ghost use Rattle.std.specs.Prelude.{◌≡◌, ◌≤◌, ◌+◌, length};
ghost use Rattle.k_types.specs.Trace.{Trace};
ghost use Rattle.k_types.specs.declared.names.Heap.TheVariants.{Kernel, User};
ghost use Rattle.k_agree.specs.Ending.{freed_objects};
ghost use Rattle.k_commit.specs.k_cell.Changes.{freed_at};
ghost use Rattle.k_mark.specs.Listening.{AreTold};
ghost use Rattle.k_collect.specs.SweptAlone.{CanSweepAlone, HasSweptAlone, KernelHasSweptAlone};

use k_commit::{HeapCell, KernelCell};
use k_mark::{Listener, Nobody, Swept};

/// Frees the objects of the process's heap that are not marked, under the lock of the heap alone, and answers what went. The cell
/// agrees with its note again once `end_swept_heap` has ended the collection. The cost is in proportion to the objects that were
/// live.
pub fn sweep_heap(cell: &mut HeapCell) -> Swept
    ghost trace: { Trace }
    requires { CanSweepAlone trace (User cell.old.pid) cell.old.note cell.old.value }
    ensures { HasSweptAlone cell.old cell.new result }
{
    let mut nobody = Nobody;
    sweep_heap_telling(cell, &mut nobody)
}

/// The same, and the name of each object that goes is told, in any order.
pub(crate) fn sweep_heap_telling<L: Listener>(cell: &mut HeapCell, listener: &mut L) -> Swept
    ghost trace: { Trace }
    requires { CanSweepAlone trace (User cell.old.pid) cell.old.note cell.old.value }
    ensures swept { HasSweptAlone cell.old cell.new result }
    ensures room { L.room listener.new ≡ L.room listener.old }
    ensures told { length (L.heard listener.old) + freed_objects cell.old.value ≤ L.room listener.old →
        AreTold (freed_at cell.old.value) (freed_objects cell.old.value) (L.heard listener.old) (L.heard listener.new) }
{
    let mut freed = Swept {
        objects: 0,
        bytes: 0,
    };
    cell.sweep_telling(&mut freed, listener);
    freed
}

/// Frees the objects of the kernel's heap that are not marked, under the lock of the heap alone, and answers what went. The cell
/// agrees with its note again once `end_swept_kernel` has ended the collection. The cost is in proportion to the objects that were
/// live.
pub fn sweep_kernel(kernel: &mut KernelCell) -> Swept
    ghost trace: { Trace }
    requires { CanSweepAlone trace Kernel kernel.old.note kernel.old.value }
    ensures { KernelHasSweptAlone kernel.old kernel.new result }
{
    let mut nobody = Nobody;
    sweep_kernel_telling(kernel, &mut nobody)
}

/// The same, and the name of each object that goes is told, in any order.
pub(crate) fn sweep_kernel_telling<L: Listener>(kernel: &mut KernelCell, listener: &mut L) -> Swept
    ghost trace: { Trace }
    requires { CanSweepAlone trace Kernel kernel.old.note kernel.old.value }
    ensures swept { KernelHasSweptAlone kernel.old kernel.new result }
    ensures room { L.room listener.new ≡ L.room listener.old }
    ensures told { length (L.heard listener.old) + freed_objects kernel.old.value ≤ L.room listener.old →
        AreTold (freed_at kernel.old.value) (freed_objects kernel.old.value) (L.heard listener.old) (L.heard listener.new) }
{
    let mut freed = Swept {
        objects: 0,
        bytes: 0,
    };
    kernel.sweep_telling(&mut freed, listener);
    freed
}
