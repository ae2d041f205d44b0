//! A heap's segment that is given to the kernel whole.
ghost use Rattle.std.specs.Prelude.{◌≡◌, ◌+◌, ◌<◌, ◌^◌};
ghost use Rattle.k_commit.specs.k_heap.Heaps.{holdings_of as heap_holdings, own_segment};
ghost use Rattle.k_commit.specs.k_shared.SharedHeaps.{holdings_of as shared_holdings};
ghost use Rattle.k_own.specs.Segments.{CanGive, HasGiven};

use k_commit::{HeapCell, KernelCell, SharedCell};
use k_types::Seg;

/// Gives the kernel the segment of the process's heap with all its objects. Constant time in their number.
pub(crate) fn give_heap(cell: &mut HeapCell, kernel: &mut KernelCell)
    requires small { cell.old.pid.0 + 1 < 2 ^ 32 }
    requires can { CanGive (own_segment cell.old.pid) (heap_holdings cell.old) kernel.old }
    ensures rest { cell.new ≡ record cell.old { value = record cell.old.value { objects = cell.new.value.objects; made = cell.new.value.made }; serial_rooms = cell.new.serial_rooms } }
    ensures given { HasGiven (own_segment cell.old.pid) (heap_holdings cell.old) (heap_holdings cell.new) kernel.old kernel.new }
{
    let seg = Seg(cell.pid().0 + 1);
    let Some(segment) = cell.take_segment(seg) else {
        unreachable!()
    };
    kernel.take_heap(segment);
}

/// Gives the kernel the segment of the shared heap with all its objects. Constant time in their number.
pub(crate) fn give_shared(shared: &mut SharedCell, kernel: &mut KernelCell)
    requires { CanGive shared.old.seg.0 (shared_holdings shared.old) kernel.old }
    ensures rest { shared.new ≡ record shared.old { value = record shared.old.value { objects = shared.new.value.objects; made = shared.new.value.made }; serial_rooms = shared.new.serial_rooms } }
    ensures given { HasGiven shared.old.seg.0 (shared_holdings shared.old) (shared_holdings shared.new) kernel.old kernel.new }
{
    let seg = shared.seg();
    let Some(segment) = shared.take_segment(seg) else {
        unreachable!()
    };
    kernel.absorb(segment);
}
