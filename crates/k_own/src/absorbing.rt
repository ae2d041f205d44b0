//! The absorption of a shared heap that nobody shares.
ghost use Rattle.std.specs.Prelude.{◌≡◌, ◌<◌, length};
ghost use Rattle.k_types.specs.Trace.{Trace};
ghost use Rattle.k_types.specs.declared.names.Phase.TheVariants.{Absorbed};
ghost use Rattle.k_commit.specs.k_shared.SharedHeaps.{with_phase};
ghost use Rattle.k_own.specs.Absorbing.{CanAbsorb, HasAbsorbedHeap, HasTakenOver, HaveMetToAbsorb};
ghost use Rattle.k_own.specs.Ending.{MarksAbsorbed};

use crate::exits::{cut_exits, leave_exits};
use crate::segments::give_shared;
use k_commit::{Book, KernelCell, SharedCell, append_shared_and_kernel, meet_kernel, meet_shared};
use k_types::{Event, Heap, Phase};

/// The kernel absorbs the shared heap, an orphan: a heap that was made and that nobody shares. Its objects are the kernel's
/// afterwards. It answers the event that it appended, and takes no memory. The cost is in proportion to the exit items of the heap
/// and of the kernel, whatever the number of objects.
pub fn absorb(shared: &mut SharedCell, kernel: &mut KernelCell, book: &mut Book) -> Event
    ghost trace: { Trace }
    requires { CanAbsorb trace shared.old kernel.old book.old }
    ensures { HasAbsorbedHeap trace shared.old shared.new kernel.old kernel.new book.old book.new result }
{
    meet_shared(shared, book);
    meet_kernel(kernel, book);
    take_over(shared, kernel, book);
    let event = Event::Absorbed {
        shared: shared.id(),
    };
    append_shared_and_kernel(shared, kernel, book, event);
    event
}

/// Has cells and book as they are after the absorption.
fn take_over(shared: &mut SharedCell, kernel: &mut KernelCell, book: &mut Book)
    ghost trace: { Trace }
    requires { HaveMetToAbsorb trace shared.old kernel.old book.old }
    ensures { HasTakenOver trace shared.old shared.new kernel.old kernel.new book.old book.new }
{
    let seg = shared.seg();
    leave_exits(shared, book);
    cut_exits(kernel, book, seg);
    give_shared(shared, kernel);
    mark_absorbed(shared, book);
}

/// The shared heap is absorbed, and its segment the kernel's, as its cell and the book tell.
fn mark_absorbed(shared: &mut SharedCell, book: &mut Book)
    requires heap { shared.old.id.0 < length book.old.value.phases }
    requires home { shared.old.seg.0 < length book.old.value.homes }
    ensures cell { shared.new ≡ record shared.old { value = with_phase Absorbed shared.old.value } }
    ensures book { MarksAbsorbed book.old book.new shared.old.id.0 shared.old.seg.0 }
{
    shared.set_phase(Phase::Absorbed);
    book.set_phase(shared.id(), Phase::Absorbed);
    book.rehome(shared.seg(), Heap::Kernel);
}
