//! Cells that meet the journal.
ghost use Rattle.k_types.specs.Trace.{Trace};
ghost use Rattle.k_types.specs.declared.names.Heap.TheVariants.{Kernel, Shared, User};
ghost use Rattle.k_commit.specs.Met.{CanMeet, HeapHasMet, KernelHasMet, SharedHasMet};

use k_book::Book;
use k_heap::HeapCell;
use k_kernel::KernelCell;
use k_shared::SharedCell;

/// The process's cell meets the journal, and speaks of all of it: no event of the journal has touched it unseen. Constant time.
pub fn meet_heap(cell: &mut HeapCell, book: &mut Book)
    ghost trace: { Trace }
    requires { CanMeet trace (User cell.old.pid) cell.old.note cell.old.value book.old }
    ensures { HeapHasMet trace cell.old cell.new book.old book.new }
{
    book.meet(cell.note_mut());
}

/// The kernel's cell meets the journal. Constant time.
pub fn meet_kernel(kernel: &mut KernelCell, book: &mut Book)
    ghost trace: { Trace }
    requires { CanMeet trace Kernel kernel.old.note kernel.old.value book.old }
    ensures { KernelHasMet trace kernel.old kernel.new book.old book.new }
{
    book.meet(kernel.note_mut());
}

/// The cell of a shared heap meets the journal. Constant time.
pub fn meet_shared(shared: &mut SharedCell, book: &mut Book)
    ghost trace: { Trace }
    requires { CanMeet trace (Shared shared.old.id) shared.old.note shared.old.value book.old }
    ensures { SharedHasMet trace shared.old shared.new book.old book.new }
{
    book.meet(shared.note_mut());
}
