//! The exit items that a collection drops, which the book leaves one by one.
ghost use Rattle.std.specs.Prelude.{◌≡◌};
ghost use Rattle.k_types.specs.declared.names.CellPhase.TheVariants.{Marked};
ghost use Rattle.k_types.specs.Distinct.{AreDistinctNames};
ghost use Rattle.k_agree.specs.Ending.{HasLeft, dropped, dropped_exits};
ghost use Rattle.k_commit.specs.k_book.Calls.{ChangesEntries};
ghost use Rattle.k_collect.specs.Leaving.{HasItsEntries, HasLeftUnmarked};

use k_commit::{Book, HeapCell, KernelCell};

/// Drops the exit items of the process's heap that are not black, each with its entry, and counts them. It passes each exit item
/// of the heap once.
pub(crate) fn leave_unmarked(cell: &mut HeapCell, book: &mut Book) -> u32
    requires marked { cell.old.value.collection ≡ Marked }
    requires entries { HasItsEntries cell.old.value book.old.value }
    ensures rest { cell.new ≡ record cell.old { value = cell.new.value } }
    ensures cell { HasLeftUnmarked cell.old.value cell.new.value }
    ensures book { ChangesEntries book.old book.new }
    ensures left { HasLeft (dropped cell.old.value) book.old.value book.new.value }
    ensures count { result ≡ dropped_exits cell.old.value }
    ensures distinct { AreDistinctNames cell.old.value.exits }
{
    let before = cell.exit_count();
    while let Some(target) = cell.take_unmarked() {
        book.leave(target);
    }
    before - cell.exit_count()
}

/// The same for the kernel's heap.
pub(crate) fn leave_kernel_unmarked(kernel: &mut KernelCell, book: &mut Book) -> u32
    requires marked { kernel.old.value.collection ≡ Marked }
    requires entries { HasItsEntries kernel.old.value book.old.value }
    ensures rest { kernel.new ≡ record kernel.old { value = kernel.new.value } }
    ensures cell { HasLeftUnmarked kernel.old.value kernel.new.value }
    ensures book { ChangesEntries book.old book.new }
    ensures left { HasLeft (dropped kernel.old.value) book.old.value book.new.value }
    ensures count { result ≡ dropped_exits kernel.old.value }
    ensures distinct { AreDistinctNames kernel.old.value.exits }
{
    let before = kernel.exit_count();
    while let Some(gone) = kernel.take_unmarked() {
        book.leave(gone);
    }
    before - kernel.exit_count()
}
