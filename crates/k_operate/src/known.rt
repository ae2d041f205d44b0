//! What the tables of cells and of the book keep, told where a step asks for it.
ghost use Rattle.k_types.specs.Distinct.{AreDistinctNames};
ghost use Rattle.k_process.specs.k_book.Books.{book_entries};
ghost use Rattle.k_entry.specs.Entries.{AreEntries};

use k_process::{Book, HeapCell, KernelCell, SharedCell};
use k_types::Heap;

/// Tells that no exit item of the process stands twice.
pub(crate) fn know_exits(cell: &HeapCell)
    ensures { AreDistinctNames cell.now.value.exits }
{
    cell.exit_count();
}

/// Tells the same of the kernel's exit items.
pub(crate) fn know_kernel_exits(kernel: &KernelCell)
    ensures { AreDistinctNames kernel.now.value.exits }
{
    kernel.exit_count();
}

/// Tells the same of a shared heap's exit items.
pub(crate) fn know_shared_exits(shared: &SharedCell)
    ensures { AreDistinctNames shared.now.value.exits }
{
    shared.exit_count();
}

/// Tells that no entry item of the book stands twice, and that each counts.
pub(crate) fn know_entries(book: &Book)
    ensures { AreEntries (book_entries book.now) }
{
    book.first_entry(Heap::Kernel);
}
