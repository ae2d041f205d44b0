//! Roots of a collection, made gray while they are walked to one by one.
ghost use Rattle.std.specs.Prelude.{◌≡◌};
ghost use Rattle.k_types.specs.declared.names.Heap.TheVariants.{Kernel, User};
ghost use Rattle.k_commit.specs.k_book.Books.{book_entries, book_pins};
ghost use Rattle.k_commit.specs.k_cell.Changes.{HasBegun, HasGrayed};
ghost use Rattle.k_collect.specs.Graying.{is_counted_at};

use k_commit::{Book, HeapCell, KernelCell};
use k_types::Heap;

/// Makes gray the objects of the process's heap to which other heaps have exit items. It passes each of them once.
pub(crate) fn walk_entered(cell: &mut HeapCell, book: &Book)
    requires begun { HasBegun cell.old.value }
    ensures rest { cell.new ≡ record cell.old { value = cell.new.value } }
    ensures gray { HasGrayed (is_counted_at (book_entries book.now) (User cell.old.pid)) cell.old.value cell.new.value }
{
    let mut at = book.first_entry(Heap::User(cell.pid()));
    while let Some(target) = at {
        cell.root(target);
        at = book.next_entry(target);
    }
}

/// Makes gray the objects of the process's heap that registers of other processes hold. It passes each of them once.
pub(crate) fn walk_pinned(cell: &mut HeapCell, book: &Book)
    requires begun { HasBegun cell.old.value }
    ensures rest { cell.new ≡ record cell.old { value = cell.new.value } }
    ensures gray { HasGrayed (is_counted_at (book_pins book.now) (User cell.old.pid)) cell.old.value cell.new.value }
{
    let mut at = book.first_pin(Heap::User(cell.pid()));
    while let Some(target) = at {
        cell.root(target);
        at = book.next_pin(target);
    }
}

/// Makes gray the objects of the kernel's heap to which other heaps have exit items. It passes each of them once.
pub(crate) fn walk_kernel_entered(kernel: &mut KernelCell, book: &Book)
    requires begun { HasBegun kernel.old.value }
    ensures rest { kernel.new ≡ record kernel.old { value = kernel.new.value } }
    ensures gray { HasGrayed (is_counted_at (book_entries book.now) Kernel) kernel.old.value kernel.new.value }
{
    let mut at = book.first_entry(Heap::Kernel);
    while let Some(target) = at {
        kernel.root(target);
        at = book.next_entry(target);
    }
}

/// Makes gray the objects of the kernel's heap that registers hold. It passes each of them once.
pub(crate) fn walk_kernel_pinned(kernel: &mut KernelCell, book: &Book)
    requires begun { HasBegun kernel.old.value }
    ensures rest { kernel.new ≡ record kernel.old { value = kernel.new.value } }
    ensures gray { HasGrayed (is_counted_at (book_pins book.now) Kernel) kernel.old.value kernel.new.value }
{
    let mut at = book.first_pin(Heap::Kernel);
    while let Some(target) = at {
        kernel.root(target);
        at = book.next_pin(target);
    }
}
