//! The roots of a collection, made gray as they are copied.
ghost use Rattle.std.specs.Prelude.{◌≡◌, [], length};
ghost use Rattle.std.specs.List.{list_any};
ghost use Rattle.k_types.specs.Bounds.{register_count};
ghost use Rattle.k_types.specs.Names.{leads_to};
ghost use Rattle.k_types.specs.declared.names.Heap.TheVariants.{Kernel, User};
ghost use Rattle.k_commit.specs.k_book.Books.{book_entries, book_pins};
ghost use Rattle.k_laws.specs.BookChanges.{registers_in};
ghost use Rattle.k_agree.specs.Marking.{begun};
ghost use Rattle.k_commit.specs.k_cell.Changes.{HasBegun, HasGrayed};
ghost use Rattle.k_collect.specs.Graying.{is_counted_at, is_root_by};

use crate::walking::{walk_entered, walk_kernel_entered, walk_kernel_pinned, walk_pinned};
use k_commit::{Book, HeapCell, KernelCell};
use k_types::{Heap, REGISTERS, Reg};

/// Makes gray what the registers of the process hold of its heap.
fn gray_held(cell: &mut HeapCell)
    requires begun { HasBegun cell.old.value }
    requires registers { length (registers_in cell.old.value.process) ≡ register_count }
    ensures rest { cell.new ≡ record cell.old { value = cell.new.value } }
    ensures gray { HasGrayed (λ n. list_any (λ r. leads_to r n) (registers_in cell.old.value.process)) cell.old.value cell.new.value }
{
    for r in 0..REGISTERS {
        if let Some(target) = cell.reg(Reg(r)) {
            cell.root(target);
        }
    }
}

/// Makes gray the objects of the process's heap to which other heaps have exit items. They are copied into the row of noted roots;
/// where that has no room for all, they are walked to one by one.
fn gray_entered(cell: &mut HeapCell, book: &Book)
    requires begun { HasBegun cell.old.value }
    ensures rest { cell.new ≡ record cell.old { value = cell.new.value } }
    ensures gray { HasGrayed (is_counted_at (book_entries book.now) (User cell.old.pid)) cell.old.value cell.new.value }
{
    let heap = Heap::User(cell.pid());
    let mut roots = cell.take_roots();
    let all = book.copy_entered(heap, &mut roots);
    cell.put_roots(roots);
    if !all {
        walk_entered(cell, book);
    }
}

/// Makes gray the objects of the process's heap that registers of other processes hold, in the same way.
fn gray_pinned(cell: &mut HeapCell, book: &Book)
    requires begun { HasBegun cell.old.value }
    ensures rest { cell.new ≡ record cell.old { value = cell.new.value } }
    ensures gray { HasGrayed (is_counted_at (book_pins book.now) (User cell.old.pid)) cell.old.value cell.new.value }
{
    let heap = Heap::User(cell.pid());
    let mut roots = cell.take_roots();
    let all = book.copy_pinned(heap, &mut roots);
    cell.put_roots(roots);
    if !all {
        walk_pinned(cell, book);
    }
}

/// Makes gray the objects of the kernel's heap to which other heaps have exit items, in the same way.
fn gray_kernel_entered(kernel: &mut KernelCell, book: &Book)
    requires begun { HasBegun kernel.old.value }
    ensures rest { kernel.new ≡ record kernel.old { value = kernel.new.value } }
    ensures gray { HasGrayed (is_counted_at (book_entries book.now) Kernel) kernel.old.value kernel.new.value }
{
    let heap = Heap::Kernel;
    let mut roots = kernel.take_roots();
    let all = book.copy_entered(heap, &mut roots);
    kernel.put_roots(roots);
    if !all {
        walk_kernel_entered(kernel, book);
    }
}

/// Makes gray the objects of the kernel's heap that registers hold, in the same way.
fn gray_kernel_pinned(kernel: &mut KernelCell, book: &Book)
    requires begun { HasBegun kernel.old.value }
    ensures rest { kernel.new ≡ record kernel.old { value = kernel.new.value } }
    ensures gray { HasGrayed (is_counted_at (book_pins book.now) Kernel) kernel.old.value kernel.new.value }
{
    let heap = Heap::Kernel;
    let mut roots = kernel.take_roots();
    let all = book.copy_pinned(heap, &mut roots);
    kernel.put_roots(roots);
    if !all {
        walk_kernel_pinned(kernel, book);
    }
}

/// Begins the collection of the process's heap with its roots gray: what its registers hold, its entered objects and its pinned
/// ones.
pub(crate) fn gray_roots(cell: &mut HeapCell, book: &Book)
    requires { length (registers_in cell.old.value.process) ≡ register_count }
    ensures rest { cell.new ≡ record cell.old { value = cell.new.value } }
    ensures gray { HasGrayed (is_root_by (User cell.old.pid) book.now cell.old.value) (begun [] cell.old.value) cell.new.value }
{
    cell.begin();
    gray_held(cell);
    gray_entered(cell, book);
    gray_pinned(cell, book);
}

/// Begins the collection of the kernel's heap with its roots gray: the directory, its entered objects and its pinned ones.
pub(crate) fn gray_kernel_roots(kernel: &mut KernelCell, book: &Book)
    ensures rest { kernel.new ≡ record kernel.old { value = kernel.new.value } }
    ensures gray { HasGrayed (is_root_by Kernel book.now kernel.old.value) (begun [] kernel.old.value) kernel.new.value }
{
    kernel.begin();
    kernel.root(kernel.directory());
    gray_kernel_entered(kernel, book);
    gray_kernel_pinned(kernel, book);
}
