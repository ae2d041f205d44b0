//! The events that begin a collection.
ghost use Rattle.k_types.specs.Trace.{Trace};
ghost use Rattle.k_collect.specs.Begun.{HasBegunHeap, HasBegunKernel, HasClosed};
ghost use Rattle.k_collect.specs.Collecting.{CanBeginHeap, CanBeginKernel, CanClose};

use crate::graying::{gray_kernel_roots, gray_roots};
use k_commit::{
    Book, HeapCell, KernelCell, append_heap, append_heap_and_kernel, append_kernel, meet_heap,
    meet_kernel,
};
use k_types::{Event, Op, Reply};

/// The operation `collect`: the collection of the process's heap begins, with its roots gray. It answers the event that it
/// appended. The cost is in proportion to the exit items of the heap and to its entered and pinned objects.
pub fn begin_heap(cell: &mut HeapCell, book: &mut Book) -> Event
    ghost trace: { Trace }
    requires { CanBeginHeap trace cell.old book.old }
    ensures { HasBegunHeap trace cell.old cell.new book.old book.new result }
{
    meet_heap(cell, book);
    gray_roots(cell, book);
    cell.count_done();
    let event = Event::Done {
        pid: cell.pid(),
        op: Op::Collect,
        reply: Reply::Done,
    };
    append_heap(cell, book, event);
    event
}

/// The operation `kcollect`: the collection of the kernel's heap begins, with its roots gray. It answers the event that it appended.
/// The cost is in proportion to the kernel's segments and exit items and to its entered and pinned objects.
pub fn begin_kernel(cell: &mut HeapCell, kernel: &mut KernelCell, book: &mut Book) -> Event
    ghost trace: { Trace }
    requires { CanBeginKernel trace cell.old kernel.old book.old }
    ensures { HasBegunKernel trace cell.old cell.new kernel.old kernel.new book.old book.new result }
{
    meet_heap(cell, book);
    meet_kernel(kernel, book);
    gray_kernel_roots(kernel, book);
    cell.count_done();
    let event = Event::Done {
        pid: cell.pid(),
        op: Op::KCollect,
        reply: Reply::Done,
    };
    append_heap_and_kernel(cell, kernel, book, event);
    event
}

/// The closing: every process has ended, and the last collection of the kernel's heap begins, with its roots gray. It answers the
/// event that it appended. The cost is that of `begin_kernel`.
pub fn close_kernel(kernel: &mut KernelCell, book: &mut Book) -> Event
    ghost trace: { Trace }
    requires { CanClose trace kernel.old book.old }
    ensures { HasClosed trace kernel.old kernel.new book.old book.new result }
{
    meet_kernel(kernel, book);
    gray_kernel_roots(kernel, book);
    book.close();
    append_kernel(kernel, book, Event::Closing);
    Event::Closing
}
