//! The end of a process, by its own `exit` or by the `kill` of another.
ghost use Rattle.std.specs.Prelude.{◌≡◌, ◌+◌, ◌<◌, ◌^◌, IsFalse, length};
ghost use Rattle.k_types.specs.Names.{among};
ghost use Rattle.k_types.specs.Trace.{Trace};
ghost use Rattle.k_commit.specs.k_heap.Heaps.{own_segment, with_process_ended};
ghost use Rattle.k_own.specs.Ending.{MarksEnded};
ghost use Rattle.k_own.specs.Exiting.{CanExit, HasExited, HasGivenUp, HaveMetToExit};
ghost use Rattle.k_own.specs.Killing.{CanKill, HasKilled};

use crate::charges::credit_charge;
use crate::exits::{cut_exits, pass_exits};
use crate::segments::give_heap;
use crate::unpinning::unpin_registers;
use k_commit::{
    Book, HeapCell, KernelCell, append_heap_and_kernel, append_heaps_and_kernel, meet_heap,
    meet_kernel,
};
use k_types::{Event, Heap, Op, Reply, Seg};

/// The operation `exit` ends its process. Its registers are null afterwards, its shares gone, all that it was charged is credited,
/// and its objects are the kernel's, as are its exit items into shared heaps. It answers the event that it appended, and takes no
/// memory. The cost is in proportion to the exit items of the heap and of the kernel and to the number of shared heaps, whatever
/// the number of objects.
pub fn exit(cell: &mut HeapCell, kernel: &mut KernelCell, book: &mut Book) -> Event
    ghost trace: { Trace }
    requires { CanExit trace cell.old kernel.old book.old }
    ensures { HasExited trace cell.old cell.new kernel.old kernel.new book.old book.new result }
{
    meet_heap(cell, book);
    meet_kernel(kernel, book);
    end_process(cell, kernel, book);
    cell.count_done();
    let event = Event::Done {
        pid: cell.pid(),
        op: Op::Exit,
        reply: Reply::Done,
    };
    append_heap_and_kernel(cell, kernel, book, event);
    event
}

/// The operation `kill` ends the target, whose limit is below that of the process: what `exit` does to its own process happens to the
/// target, and the operation counts for the process that asks. It answers the event that it appended, and takes no memory. The cost is
/// that of the target's `exit`.
pub fn kill(
    cell: &mut HeapCell,
    target: &mut HeapCell,
    kernel: &mut KernelCell,
    book: &mut Book,
    op: &Op,
) -> Event
    ghost trace: { Trace }
    requires { CanKill trace cell.old target.old kernel.old book.old op.now }
    ensures { HasKilled trace cell.old cell.new target.old target.new kernel.old kernel.new book.old book.new op.now result }
{
    meet_heap(cell, book);
    meet_heap(target, book);
    meet_kernel(kernel, book);
    end_process(target, kernel, book);
    cell.count_done();
    let event = Event::Done {
        pid: cell.pid(),
        op: *op,
        reply: Reply::Done,
    };
    append_heaps_and_kernel(cell, target, kernel, book, event);
    event
}

/// Ends the process: cells and book are as they are after it, but for the count of the operation that ends it.
fn end_process(cell: &mut HeapCell, kernel: &mut KernelCell, book: &mut Book)
    ghost trace: { Trace }
    requires { HaveMetToExit trace cell.old kernel.old book.old }
    ensures { HasGivenUp trace cell.old cell.new kernel.old kernel.new book.old book.new }
{
    let seg = Seg(cell.pid().0 + 1);
    unpin_registers(cell, book);
    credit_charge(cell, book);
    cut_exits(kernel, book, seg);
    pass_exits(cell, kernel, book);
    give_heap(cell, kernel);
    mark_ended(cell, book);
}

/// The process has ended, and its segment is the kernel's, as its cell and the book tell.
fn mark_ended(cell: &mut HeapCell, book: &mut Book)
    requires small { cell.old.pid.0 + 1 < 2 ^ 32 }
    requires home { own_segment cell.old.pid < length book.old.value.homes }
    requires process { cell.old.pid.0 < length book.old.procs }
    requires lives { IsFalse (among cell.old.pid.0 book.old.value.ended) }
    ensures cell { cell.new ≡ record cell.old { value = with_process_ended cell.old.value } }
    ensures book { MarksEnded book.old book.new cell.old.pid.0 (own_segment cell.old.pid) }
{
    let pid = cell.pid();
    book.rehome(Seg(pid.0 + 1), Heap::Kernel);
    book.end_process(pid);
    cell.end();
}
