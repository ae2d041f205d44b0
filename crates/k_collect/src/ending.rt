//! The ends of collections.
ghost use Rattle.std.specs.Prelude.{◌≡◌, ◌≤◌, ◌+◌, [], length};
ghost use Rattle.k_types.specs.Trace.{Trace};
ghost use Rattle.k_agree.specs.Meeting.{Fits};
ghost use Rattle.k_collect.specs.Collecting.{CanEndHeap, CanEndKernel};
ghost use Rattle.k_collect.specs.Ended.{HasEndedHeap, HasEndedKernel};
ghost use Rattle.k_collect.specs.Freed.{AreFreed};
ghost use Rattle.k_collect.specs.SweptAlone.{CanEndSwept, CanEndSweptKernel, KernelNoteHasMet, NoteHasMet};

use crate::leaving::{leave_kernel_unmarked, leave_unmarked};
use crate::sweeping::{sweep_heap_telling, sweep_kernel_telling};
use crate::unsharing::drop_shares;
use k_commit::{Book, HeapCell, KernelCell, append_heap, append_kernel, meet_heap, meet_kernel};
use k_mark::{Freed, Listener, Nobody, Swept};
use k_types::{Event, Heap};

/// The note of the process's cell meets the journal, whatever the cell shows. Constant time.
fn meet_note(cell: &mut HeapCell, book: &mut Book)
    requires { cell.old.note.table ≡ book.old.journal.table }
    ensures { NoteHasMet cell.old cell.new book.old book.new }
{
    book.meet(cell.note_mut());
}

/// Ends the collection of the process's heap, which is swept already: the exit items that are not marked go, with the shares into
/// whose heaps no register and no exit item leads then, and the process's limit is credited what went. It answers the event that it
/// appended, and tells that no event had touched the cell unseen. The cost is in proportion to the exit items, the number of shared
/// heaps, and for each that the process shares the exit items that are left; it does not depend on the objects.
pub fn end_swept_heap(cell: &mut HeapCell, book: &mut Book, freed: Swept) -> Event
    ghost trace: { Trace }
    requires { CanEndSwept trace cell.old book.old freed }
    ensures ended { HasEndedHeap trace cell.old cell.new book.old book.new result }
    ensures fits { Fits book.old.journal cell.old.note }
{
    meet_note(cell, book);
    let exits_dropped = leave_unmarked(cell, book);
    cell.end_collection();
    let unshared = drop_shares(cell, book);
    let limit = book.limit_of(cell.pid());
    book.credit(limit, freed.bytes + unshared.bytes);
    let event = Event::Ended {
        heap: Heap::User(cell.pid()),
        freed_objects: freed.objects,
        freed_bytes: freed.bytes,
        exits_dropped,
        shares_dropped: unshared.shares,
    };
    append_heap(cell, book, event);
    event
}

/// Ends the collection of the process's heap: what is not marked goes, with the shares into whose heaps no register and no exit
/// item leads then, and the process's limit is credited what went. It answers the event that it appended. The cost is in proportion
/// to the objects that were live, the exit items, and for each shared heap that the process shares the exit items that are left.
pub fn end_heap(cell: &mut HeapCell, book: &mut Book) -> Event
    ghost trace: { Trace }
    requires { CanEndHeap trace cell.old book.old }
    ensures { HasEndedHeap trace cell.old cell.new book.old book.new result }
{
    let mut nobody = Nobody;
    end_heap_telling(cell, book, &mut nobody)
}

/// The same, and the list then has the names of the objects that went, and no others, each once and in any order, where it has room
/// for as many as the heap has objects.
pub fn end_heap_listing(cell: &mut HeapCell, book: &mut Book, freed: &mut Freed) -> Event
    ghost trace: { Trace }
    requires { CanEndHeap trace cell.old book.old }
    ensures ended { HasEndedHeap trace cell.old cell.new book.old book.new result }
    ensures room { freed.new.room ≡ freed.old.room }
    ensures listed { length cell.old.value.objects ≤ freed.old.room → AreFreed trace book.old.journal.list result [] freed.new.names }
{
    freed.clear();
    end_heap_telling(cell, book, freed)
}

/// Ends the collection, and tells the name of each object that goes, in any order.
fn end_heap_telling<L: Listener>(cell: &mut HeapCell, book: &mut Book, listener: &mut L) -> Event
    ghost trace: { Trace }
    requires { CanEndHeap trace cell.old book.old }
    ensures ended { HasEndedHeap trace cell.old cell.new book.old book.new result }
    ensures room { L.room listener.new ≡ L.room listener.old }
    ensures told { length (L.heard listener.old) + length cell.old.value.objects ≤ L.room listener.old →
        AreFreed trace book.old.journal.list result (L.heard listener.old) (L.heard listener.new) }
{
    meet_heap(cell, book);
    let freed = sweep_heap_telling(cell, listener);
    end_swept_heap(cell, book, freed)
}

/// The note of the kernel's cell meets the journal, whatever the cell shows. Constant time.
fn meet_kernel_note(kernel: &mut KernelCell, book: &mut Book)
    requires { kernel.old.note.table ≡ book.old.journal.table }
    ensures { KernelNoteHasMet kernel.old kernel.new book.old book.new }
{
    book.meet(kernel.note_mut());
}

/// Ends the collection of the kernel's heap, which is swept already: the exit items that are not marked go. It answers the event that
/// it appended. The cost is in proportion to the exit items; it does not depend on the objects.
pub fn end_swept_kernel(kernel: &mut KernelCell, book: &mut Book, freed: Swept) -> Event
    ghost trace: { Trace }
    requires { CanEndSweptKernel trace kernel.old book.old freed }
    ensures { HasEndedKernel trace kernel.old kernel.new book.old book.new result }
{
    meet_kernel_note(kernel, book);
    let exits_dropped = leave_kernel_unmarked(kernel, book);
    kernel.end_collection();
    let event = Event::Ended {
        heap: Heap::Kernel,
        freed_objects: freed.objects,
        freed_bytes: freed.bytes,
        exits_dropped,
        shares_dropped: 0,
    };
    append_kernel(kernel, book, event);
    event
}

/// Ends the collection of the kernel's heap: what is not marked goes. It answers the event that it appended. The cost is in
/// proportion to the objects that were live and the exit items.
pub fn end_kernel(kernel: &mut KernelCell, book: &mut Book) -> Event
    ghost trace: { Trace }
    requires { CanEndKernel trace kernel.old book.old }
    ensures { HasEndedKernel trace kernel.old kernel.new book.old book.new result }
{
    let mut nobody = Nobody;
    end_kernel_telling(kernel, book, &mut nobody)
}

/// The same, and the list then has the names of the objects that went, and no others, each once and in any order, where it has room
/// for as many as the heap has objects.
pub fn end_kernel_listing(kernel: &mut KernelCell, book: &mut Book, freed: &mut Freed) -> Event
    ghost trace: { Trace }
    requires { CanEndKernel trace kernel.old book.old }
    ensures ended { HasEndedKernel trace kernel.old kernel.new book.old book.new result }
    ensures room { freed.new.room ≡ freed.old.room }
    ensures listed { length kernel.old.value.objects ≤ freed.old.room → AreFreed trace book.old.journal.list result [] freed.new.names }
{
    freed.clear();
    end_kernel_telling(kernel, book, freed)
}

/// Ends the collection, and tells the name of each object that goes, in any order.
fn end_kernel_telling<L: Listener>(
    kernel: &mut KernelCell,
    book: &mut Book,
    listener: &mut L,
) -> Event
    ghost trace: { Trace }
    requires { CanEndKernel trace kernel.old book.old }
    ensures ended { HasEndedKernel trace kernel.old kernel.new book.old book.new result }
    ensures room { L.room listener.new ≡ L.room listener.old }
    ensures told { length (L.heard listener.old) + length kernel.old.value.objects ≤ L.room listener.old →
        AreFreed trace book.old.journal.list result (L.heard listener.old) (L.heard listener.new) }
{
    meet_kernel(kernel, book);
    let freed = sweep_kernel_telling(kernel, listener);
    end_swept_kernel(kernel, book, freed)
}
