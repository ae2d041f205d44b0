//! Events that are appended, with the cells that they touch.
ghost use Rattle.std.specs.Prelude.{◌≡◌, ◌+◌, ◌<◌, ◌≤◌, [], ◌∷◌, ◌++◌, length};
ghost use Rattle.k_book.specs.Objects.{objects_told};
ghost use Rattle.k_book.specs.k_agree.Committing.{journal_after, note_after};
ghost use Rattle.k_book.specs.k_agree.Publishing.{journal_after_all, note_after_all};

use k_book::Book;
use k_heap::HeapCell;
use k_kernel::KernelCell;
use k_shared::SharedCell;
use k_types::Event;

/// Appends an event that touches the process's cell, which has met the journal and then meets the longer one.
pub fn append_heap(cell: &mut HeapCell, book: &mut Book, event: Event)
    requires table { cell.old.note.table ≡ book.old.journal.table }
    requires met { cell.old.note.list ≡ book.old.journal.list }
    requires room { length book.old.journal.list < book.old.event_room }
    ensures cell { cell.new ≡ record cell.old { note = note_after event cell.old.note } }
    ensures book { book.new ≡ record book.old { journal = journal_after event (cell.old.note.cell ∷ []) book.old.journal } }
{
    book.append(event);
    book.touch(cell.note_mut());
    book.meet(cell.note_mut());
}

/// Appends the cell's unpublished events, each of which touches it; it has none afterwards. The cell has met the journal and then meets the
/// longer one. They make no object and free none, so that these need not be counted. Constant time where the journal keeps no event, and no
/// word is changed where the cell has none.
pub(crate) fn append_tail(cell: &mut HeapCell, book: &mut Book)
    requires table { cell.old.note.table ≡ book.old.journal.table }
    requires met { cell.old.note.list ≡ book.old.journal.list }
    requires room { length book.old.journal.list + length cell.old.value.tail ≤ book.old.event_room }
    requires objects { objects_told (book.old.journal.list ++ cell.old.value.tail) ≡ objects_told book.old.journal.list }
    ensures cell { cell.new ≡ record cell.old { note = note_after_all cell.old.value.tail cell.old.note; value = record cell.old.value { tail = [] } } }
    ensures book { book.new ≡ record book.old { journal = journal_after_all cell.old.value.tail cell.old.note.cell book.old.journal } }
{
    let number = cell.tail_len();
    if number == 0 {
        return;
    }
    book.append_all(cell.tail());
    book.touch_all(cell.note_mut(), u64::from(number));
    book.meet(cell.note_mut());
    cell.clear_tail();
}

/// Appends an event that touches the kernel's cell.
pub fn append_kernel(kernel: &mut KernelCell, book: &mut Book, event: Event)
    requires table { kernel.old.note.table ≡ book.old.journal.table }
    requires met { kernel.old.note.list ≡ book.old.journal.list }
    requires room { length book.old.journal.list < book.old.event_room }
    ensures kernel { kernel.new ≡ record kernel.old { note = note_after event kernel.old.note } }
    ensures book { book.new ≡ record book.old { journal = journal_after event (kernel.old.note.cell ∷ []) book.old.journal } }
{
    book.append(event);
    book.touch(kernel.note_mut());
    book.meet(kernel.note_mut());
}

/// Appends an event that touches the process's cell and the kernel's.
pub fn append_heap_and_kernel(
    cell: &mut HeapCell,
    kernel: &mut KernelCell,
    book: &mut Book,
    event: Event,
)
    requires table { (cell.old.note.table ≡ book.old.journal.table) × (kernel.old.note.table ≡ book.old.journal.table) }
    requires met { (cell.old.note.list ≡ book.old.journal.list) × (kernel.old.note.list ≡ book.old.journal.list) }
    requires room { length book.old.journal.list < book.old.event_room }
    ensures cell { cell.new ≡ record cell.old { note = note_after event cell.old.note } }
    ensures kernel { kernel.new ≡ record kernel.old { note = note_after event kernel.old.note } }
    ensures book { book.new ≡ record book.old { journal = journal_after event (cell.old.note.cell ∷ kernel.old.note.cell ∷ []) book.old.journal } }
{
    book.append(event);
    book.touch(cell.note_mut());
    book.touch(kernel.note_mut());
    book.meet(cell.note_mut());
    book.meet(kernel.note_mut());
}

/// Appends an event that touches the process's cell, that of another process, and the kernel's.
pub fn append_heaps_and_kernel(
    cell: &mut HeapCell,
    other: &mut HeapCell,
    kernel: &mut KernelCell,
    book: &mut Book,
    event: Event,
)
    requires table { (cell.old.note.table ≡ book.old.journal.table) × (other.old.note.table ≡ book.old.journal.table) × (kernel.old.note.table ≡ book.old.journal.table) }
    requires met { (cell.old.note.list ≡ book.old.journal.list) × (other.old.note.list ≡ book.old.journal.list) × (kernel.old.note.list ≡ book.old.journal.list) }
    requires room { length book.old.journal.list < book.old.event_room }
    ensures cell { cell.new ≡ record cell.old { note = note_after event cell.old.note } }
    ensures other { other.new ≡ record other.old { note = note_after event other.old.note } }
    ensures kernel { kernel.new ≡ record kernel.old { note = note_after event kernel.old.note } }
    ensures book { book.new ≡ record book.old { journal = journal_after event (cell.old.note.cell ∷ other.old.note.cell ∷ kernel.old.note.cell ∷ []) book.old.journal } }
{
    book.append(event);
    book.touch(cell.note_mut());
    book.touch(other.note_mut());
    book.touch(kernel.note_mut());
    book.meet(cell.note_mut());
    book.meet(other.note_mut());
    book.meet(kernel.note_mut());
}

/// Appends an event that touches the process's cell and that of a shared heap.
pub fn append_heap_and_shared(
    cell: &mut HeapCell,
    shared: &mut SharedCell,
    book: &mut Book,
    event: Event,
)
    requires table { (cell.old.note.table ≡ book.old.journal.table) × (shared.old.note.table ≡ book.old.journal.table) }
    requires met { (cell.old.note.list ≡ book.old.journal.list) × (shared.old.note.list ≡ book.old.journal.list) }
    requires room { length book.old.journal.list < book.old.event_room }
    ensures cell { cell.new ≡ record cell.old { note = note_after event cell.old.note } }
    ensures shared { shared.new ≡ record shared.old { note = note_after event shared.old.note } }
    ensures book { book.new ≡ record book.old { journal = journal_after event (cell.old.note.cell ∷ shared.old.note.cell ∷ []) book.old.journal } }
{
    book.append(event);
    book.touch(cell.note_mut());
    book.touch(shared.note_mut());
    book.meet(cell.note_mut());
    book.meet(shared.note_mut());
}

/// Appends an event that touches the cell of a shared heap and the kernel's.
pub fn append_shared_and_kernel(
    shared: &mut SharedCell,
    kernel: &mut KernelCell,
    book: &mut Book,
    event: Event,
)
    requires table { (shared.old.note.table ≡ book.old.journal.table) × (kernel.old.note.table ≡ book.old.journal.table) }
    requires met { (shared.old.note.list ≡ book.old.journal.list) × (kernel.old.note.list ≡ book.old.journal.list) }
    requires room { length book.old.journal.list < book.old.event_room }
    ensures shared { shared.new ≡ record shared.old { note = note_after event shared.old.note } }
    ensures kernel { kernel.new ≡ record kernel.old { note = note_after event kernel.old.note } }
    ensures book { book.new ≡ record book.old { journal = journal_after event (shared.old.note.cell ∷ kernel.old.note.cell ∷ []) book.old.journal } }
{
    book.append(event);
    book.touch(shared.note_mut());
    book.touch(kernel.note_mut());
    book.meet(shared.note_mut());
    book.meet(kernel.note_mut());
}
