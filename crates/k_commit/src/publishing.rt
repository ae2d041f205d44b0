//! Events that a process did inside its heap and that the journal lacks.
ghost use Rattle.k_types.specs.Trace.{Trace};
ghost use Rattle.k_commit.specs.Published.{CanPublish, HasPublished};

use crate::appending::append_tail;
use crate::meeting::meet_heap;
use k_book::Book;
use k_heap::HeapCell;

/// Appends the cell's unpublished events in order; it has none afterwards. Constant time where the journal keeps no event.
pub fn publish(cell: &mut HeapCell, book: &mut Book)
    ghost trace: { Trace }
    requires { CanPublish trace cell.old book.old }
    ensures { HasPublished trace cell.old.value.tail cell.old cell.new book.old book.new }
{
    meet_heap(cell, book);
    append_tail(cell, book);
}
