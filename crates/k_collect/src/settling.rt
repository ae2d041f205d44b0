//! What is still to be done of a cell where the run settles.
ghost use Rattle.k_types.specs.Trace.{Trace};
ghost use Rattle.k_collect.specs.Settling.{CanSettleHeap, CanSettleKernel, HasSettledHeap, HasSettledKernel};

use crate::ending::{end_heap, end_kernel};
use crate::marking::{mark_heap, mark_kernel};
use k_commit::{Book, HeapCell, KernelCell, meet_kernel, publish};
use k_types::CellPhase;

/// Publishes what the process did inside its heap, and ends its open collection, which it marks first where it has only begun. Where
/// nothing is unpublished or open, nothing changes but that the cell has met the journal.
pub fn settle_heap(cell: &mut HeapCell, book: &mut Book)
    ghost trace: { Trace }
    requires { CanSettleHeap trace cell.old book.old }
    ensures { HasSettledHeap trace cell.old cell.new book.old book.new }
{
    publish(cell, book);
    match cell.phase() {
        CellPhase::Idle => {}
        CellPhase::Begun => {
            mark_heap(cell);
            end_heap(cell, book);
        }
        CellPhase::Marked => {
            end_heap(cell, book);
        }
    }
}

/// Ends the open collection of the kernel's heap, which it marks first where it has only begun. Where none is open, nothing changes
/// but that the cell has met the journal.
pub fn settle_kernel(kernel: &mut KernelCell, book: &mut Book)
    ghost trace: { Trace }
    requires { CanSettleKernel trace kernel.old book.old }
    ensures { HasSettledKernel trace kernel.old kernel.new book.old book.new }
{
    meet_kernel(kernel, book);
    match kernel.phase() {
        CellPhase::Idle => {}
        CellPhase::Begun => {
            mark_kernel(kernel);
            end_kernel(kernel, book);
        }
        CellPhase::Marked => {
            end_kernel(kernel, book);
        }
    }
}
