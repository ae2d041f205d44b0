//! What is left of a run, done on the caller's thread.
ghost use Rattle.k_complete.specs.Ended.{AllThrough, CanComplete, HasCompleted};
ghost use Rattle.k_operate.specs.k_process.Heaps.{value_of};
ghost use Rattle.k_operate.specs.k_process.Over.{AllMet};
ghost use Rattle.k_operate.specs.k_process.BetweenSteps.{AllStand};
ghost use Rattle.k_complete.specs.Meetings.{CellsAndBook, CellsMet, HeapsAndBook, HeapsMet, ProcessesAndBook, ProcessesMet};
ghost use Rattle.k_operate.specs.k_process.Worlds.{WorldValue};
ghost use Rattle.k_types.specs.Complete.{IsPrefixOf};

use crate::closing::close_all;
use crate::placed::do_at;
use k_book::Book;
use k_operate::{Heaps, Process, meet_heap, meet_kernel, meet_shared, next, publish_all};
use k_shared::SharedCell;

/// Does all operations that are left of the process of that number, and publishes its events.
fn complete(heaps: &mut Heaps, at: usize)
    ghost world: { WorldValue }
    requires { CanComplete world (value_of heaps.old) at }
    ensures done { HasCompleted world at (value_of heaps.old) (value_of heaps.new) }
    ensures grows { IsPrefixOf heaps.old.book.journal.list heaps.new.book.journal.list }
{
    while let Some(op) = next(&heaps.processes[at]) {
        do_at(heaps, at, &op);
    }
    publish_all(&mut heaps.processes[at], &mut heaps.book);
}

/// Does all operations that are left of each process, in the order of their numbers, and publishes their events. A later process may
/// end an earlier one, which is through by then and stays so. The cost is that of the operations.
pub fn complete_all(heaps: &mut Heaps)
    ghost world: { WorldValue }
    requires { AllStand world (value_of heaps.old) }
    ensures through { AllThrough world (value_of heaps.new) }
    ensures grows { IsPrefixOf heaps.old.book.journal.list heaps.new.book.journal.list }
{
    for at in 0..heaps.processes.len() {
        complete(heaps, at);
    }
}

/// Has each process's cell meet the journal.
fn meet_processes(processes: &mut Vec<Process>, book: &mut Book)
    ghost world: { WorldValue }
    requires { ProcessesAndBook world processes.old.items book.old }
    ensures { ProcessesMet world processes.old.items processes.new.items book.old book.new }
{
    for process in processes.iter_mut() {
        meet_heap(&mut process.cell, book);
    }
}

/// Has each shared heap's cell meet the journal.
fn meet_heaps(shared: &mut Vec<SharedCell>, book: &mut Book)
    ghost world: { WorldValue }
    requires { HeapsAndBook world shared.old.items book.old }
    ensures { HeapsMet world shared.new.items book.old book.new }
{
    for heap in shared.iter_mut() {
        meet_shared(heap, book);
    }
}

/// Has each cell meet the journal, so that all show the state after it. The cost is one meeting for each cell.
pub fn meet_all(heaps: &mut Heaps)
    ghost world: { WorldValue }
    requires { CellsAndBook world (value_of heaps.old) }
    ensures { CellsMet world (value_of heaps.old) (value_of heaps.new) }
{
    meet_processes(&mut heaps.processes, &mut heaps.book);
    meet_kernel(&mut heaps.kernel, &mut heaps.book);
    meet_heaps(&mut heaps.shared, &mut heaps.book);
}

/// Ends the run: does all operations that are left, one process after the other, then what comes last where every process has ended,
/// and has each cell meet the journal. The cost is that of the operations and of what comes last. It takes no memory.
pub fn end_all(heaps: &mut Heaps)
    ghost world: { WorldValue }
    requires { AllStand world (value_of heaps.old) }
    ensures met { AllMet world (value_of heaps.new) }
    ensures grows { IsPrefixOf heaps.old.book.journal.list heaps.new.book.journal.list }
{
    complete_all(heaps);
    close_all(&mut heaps.kernel, &mut heaps.shared, &mut heaps.book);
    meet_all(heaps);
}
