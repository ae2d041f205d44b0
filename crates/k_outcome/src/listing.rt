//! What is counted and sorted once a run is over.
ghost use Rattle.std.specs.Prelude.{◌≡◌, ◌+◌, ◌<◌, ◌≤◌, ◌^◌, [], IfSome, length, map, slice_index_or, vec_capacity};
ghost use Rattle.k_types.specs.Steps.{state_after};
ghost use Rattle.k_types.specs.Trace.{IsHeap, Trace, segment_count, segment_of, trace_of};
ghost use Rattle.k_types.specs.Distinct.{AreDistinctNames};
ghost use Rattle.k_text.specs.Shown.{in_order};
ghost use Rattle.k_text.specs.Heaps.{heap_at};
ghost use Rattle.k_outcome.specs.Cells.{IsThere, cell_at};
ghost use Rattle.k_outcome.specs.Listed.{AreTargets, CanCount, CanList, made_by, with_given};

use crate::cells::Cells;
use k_book::Book;
use k_types::{Event, Heap, Name, Pid, Reply, Setup, SharedId};

// The object that the event says was made.
fn made_by(event: &Event) -> Option<Name>
    ensures { result ≡ made_by event.now }
{
    match *event {
        Event::Done {
            reply: Reply::Made(name),
            ..
        } => Some(name),
        _ => None,
    }
}

// Counts one more in the segment of the object, where there is one.
fn count_one(made: &mut [u32], name: Option<Name>)
    requires { IfSome name (λ n. (n.seg.0 < length made.old) × (slice_index_or made.old n.seg.0 0 + 1 < 2 ^ 32)) }
    ensures { made.new ≡ with_given name made.old }
{
    if let Some(name) = name {
        made[name.seg.0 as usize] += 1;
    }
}

/// Counts for each segment the serials that it has given: the directory's, and one for each object that the journal says was made.
/// It passes the journal once.
pub(crate) fn count_made(made: &mut [u32], book: &Book)
    ghost trace: { Trace }
    requires { CanCount trace made.old book.now.journal.list book.now.kept }
    ensures { made.new ≡ (state_after trace book.now.journal.list).made }
{
    made[0] = 1;
    let count = book.len();
    for i in 0..count {
        count_one(made, made_by(book.event(i)));
    }
}

/// The segment with which the heap begins.
pub(crate) fn segment_of(setup: &Setup, heap: Heap) -> usize
    requires { IsHeap (trace_of setup.now [] []) heap }
    ensures { result ≡ segment_of (trace_of setup.now [] []) heap }
{
    match heap {
        Heap::Kernel => 0,
        Heap::User(pid) => pid.0 as usize + 1,
        Heap::Shared(id) => 1 + setup.procs.len() + id.0 as usize,
    }
}

// The heap that begins with the segment.
fn heap_at(setup: &Setup, seg: usize) -> Heap
    requires known { seg < segment_count (trace_of setup.now [] []) }
    requires few { segment_count (trace_of setup.now [] []) ≤ 129 }
    ensures { result ≡ heap_at (trace_of setup.now [] []) seg }
{
    let procs = setup.procs.len();
    if seg == 0 {
        Heap::Kernel
    } else if seg <= procs {
        Heap::User(Pid(seg as u32 - 1))
    } else {
        Heap::Shared(SharedId((seg - 1 - procs) as u32))
    }
}

// The targets of the heap's exit items, by segment and serial.
fn list_targets(row: &mut Vec<Name>, cells: &Cells, heap: Heap)
    requires there { IsThere cells.now heap }
    requires empty { row.old.items ≡ [] }
    requires room { AreDistinctNames (cell_at cells.now heap).exits → length (cell_at cells.now heap).exits ≤ vec_capacity row.old }
    ensures { row.new.items ≡ in_order (cell_at cells.now heap).exits }
{
    let count = cells.exit_count(heap);
    for i in 0..count {
        row.push_reserved(cells.exit_at(heap, i));
    }
    row.sort_unstable_by_key(|name| *name);
}

/// Lists the targets of each heap's exit items in order. It passes all exit items and sorts those of each heap.
pub(crate) fn list_all_targets(targets: &mut Vec<Vec<Name>>, cells: &Cells, setup: &Setup)
    requires { CanList (trace_of setup.now [] []) cells.now targets.old.items }
    ensures { AreTargets (trace_of setup.now [] []) cells.now (map (λ row. row.items) targets.new.items) }
{
    let count = targets.len();
    for seg in 0..count {
        let heap = heap_at(setup, seg);
        let row = &mut targets[seg];
        list_targets(row, cells, heap);
    }
}
