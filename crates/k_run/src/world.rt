//! The end of a run.
ghost use Rattle.std.specs.Prelude.{Some, length, ◌≡◌};
ghost use Rattle.k_opening.specs.k_outcome.k_process.Heaps.{value_of};
ghost use Rattle.k_opening.specs.k_outcome.k_process.Over.{IsOutcome, cells_of};
ghost use Rattle.k_opening.specs.k_outcome.Ends.{EndsRun, journal_of};
ghost use Rattle.k_opening.specs.k_locks.Rooms.{AreEndRooms};
ghost use Rattle.k_run.specs.Runs.{IsRunOf};
ghost use Rattle.k_laws.specs.Setups.{setup_of};
ghost use Rattle.k_types.specs.Trace.{process_count};
ghost use Rattle.k_opening.specs.k_locks.k_watch.Shown.{HasWatched, WasShown};

use k_complete::end_all;
use k_opening::{
    EndRooms, Heaps, Locks, Outcome, Sample, WatchPen, Watcher, World, WorldName, outcome_of,
    show_end, unlock_all,
};
use std::sync::Wait;

/// Ends the run of the heaps behind the locks: what is left of each process is done, one process after the other, and each cell meets the
/// journal. The pen that stood beside the book is given back.
fn end_locked<W: WorldName>(locks: Locks<W>, rooms: EndRooms) -> (Heaps, Option<WatchPen>)
    requires processes { length locks.processes.items ≡ process_count W.world.trace }
    requires shared { length locks.shared.items ≡ W.world.trace.shared_heaps }
    requires rooms { AreEndRooms (process_count W.world.trace) W.world.trace.shared_heaps rooms }
    ensures ends { EndsRun W.world.trace (setup_of W.world.trace) (cells_of (value_of result.0)) }
    ensures table { result.0.book.journal.table ≡ W.world.table }
    ensures shown { WasShown W.watched W.world.trace result.0.book.journal.list result.1 }
{
    let (mut heaps, pen) = unlock_all(locks, rooms);
    end_all(&mut heaps);
    (heaps, pen)
}

/// Ends the run, whatever threads have done of it: what is left of each process is done, one process after the other, and each cell then
/// shows the machine after the journal, which is a legal and complete history of the trace. The journal is of the table that
/// the run is named by: so `Book::meet` tells of each note of that table that the events it knows are the first ones of the journal. It waits
/// for nobody, and takes no memory.
pub fn finish<W: WorldName>(world: World<W>) -> Outcome
    ensures outcome { IsOutcome W.world.trace result.cells }
    ensures run { IsRunOf (record { names = world.names; trace = W.world.trace }) result }
    ensures table { result.cells.book.journal.table ≡ W.world.table }
{
    let World {
        locks,
        turns: _,
        passes: _,
        rooms,
        report,
        names,
        setup,
    } = world;
    let (heaps, _) = end_locked(locks, rooms);
    outcome_of(names, setup, heaps, report)
}

/// Ends a run that is watched, as `finish` does, and publishes its whole journal. The watcher takes one sample more, which is the
/// machine's three numbers after the whole journal; and each sample that it has taken is these numbers after so many events of the
/// journal as it says. It takes no memory. It may wait for the cell, which nobody writes any more.
pub fn finish_watched<W: WorldName, R: Wait>(
    rt: &R,
    world: World<W>,
    watcher: Watcher,
) -> (Outcome, Watcher, Sample)
    requires { W.watched ≡ Some watcher.cell }
    ensures outcome { IsOutcome W.world.trace result.0.cells }
    ensures run { IsRunOf (record { names = world.names; trace = W.world.trace }) result.0 }
    ensures table { result.0.cells.book.journal.table ≡ W.world.table }
    ensures watched { HasWatched W.world.trace (journal_of result.0) watcher result.1 result.2 }
{
    let World {
        locks,
        turns: _,
        passes: _,
        rooms,
        report,
        names,
        setup,
    } = world;
    let (heaps, pen) = end_locked(locks, rooms);
    let Some(pen) = pen else { unreachable!() };
    let (watcher, sample) = show_end(rt, pen, &heaps.book, watcher);
    (outcome_of(names, setup, heaps, report), watcher, sample)
}
