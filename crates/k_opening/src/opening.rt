//! A run that is put behind its locks.
ghost use Rattle.std.specs.Prelude.{◌≡◌, ◌<◌, ◌^◌, [], ◌∷◌, IfOk, None, Some, length, vec_capacity};
ghost use Rattle.k_outcome.specs.k_process.Heaps.{value_of};
ghost use Rattle.k_outcome.specs.k_process.BetweenSteps.{AllStand};
ghost use Rattle.k_still.specs.Opening.{IsSetupOf};
ghost use Rattle.k_outcome.specs.Listed.{AreRoomsFor};
ghost use Rattle.k_locks.specs.Rooms.{AreEndRooms, HasRoom};
ghost use Rattle.k_opening.specs.Worlds.{HoldsRun};
ghost use Rattle.k_turns.specs.Values.{AreFree};
ghost use Rattle.k_locks.specs.k_watch.Numbers.{numbers_of};
ghost use Rattle.k_locks.specs.k_watch.Shown.{IsShown};

use crate::still::Still;
use crate::world::World;
use k_io::NoMemory;
use k_locks::{EndRooms, LockRooms, Locks, WatchPen, WorldName, end_rooms, lock_all, lock_rooms};
use k_outcome::ReportRooms;
use k_still::FirstCells;
use k_trace::Names;
use k_turns::{TurnPass, Turns};
use k_types::Setup;
use std::alloc::Global;
use std::sync::Wait;

/// The most workers of a run.
pub const MOST_WORKERS: u32 = 4;

/// The queue of so many processes, with a pass for each worker: as many as there are processes, at most four.
fn queue<R: Wait>(
    rt: &R,
    alloc: Global,
    processes: usize,
) -> Result<(Turns, Vec<TurnPass>), NoMemory>
    requires some { 0 < processes }
    requires few { processes < 2 ^ 32 }
    ensures { IfOk result (λ made. AreFree made.0 made.1.items) }
{
    let count = processes as u32;
    Turns::make(rt, alloc, count, count.min(MOST_WORKERS))
}

/// What a run has beside its heaps: the queue of its processes with a pass for each worker, and the places for the end.
#[derive(Drop)]
struct Readiness {
    turns: Turns,
    passes: Vec<TurnPass>,
    rooms: EndRooms,
}

/// What a run of so many processes and shared heaps has beside its heaps.
fn make_ready<R: Wait>(
    rt: &R,
    alloc: Global,
    processes: usize,
    shared: usize,
) -> Result<Readiness, NoMemory>
    requires some { 0 < processes }
    requires few { processes < 2 ^ 32 }
    ensures free { IfOk result (λ ready. AreFree ready.turns ready.passes.items) }
    ensures rooms { IfOk result (λ ready. AreEndRooms processes shared ready.rooms) }
{
    let rooms = end_rooms(alloc, processes, shared)?;
    let (turns, passes) = queue(rt, alloc, processes)?;
    Ok(Readiness {
        turns,
        passes,
        rooms,
    })
}

/// What a run of so many processes and shared heaps has beside its heaps, and room for their locks: all that can fail.
fn make_all_ready<W: WorldName, R: Wait>(
    rt: &R,
    alloc: Global,
    processes: usize,
    shared: usize,
) -> Result<(LockRooms<W>, Readiness), NoMemory>
    requires some { 0 < processes }
    requires few { processes < 2 ^ 32 }
    ensures processes { IfOk result (λ made. HasRoom processes made.0.processes.items (vec_capacity made.0.processes)) }
    ensures shared { IfOk result (λ made. HasRoom shared made.0.shared.items (vec_capacity made.0.shared)) }
    ensures free { IfOk result (λ made. AreFree made.1.turns made.1.passes.items) }
    ensures rooms { IfOk result (λ made. AreEndRooms processes shared made.1.rooms) }
{
    let locks = lock_rooms(alloc, processes, shared)?;
    let ready = make_ready(rt, alloc, processes, shared)?;
    Ok((locks, ready))
}

/// The run of what was made for it.
fn put_together<W: WorldName>(
    locks: Locks<W>,
    ready: Readiness,
    report: ReportRooms,
    names: Names,
    setup: Setup,
) -> World<W>
    requires { HoldsRun W.world (length locks.processes.items) (length locks.shared.items) ready.rooms report ready.turns ready.passes.items setup }
    ensures { (result.names ≡ names) × (result.setup ≡ setup) }
{
    let Readiness {
        turns,
        passes,
        rooms,
    } = ready;
    World {
        locks,
        turns,
        passes,
        rooms,
        report,
        names,
        setup,
    }
}

/// The cells and the book behind locks, with what was made ready beside them. It takes no memory.
fn lock_cells<W: WorldName>(
    cells: FirstCells,
    pen: Option<WatchPen>,
    rooms: LockRooms<W>,
    ready: Readiness,
    report: ReportRooms,
) -> World<W>
    requires stands { AllStand W.world (value_of cells.heaps) }
    requires shown { IsShown W.watched W.world.trace cells.heaps.book.journal.list pen }
    requires setup { IsSetupOf cells.setup W.world }
    requires free { AreFree ready.turns ready.passes.items }
    requires rooms { AreEndRooms (length cells.heaps.processes.items) (length cells.heaps.shared.items) ready.rooms }
    requires report { AreRoomsFor W.world.trace report }
    requires process_room { HasRoom (length cells.heaps.processes.items) rooms.processes.items (vec_capacity rooms.processes) }
    requires shared_room { HasRoom (length cells.heaps.shared.items) rooms.shared.items (vec_capacity rooms.shared) }
    ensures { (result.names ≡ cells.names) × (result.setup ≡ cells.setup) }
{
    let FirstCells {
        setup,
        names,
        order: _,
        heaps,
    } = cells;
    let locks = lock_all(heaps, pen, rooms);
    put_together(locks, ready, report, names, setup)
}

/// Puts each process, the kernel, each shared heap and the book behind a lock of its own, as the run that `W` names, and queues the
/// processes for as many workers as there are processes, at most four. It takes all memory with which the run goes on and is ended. It
/// waits for the queue, which nobody else has.
///
/// # Errors
///
/// `NoMemory` where the locks, the queue or the places for the end find no room.
pub fn open<W: WorldName, R: Wait>(
    rt: &R,
    alloc: Global,
    still: Still,
) -> Result<World<W>, NoMemory>
    requires stands { AllStand W.world (value_of still.cells.heaps) }
    requires setup { IsSetupOf still.cells.setup W.world }
    requires rooms { AreRoomsFor W.world.trace still.rooms }
    requires alone { W.watched ≡ None }
    ensures { IfOk result (λ world. (world.names ≡ still.cells.names) × (world.setup ≡ still.cells.setup)) }
{
    open_with(rt, alloc, still, None)
}

/// The same of a run that is watched by the pen's cell. The pen was made of the still's book, and has not published since.
///
/// # Errors
///
/// `NoMemory` where the locks, the queue or the places for the end find no room.
pub fn open_watched<W: WorldName, R: Wait>(
    rt: &R,
    alloc: Global,
    still: Still,
    pen: WatchPen,
) -> Result<World<W>, NoMemory>
    requires stands { AllStand W.world (value_of still.cells.heaps) }
    requires setup { IsSetupOf still.cells.setup W.world }
    requires rooms { AreRoomsFor W.world.trace still.rooms }
    requires watched { W.watched ≡ Some pen.cell }
    requires made { pen.samples ≡ numbers_of still.cells.heaps.book ∷ [] }
    ensures { IfOk result (λ world. (world.names ≡ still.cells.names) × (world.setup ≡ still.cells.setup)) }
{
    open_with(rt, alloc, still, Some(pen))
}

fn open_with<W: WorldName, R: Wait>(
    rt: &R,
    alloc: Global,
    still: Still,
    pen: Option<WatchPen>,
) -> Result<World<W>, NoMemory>
    requires stands { AllStand W.world (value_of still.cells.heaps) }
    requires setup { IsSetupOf still.cells.setup W.world }
    requires rooms { AreRoomsFor W.world.trace still.rooms }
    requires shown { IsShown W.watched W.world.trace still.cells.heaps.book.journal.list pen }
    ensures { IfOk result (λ world. (world.names ≡ still.cells.names) × (world.setup ≡ still.cells.setup)) }
{
    let process_count = still.cells.heaps.processes.len();
    let shared_count = still.cells.heaps.shared.len();
    let (locks, ready) = make_all_ready(rt, alloc, process_count, shared_count)?;
    let Still { cells, rooms } = still;
    Ok(lock_cells(cells, pen, locks, ready, rooms))
}
