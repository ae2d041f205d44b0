//! A trace that is run on threads beside a watcher, which takes samples of the run and never the book.
ghost use Rattle.std.specs.Prelude.{◌≡◌, ◌+◌, ◌<◌, ◌^◌, [], ◌∷◌, IfOk, Some, length, vec_capacity};
ghost use Rattle.k_run.specs.k_outcome.Listed.{AreRoomsFor};
ghost use Rattle.k_run.specs.k_opening.k_locks.Rooms.{HasRoom};
ghost use Rattle.k_top.specs.Watched.{HasTaken, IsWatchedRunOf};
ghost use Rattle.k_run.specs.k_outcome.k_process.Heaps.{value_of};
ghost use Rattle.k_run.specs.k_outcome.k_process.BetweenSteps.{AllStand};
ghost use Rattle.k_run.specs.k_opening.k_still.Opening.{IsSetupOf};
ghost use Rattle.k_trace.specs.Meaning.{meaning_of};
ghost use Rattle.k_trace.specs.Rules.{IsTrace};
ghost use Rattle.k_run.specs.k_watch.Numbers.{numbers_of};

use k_io::{Gate, GatePlace, NoMemory};
use k_run::{
    Book, Outcome, Sample, Still, WatchPen, Watcher, World, WorldName, empty_list, finish_watched,
    make, open_still, open_watched, run,
};
use k_trace::Trace;
use std::alloc::Global;
use std::marker::Brand;
use std::sync::Wait;
use std::thread;
use std::thread::Threads;

/// The number under which the gate is told of the watcher.
const WATCHER: u32 = 0;

/// Has workers do the run, and gives it back.
fn run_on<W: WorldName + Send + Sync, G: Gate, R: Threads + Wait + Sync>(
    rt: &R,
    mut world: World<W>,
    gate: &G,
) -> World<W>
    ensures { result ≡ world }
{
    run(rt, &mut world, gate);
    world
}

/// Takes so many samples into a list that has room for one more. Before each, and once more after the last, the gate is told how many were
/// taken.
fn take_samples<G: Gate, R: Wait>(
    rt: &R,
    mut watcher: Watcher,
    mut samples: Vec<Sample>,
    count: u32,
    gate: &G,
) -> (Watcher, Vec<Sample>)
    requires room { HasRoom (count + 1) samples.items (vec_capacity samples) }
    requires none { watcher.samples ≡ [] }
    ensures { HasTaken count watcher.cell result.0 result.1.items (vec_capacity result.1) }
{
    for taken in 0..count {
        gate.pass(WATCHER, taken, GatePlace::Sampling);
        samples.push_reserved(watcher.sample(rt));
    }
    gate.pass(WATCHER, count, GatePlace::Sampling);
    (watcher, samples)
}

/// What a watched run has beside its cells: the pen, which goes behind the book's lock, the watcher, and a list for its samples.
#[derive(Drop)]
struct Watch {
    pen: WatchPen,
    watcher: Watcher,
    samples: Vec<Sample>,
}

/// A pen that has published the numbers of the book, with a watcher, and room for so many samples and one more.
fn make_watch<R: Wait>(rt: &R, alloc: Global, book: &Book, count: u32) -> Result<Watch, NoMemory>
    requires empty { book.now.journal.list ≡ [] }
    requires root { 0 < length book.now.rows }
    ensures made { IfOk result (λ watch. watch.pen.samples ≡ numbers_of book.now ∷ []) }
    ensures same_cell { IfOk result (λ watch. watch.watcher.cell ≡ watch.pen.cell) }
    ensures none { IfOk result (λ watch. watch.watcher.samples ≡ []) }
    ensures room { IfOk result (λ watch. HasRoom (count + 1) watch.samples.items (vec_capacity watch.samples)) }
{
    let samples = empty_list(alloc, count as usize + 1)?;
    let (pen, watcher) = make(rt, alloc, book)?;
    Ok(Watch {
        pen,
        watcher,
        samples,
    })
}

/// Has workers do the run while the watcher takes its samples, and ends it with one sample more.
fn watch_world<W: WorldName + Send + Sync, G: Gate, R: Threads + Wait + Sync>(
    rt: &R,
    world: World<W>,
    watcher: Watcher,
    samples: Vec<Sample>,
    count: u32,
    gate: &G,
) -> (Outcome, Vec<Sample>)
    requires watched { W.watched ≡ Some watcher.cell }
    requires none { watcher.samples ≡ [] }
    requires room { HasRoom (count + 1) samples.items (vec_capacity samples) }
    ensures { IsWatchedRunOf (record { names = world.names; trace = W.world.trace }) count result.0 result.1.items }
{
    let (world, (watcher, mut samples)) = thread::join(
        rt,
        move || -> World<W>
            ensures { result ≡ world }
        { run_on(rt, world, gate) },
        move || -> (Watcher, Vec<Sample>)
            requires { HasRoom (count + 1) samples.items (vec_capacity samples) × (watcher.samples ≡ []) }
            ensures { HasTaken count watcher.cell result.0 result.1.items (vec_capacity result.1) }
        { take_samples(rt, watcher, samples, count, gate) },
    );
    let (outcome, _, last) = finish_watched(rt, world, watcher);
    samples.push_reserved(last);
    (outcome, samples)
}

/// Puts the run behind its locks, and does and ends it beside the watcher.
fn watch_still<W: WorldName + Send + Sync, G: Gate, R: Threads + Wait + Sync>(
    rt: &R,
    alloc: Global,
    still: Still,
    watch: Watch,
    count: u32,
    gate: &G,
) -> Result<(Outcome, Vec<Sample>), NoMemory>
    requires stands { AllStand W.world (value_of still.cells.heaps) }
    requires setup { IsSetupOf still.cells.setup W.world }
    requires rooms { AreRoomsFor W.world.trace still.rooms }
    requires watched { W.watched ≡ Some watch.pen.cell }
    requires made { watch.pen.samples ≡ numbers_of still.cells.heaps.book ∷ [] }
    requires same_cell { watch.watcher.cell ≡ watch.pen.cell }
    requires none { watch.watcher.samples ≡ [] }
    requires room { HasRoom (count + 1) watch.samples.items (vec_capacity watch.samples) }
    ensures { IfOk result (λ ended. IsWatchedRunOf (record { names = still.cells.names; trace = W.world.trace }) count ended.0 ended.1.items) }
{
    let Watch {
        pen,
        watcher,
        samples,
    } = watch;
    let world: World<W> = open_watched(rt, alloc, still, pen)?;
    Ok(watch_world(rt, world, watcher, samples, count, gate))
}

/// Runs the trace as [`run_trace`](k_run::run_trace) does, beside a watcher that takes so many samples meanwhile, and one more of the run
/// that is over. Each is the number of events, the use of the root limit and the number of living processes as the machine has them after so
/// many events of the journal. The watcher takes no lock of the run. The gate is told at `Sampling` how many samples were taken, before each
/// and before the run is ended. It takes all memory before the first operation.
///
/// # Errors
///
/// `NoMemory` where the run, or the list of samples, finds no room, before the first operation.
pub fn watch_trace<G: Gate, R: Threads + Wait + Sync>(
    rt: &R,
    alloc: Global,
    trace: Trace,
    count: u32,
    gate: &G,
) -> Result<(Outcome, Vec<Sample>), NoMemory>
    requires trace { IsTrace (meaning_of trace) }
    ensures { IfOk result (λ ended. IsWatchedRunOf (meaning_of trace) count ended.0 ended.1.items) }
{
    let still = open_still(alloc, trace)?;
    let watch = make_watch(rt, alloc, still.book(), count)?;
    watch_still::<Brand, G, R>(rt, alloc, still, watch, count, gate)
}
