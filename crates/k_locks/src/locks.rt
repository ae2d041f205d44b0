//! All heaps of a run put behind their locks, and taken from behind them again.
ghost use Rattle.std.specs.Prelude.{◌≡◌, IfOk, length, vec_capacity};
ghost use Rattle.k_process.specs.Heaps.{value_of};
ghost use Rattle.k_process.specs.BetweenSteps.{AllStand, HeapsStand, ProcessesStand};
ghost use Rattle.k_locks.specs.Gathering.{CanGather, CanGatherShared};
ghost use Rattle.k_locks.specs.Rooms.{AreEndRooms, HasRoom};
ghost use Rattle.k_types.specs.Trace.{process_count};
ghost use Rattle.k_watch.specs.Shown.{IsShown};

use crate::locked::{LockedBook, LockedKernel, LockedProcess, LockedShared};
use crate::placing::{in_order, place_process, place_shared};
use crate::rooms::{EndRooms, empty_list};
use crate::worlds::WorldName;
use k_io::NoMemory;
use k_process::{Book, Heaps, Process, SharedCell};
use k_watch::WatchPen;
use std::alloc::Global;
use std::sync::Mutex;

/// One lock for each process's heap, for the kernel's, for each shared heap and for the book. They are taken in this order, those of two
/// processes by rising number.
#[derive(Drop)]
pub struct Locks<W: WorldName> {
    pub processes: Vec<Mutex<LockedProcess<W>>>,
    pub kernel: Mutex<LockedKernel<W>>,
    pub shared: Vec<Mutex<LockedShared<W>>>,
    pub book: Mutex<LockedBook<W>>,
}

/// Room for the locks of the processes and of the shared heaps.
#[derive(Drop)]
pub struct LockRooms<W: WorldName> {
    pub processes: Vec<Mutex<LockedProcess<W>>>,
    pub shared: Vec<Mutex<LockedShared<W>>>,
}

/// Room for the locks of so many processes and shared heaps.
///
/// # Errors
///
/// `NoMemory` where there is no such room.
pub fn lock_rooms<W: WorldName>(
    alloc: Global,
    processes: usize,
    shared: usize,
) -> Result<LockRooms<W>, NoMemory>
    ensures processes { IfOk result (λ rooms. HasRoom processes rooms.processes.items (vec_capacity rooms.processes)) }
    ensures shared { IfOk result (λ rooms. HasRoom shared rooms.shared.items (vec_capacity rooms.shared)) }
{
    Ok(LockRooms {
        processes: empty_list(alloc, processes)?,
        shared: empty_list(alloc, shared)?,
    })
}

/// Each process behind a lock of its own, in a list with room for all.
fn lock_processes<W: WorldName>(
    processes: Vec<Process>,
    mut locks: Vec<Mutex<LockedProcess<W>>>,
) -> Vec<Mutex<LockedProcess<W>>>
    requires stand { ProcessesStand W.world processes.items }
    requires room { HasRoom (length processes.items) locks.items (vec_capacity locks) }
    ensures { length result.items ≡ length processes.items }
{
    for process in processes {
        locks.push_reserved(Mutex::new(LockedProcess::of(process)));
    }
    locks
}

/// Each cell of a shared heap behind a lock of its own, in a list with room for all.
fn lock_shared<W: WorldName>(
    shared: Vec<SharedCell>,
    mut locks: Vec<Mutex<LockedShared<W>>>,
) -> Vec<Mutex<LockedShared<W>>>
    requires stand { HeapsStand W.world shared.items }
    requires room { HasRoom (length shared.items) locks.items (vec_capacity locks) }
    ensures { length result.items ≡ length shared.items }
{
    for cell in shared {
        locks.push_reserved(Mutex::new(LockedShared::of(cell)));
    }
    locks
}

/// Each process, the kernel, each shared heap and the book behind a lock of its own. It takes no memory.
pub fn lock_all<W: WorldName>(heaps: Heaps, pen: Option<WatchPen>, rooms: LockRooms<W>) -> Locks<W>
    requires stand { AllStand W.world (value_of heaps) }
    requires shown { IsShown W.watched W.world.trace heaps.book.journal.list pen }
    requires process_room { HasRoom (length heaps.processes.items) rooms.processes.items (vec_capacity rooms.processes) }
    requires shared_room { HasRoom (length heaps.shared.items) rooms.shared.items (vec_capacity rooms.shared) }
    ensures { (length result.processes.items ≡ length heaps.processes.items) × (length result.shared.items ≡ length heaps.shared.items) }
{
    let LockRooms {
        processes: processes_into,
        shared: shared_into,
    } = rooms;
    let Heaps {
        processes,
        kernel,
        shared,
        book,
    } = heaps;
    let processes = lock_processes(processes, processes_into);
    let shared = lock_shared(shared, shared_into);
    Locks {
        processes,
        kernel: Mutex::new(LockedKernel::of(kernel)),
        shared,
        book: Mutex::new(LockedBook::of(book, pen)),
    }
}

/// Takes the processes from behind their locks, each to the place of its number.
fn gather<W: WorldName>(
    mut locks: Vec<Mutex<LockedProcess<W>>>,
    mut places: Vec<Option<Process>>,
    into: Vec<Process>,
    book: &mut Book,
) -> Vec<Process>
    requires { CanGather W.world (length locks.items) places.items into.items (vec_capacity into) book.old }
    ensures processes { ProcessesStand W.world result.items }
    ensures book { book.new ≡ book.old }
{
    while let Some(lock) = locks.pop() {
        place_process(&mut places, book, lock.into_inner().into_process());
    }
    in_order(places, into)
}

/// Takes the cells of shared heaps from behind their locks, each to the place of its number.
fn gather_shared<W: WorldName>(
    mut locks: Vec<Mutex<LockedShared<W>>>,
    mut places: Vec<Option<SharedCell>>,
    into: Vec<SharedCell>,
    book: &mut Book,
) -> Vec<SharedCell>
    requires { CanGatherShared W.world (length locks.items) places.items into.items (vec_capacity into) book.old }
    ensures shared { HeapsStand W.world result.items }
    ensures book { book.new ≡ book.old }
{
    while let Some(lock) = locks.pop() {
        place_shared(&mut places, book, lock.into_inner().into_shared());
    }
    in_order(places, into)
}

/// All heaps from behind their locks, each cell in the place of its own number, and the pen that stood beside the book. It takes no
/// memory.
pub fn unlock_all<W: WorldName>(locks: Locks<W>, rooms: EndRooms) -> (Heaps, Option<WatchPen>)
    requires processes { length locks.processes.items ≡ process_count W.world.trace }
    requires shared { length locks.shared.items ≡ W.world.trace.shared_heaps }
    requires rooms { AreEndRooms (process_count W.world.trace) W.world.trace.shared_heaps rooms }
    ensures stand { AllStand W.world (value_of result.0) }
    ensures shown { IsShown W.watched W.world.trace result.0.book.journal.list result.1 }
{
    let Locks {
        processes,
        kernel,
        shared,
        book,
    } = locks;
    let EndRooms {
        process_places,
        shared_places,
        processes: processes_into,
        shared: shared_into,
    } = rooms;
    let (mut book, pen) = book.into_inner().into_parts();
    let kernel = kernel.into_inner().into_kernel();
    let processes = gather(processes, process_places, processes_into, &mut book);
    let shared = gather_shared(shared, shared_places, shared_into, &mut book);
    let heaps = Heaps {
        processes,
        kernel,
        shared,
        book,
    };
    (heaps, pen)
}
