//! The cells before the first event.
ghost use Rattle.std.specs.Prelude.{◌≡◌, [], IfOk};
ghost use Rattle.k_still.specs.Opening.{ArePending, ArePendingShared, CanBegin, CanOpenHeap, CanOpenHeaps, CanOpenKernel, CanOpenProcess, HasBegun, HasOpenedHeap, HasOpenedKernel, HaveOpened, HaveOpenedHeaps, ProcessBegins};
ghost use Rattle.k_process.specs.Heaps.{value_of};
ghost use Rattle.k_process.specs.BetweenSteps.{HeapsStand};
ghost use Rattle.k_process.specs.Worlds.{WorldValue};

use crate::prepared::Prepared;
use crate::rooms::stores_in;
use k_book::Book;
use k_heap::{CellRooms, HeapCell};
use k_kernel::KernelCell;
use k_process::{Heaps, Process};
use k_shared::SharedCell;
use k_space::Body;
use k_tie::Note;
use k_types::{NoMemory, Op, Pid, Setup, SharedId};
use std::alloc::Global;
use std::collections::VecDeque;

/// What the cells that are still to be made begin with, in the order of their segments: a note, and the number of serials.
#[derive(Drop)]
pub(crate) struct Beginnings {
    pub(crate) notes: VecDeque<Note>,
    pub(crate) serials: VecDeque<u32>,
}

/// Takes what the next cell begins with.
fn take_next(beginnings: &mut Beginnings) -> (Note, u32)
    requires { CanBegin beginnings.old }
    ensures { HasBegun beginnings.old beginnings.new result.0 result.1 }
{
    let Some(note) = beginnings.notes.pop_front() else {
        unreachable!()
    };
    let Some(objects) = beginnings.serials.pop_front() else {
        unreachable!()
    };
    (note, objects)
}

/// A process before the first event.
fn open_process(
    alloc: Global,
    setup: &Setup,
    pid: Pid,
    ops: Vec<Op>,
    bodies: VecDeque<Body>,
    objects: u32,
    note: Note,
) -> Result<Process, NoMemory>
    ghost world: { WorldValue }
    requires { CanOpenProcess world setup.now pid ops.items bodies.items objects note }
    ensures { IfOk result (λ made. ProcessBegins world made × (made.cell.pid ≡ pid)) }
{
    let rooms = CellRooms {
        objects,
        exits: stores_in(&ops),
        tail: ops.len() as u32,
    };
    let cell = HeapCell::make(alloc, setup, pid, bodies, rooms, note)?;
    Ok(Process { cell, ops })
}

/// The processes before the first event.
fn open_processes(
    alloc: Global,
    setup: &Setup,
    ops: Vec<Vec<Op>>,
    bodies: Vec<VecDeque<Body>>,
    beginnings: &mut Beginnings,
) -> Result<Vec<Process>, NoMemory>
    ghost world: { WorldValue }
    requires { ArePending world setup.now ops.items bodies.items beginnings.old [] }
    ensures { IfOk result (λ made. HaveOpened world beginnings.new made.items) }
{
    let mut ops = VecDeque::from_vec(ops);
    let mut bodies = VecDeque::from_vec(bodies);
    let mut processes = Vec::with_capacity(alloc, ops.len())?;
    while let Some(own) = ops.pop_front() {
        let Some(made) = bodies.pop_front() else {
            unreachable!()
        };
        let pid = Pid(processes.len() as u32);
        let (note, objects) = take_next(beginnings);
        processes.push(open_process(alloc, setup, pid, own, made, objects, note)?)?;
    }
    Ok(processes)
}

/// The kernel's cell before the first event.
fn open_kernel(
    alloc: Global,
    setup: &Setup,
    exits: u32,
    beginnings: &mut Beginnings,
) -> Result<KernelCell, NoMemory>
    ghost world: { WorldValue }
    requires { CanOpenKernel world setup.now exits beginnings.old }
    ensures { IfOk result (λ made. HasOpenedKernel world made beginnings.new) }
{
    let (note, objects) = take_next(beginnings);
    KernelCell::make(alloc, setup, objects, exits, note)
}

/// The cell of a shared heap before the first event.
fn open_heap(
    alloc: Global,
    setup: &Setup,
    id: SharedId,
    exits: u32,
    beginnings: &mut Beginnings,
) -> Result<SharedCell, NoMemory>
    ghost world: { WorldValue }
    requires { CanOpenHeap world setup.now id exits beginnings.old }
    ensures { IfOk result (λ made. HasOpenedHeap world id made beginnings.new) }
{
    let (note, objects) = take_next(beginnings);
    SharedCell::make(alloc, setup, id, objects, exits, note)
}

/// The cells of the shared heaps before the first event, with room for so many exit items each.
fn open_shared(
    alloc: Global,
    setup: &Setup,
    exits: &[u32],
    beginnings: &mut Beginnings,
) -> Result<Vec<SharedCell>, NoMemory>
    ghost world: { WorldValue }
    requires { ArePendingShared world setup.now exits.now beginnings.old [] }
    ensures { IfOk result (λ made. HeapsStand world made.items) }
{
    let mut shared = Vec::with_capacity(alloc, exits.len())?;
    for room in exits {
        let id = SharedId(shared.len() as u32);
        shared.push(open_heap(alloc, setup, id, *room, beginnings)?)?;
    }
    Ok(shared)
}

/// All heaps before the first event, beside the book. The kernel's cell is made first, since its segment is the first.
pub(crate) fn open_heaps(
    alloc: Global,
    setup: &Setup,
    ops: Vec<Vec<Op>>,
    prepared: Prepared,
    notes: Vec<Note>,
    book: Book,
) -> Result<Heaps, NoMemory>
    ghost world: { WorldValue }
    requires { CanOpenHeaps world setup.now ops.items prepared notes.items book }
    ensures { IfOk result (λ heaps. HaveOpenedHeaps world book (value_of heaps)) }
{
    let Prepared {
        bodies,
        serials,
        shared_exits,
        stores,
        events: _,
    } = prepared;
    let notes = VecDeque::from_vec(notes);
    let serials = VecDeque::from_vec(serials);
    let mut beginnings = Beginnings { notes, serials };
    let kernel = open_kernel(alloc, setup, stores, &mut beginnings)?;
    let processes = open_processes(alloc, setup, ops, bodies, &mut beginnings)?;
    let shared = open_shared(alloc, setup, &shared_exits, &mut beginnings)?;
    Ok(Heaps {
        processes,
        kernel,
        shared,
        book,
    })
}
