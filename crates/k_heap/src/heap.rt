//! The cell and how it is made.
ghost use Rattle.std.specs.Prelude.{◌≡◌, ◌<◌, ◌^◌, IfOk, length};
ghost use Rattle.std.specs.Borrow.{sem};
ghost use Rattle.k_heap.specs.Heaps.{opened_heap, segments_of};

use k_cell::{Body, HoldingRooms, Holdings, Note};
use k_types::{Event, Link, NoMemory, Pid, Seg, Setup};
use std::alloc::Global;
use std::collections::VecDeque;
use std::marker::Model;

/// How much a process's cell is made for: objects of its segment that live at once, exit items, and unpublished events.
#[derive(Clone, Copy, Debug)]
pub struct CellRooms {
    pub objects: u32,
    pub exits: u32,
    pub tail: u32,
}

/// One process's heap with what belongs to the process alone.
pub struct HeapCell {
    pub(crate) holdings: Holdings,
    pub(crate) pid: Pid,
    pub(crate) registers: [Option<Link>; 16],
    pub(crate) done: u64,
    pub(crate) has_ended: bool,
    // The oldest comes first.
    pub(crate) tail: Vec<Event>,
    // That for the next allocation comes first.
    pub(crate) bodies: VecDeque<Body>,
}

impl Drop for HeapCell {
    fn drop(self) {
        let HeapCell {
            holdings: _,
            pid: _,
            registers: _,
            done: _,
            has_ended: _,
            tail: _,
            bodies: _,
        } = self;
    }
}

impl Model for HeapCell {
    ghost use Rattle.k_heap.specs.Heaps.{HeapRecord, heap_seen};

    ghost Value = { HeapRecord };

    ghost use Rattle.std.specs.Prelude.{◌<◌, ◌+◌, ◌^◌, vec_capacity};

    ghost view = { λ c. heap_seen c.holdings c.pid c.registers c.done c.has_ended c.tail.items (vec_capacity c.tail) c.bodies.items };

    ghost invariant = { λ c. (c.pid.0 + 1 < 2 ^ 32) × (vec_capacity c.tail < 2 ^ 32) };
}

impl HeapCell {
    ghost use Rattle.k_heap.specs.Lends.{lends_note};

    /// The cell of a process before the first event, with an empty heap and these bodies for its allocations in order. It takes
    /// the memory for all rooms at once; `NoMemory` comes where there is none.
    pub fn make(
        alloc: Global,
        setup: &Setup,
        pid: Pid,
        bodies: VecDeque<Body>,
        rooms: CellRooms,
        note: Note,
    ) -> Result<HeapCell, NoMemory>
        requires there { pid.0 < length setup.now.procs.items }
        requires few { segments_of setup.now < 2 ^ 32 }
        ensures { IfOk result (λ made. made ≡ opened_heap setup.now pid bodies.items rooms note) }
    {
        let seg = Seg(pid.0 + 1);
        let bound = 1 + setup.procs.len() as u32 + setup.shared;
        let held = HoldingRooms {
            bound,
            segments: 1,
            objects: rooms.objects,
            exits: rooms.exits,
        };
        let holdings = Holdings::make(alloc, seg, held, note)?;
        let tail = Vec::with_capacity(alloc, rooms.tail as usize)?;
        Ok(HeapCell {
            holdings,
            pid,
            registers: [None; 16],
            done: 0,
            has_ended: false,
            tail,
            bodies,
        })
    }

    /// Lends the note, which never leaves its place.
    pub fn note_mut(&mut self) -> &mut Note
        ensures* writes_back { sem 𝓛 (lends_note self.entry result) }
        ensures value { result.now ≡ self.old.note }
    {
        self.holdings.note_mut()
    }
}
