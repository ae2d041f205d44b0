//! The objects of a segment by slot, and the list of free slots.
ghost use Rattle.std.specs.Prelude.{◌≡◌, ◌<◌, ◌≤◌, ◌+◌, ◌^◌, [], ℕ, length, max, slice_set, option_map, option_copied, Some, None, IfOk, OnOk, OnErr, IsSome};
ghost use Rattle.k_types.specs.State.{Refers, Holds};
ghost use Rattle.k_types.specs.Names.{name_of};
ghost use Rattle.k_space.specs.Cells.{ChangesAt, count_held, get, with_cell};
ghost use Rattle.k_space.specs.declared.cells.Cell.{Cell as Lying};

use crate::body::Body;
use k_types::{Link, NoMemory, Serial};
use std::alloc::Global;
use std::marker::Model;
use std::mem;

/// An object with its serial.
#[derive(Drop)]
pub(crate) struct Cell {
    pub(crate) serial: Serial,
    pub(crate) body: Body,
}

/// What a slot has: an object, or else one more than the next free slot, with 0 where there is none.
#[derive(Drop)]
pub(crate) enum SlotState {
    Free(usize),
    Full(Cell),
}

/// Objects by slot. An object keeps its slot, and where one goes its slot is given to the next that comes.
#[derive(Drop)]
pub struct Cells {
    // Of the slots that were ever given, from 0 on.
    states: Vec<SlotState>,
    // One more than the slot that became free last; 0 where none is free.
    free: usize,
    count: usize,
}

impl Model for Cells {
    ghost use Rattle.std.specs.Prelude.{map, vec_capacity};
    ghost use Rattle.k_space.specs.Cells.{AreSorted, CellsValue, cell_of};

    ghost Value = { CellsValue };

    ghost view = { λ c. record { slots = map cell_of c.states.items; capacity = vec_capacity c.states } };

    ghost invariant = { λ c. AreSorted c.states.items c.free c.count };
}

impl Cells {
    /// No object, and memory for so many.
    pub(crate) fn make(alloc: Global, slots: usize) -> Result<Cells, NoMemory>
        ensures { IfOk result (λ c. c ≡ record { slots = []; capacity = slots }) }
    {
        Ok(Cells {
            states: Vec::with_capacity(alloc, slots)?,
            free: 0,
            count: 0,
        })
    }

    /// Memory for so many objects, where there is less. All objects stay in their slots.
    pub(crate) fn reserve(&mut self, slots: usize) -> Result<(), NoMemory>
        ensures ok { OnOk result (self.new ≡ record self.old { capacity = max self.old.capacity slots }) }
        ensures err { OnErr result (self.new ≡ self.old) }
    {
        let len = self.states.len();
        if len < slots {
            self.states.reserve_exact(slots - len)?;
        }
        Ok(())
    }

    /// How many objects there are.
    pub(crate) fn len(&self) -> usize
        ensures { result ≡ count_held self.now }
    {
        self.count
    }

    /// The object in that slot, if there is one.
    pub(crate) fn get(&self, slot: usize) -> Option<&Cell>
        ensures { option_copied result ≡ get self.now slot }
    {
        match self.states.get(slot) {
            Some(SlotState::Full(cell)) => Some(cell),
            _ => None,
        }
    }

    /// The object in that slot.
    pub(crate) fn at(&self, slot: usize) -> &Cell
        requires { IsSome (get self.now slot) }
        ensures { get self.now slot ≡ Some result.now }
    {
        match &self.states[slot] {
            SlotState::Full(cell) => cell,
            SlotState::Free(_) => unreachable!(),
        }
    }

    /// Writes a reference, or null, into that field of the object in that slot.
    pub(crate) fn write_ref(&mut self, slot: usize, field: u32, value: Option<Link>)
        requires there { IsSome (get self.old slot) }
        requires field { (cell : Lying) → get self.old slot ≡ Some cell → field < length cell.body.fields }
        ensures { (cell : Lying) → get self.old slot ≡ Some cell →
            self.new ≡ with_cell self.old slot (record cell { body = record cell.body { fields = slice_set cell.body.fields field (Refers (option_map name_of value)) } }) }
    {
        match &mut self.states[slot] {
            SlotState::Full(cell) => cell.body.write_ref(field, value),
            SlotState::Free(_) => unreachable!(),
        }
    }

    /// Writes a number into that field of the object in that slot.
    pub(crate) fn write_int(&mut self, slot: usize, field: u32, value: u64)
        requires there { IsSome (get self.old slot) }
        requires field { (cell : Lying) → get self.old slot ≡ Some cell → field < length cell.body.fields }
        ensures { (cell : Lying) → get self.old slot ≡ Some cell →
            self.new ≡ with_cell self.old slot (record cell { body = record cell.body { fields = slice_set cell.body.fields field (Holds value) } }) }
    {
        match &mut self.states[slot] {
            SlotState::Full(cell) => cell.body.write_int(field, value),
            SlotState::Free(_) => unreachable!(),
        }
    }

    /// Puts an object into a free slot, and tells which: the one that became free last, or else the next that was never given. No memory.
    pub(crate) fn put(&mut self, cell: Cell) -> usize
        requires { count_held self.old < self.old.capacity }
        ensures vacant { get self.old result ≡ None }
        ensures within { result < self.old.capacity }
        ensures changed { ChangesAt self.old self.new result (Some cell) }
        ensures count { count_held self.new ≡ count_held self.old + 1 }
        ensures capacity { self.new.capacity ≡ self.old.capacity }
    {
        self.count += 1;
        if self.free == 0 {
            let slot = self.states.len();
            self.states.push_reserved(SlotState::Full(cell));
            return slot;
        }
        let slot = self.free - 1;
        match mem::replace(&mut self.states[slot], SlotState::Full(cell)) {
            SlotState::Free(next) => self.free = next,
            SlotState::Full(_) => unreachable!(),
        }
        slot
    }

    /// Takes the object in that slot out. The slot is free from then on.
    pub(crate) fn take(&mut self, slot: usize) -> Cell
        requires { IsSome (get self.old slot) }
        ensures value { get self.old slot ≡ Some result }
        ensures changed { ChangesAt self.old self.new slot None }
        ensures count { count_held self.new + 1 ≡ count_held self.old }
        ensures capacity { self.new.capacity ≡ self.old.capacity }
    {
        let next = SlotState::Free(self.free);
        match mem::replace(&mut self.states[slot], next) {
            SlotState::Full(cell) => {
                self.count -= 1;
                self.free = slot + 1;
                cell
            }
            SlotState::Free(_) => unreachable!(),
        }
    }
}
