//! What the cell of a process changes of the process's own.
ghost use Rattle.std.specs.Prelude.{◌≡◌, ◌<◌, ◌+◌, ◌-◌, ◌^◌, ◌∷◌, [], ◌++◌, length, option_map, OnErr, OnOk};
ghost use Rattle.k_types.specs.Names.{name_of};
ghost use Rattle.k_cell.specs.k_laws.PartUpdates.{done_in};
ghost use Rattle.k_cell.specs.GivingAway.{with_one_done};
ghost use Rattle.k_heap.specs.Heaps.{with_process_ended, with_register_in};

use crate::heap::HeapCell;
use k_cell::Body;
use k_types::{Event, Link, NoMemory, Reg};

impl HeapCell {
    /// Has the register hold that. Constant time.
    pub fn set_reg(&mut self, r: Reg, value: Option<Link>)
        requires { r.0 < 16 }
        ensures { self.new ≡ record self.old { value = with_register_in r.0 (option_map name_of value) self.old.value } }
    {
        self.registers[r.0 as usize] = value;
    }

    /// Counts one more operation of the process as done.
    #[inline(always)]
    pub fn count_done(&mut self)
        requires { done_in self.old.value.process < 2 ^ 64 - 1 }
        ensures { self.new ≡ record self.old { value = with_one_done self.old.value } }
    {
        self.done += 1;
    }

    /// Ends the process, whose registers become null.
    pub fn end(&mut self)
        ensures { self.new ≡ record self.old { value = with_process_ended self.old.value } }
    {
        self.registers = [None; 16];
        self.has_ended = true;
    }

    /// Keeps an event that the journal lacks, as the newest. Constant time, and no memory.
    #[inline(always)]
    pub fn push_tail(&mut self, event: Event)
        requires { length self.old.value.tail < self.old.tail_room }
        ensures { self.new ≡ record self.old { value = record self.old.value { tail = self.old.value.tail ++ event ∷ [] } } }
    {
        self.tail.push_reserved(event);
    }

    /// Has no event left that the journal lacks, and the room for them as before. Constant time.
    #[inline]
    pub fn clear_tail(&mut self)
        ensures { self.new ≡ record self.old { value = record self.old.value { tail = [] } } }
    {
        self.tail.clear();
    }

    /// Has the body come first, as that for the next allocation. `NoMemory` comes where the list of bodies is full and finds no memory.
    pub fn give_body(&mut self, body: Body) -> Result<(), NoMemory>
        ensures given { OnOk result (self.new ≡ record self.old { bodies = body ∷ self.old.bodies }) }
        ensures same { OnErr result (self.new ≡ self.old) }
    {
        self.bodies.push_front(body)?;
        Ok(())
    }

    /// Gives the body for the next allocation.
    pub fn take_body(&mut self) -> Body
        requires { 0 < length self.old.bodies }
        ensures first { self.old.bodies ≡ result ∷ self.new.bodies }
        ensures rest { self.new ≡ record self.old { bodies = self.new.bodies } }
    {
        let Some(body) = self.bodies.pop_front() else {
            unreachable!()
        };
        body
    }
}
