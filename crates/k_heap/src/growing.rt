//! More or less room for the cell.
ghost use Rattle.std.specs.Prelude.{◌≡◌, ◌+◌, ◌<◌, ◌≤◌, ◌++◌, ◌^◌, [], Some, OnErr, OnOk, length, slice_set, vec_capacity};
ghost use Rattle.k_cell.specs.Holdings.{AreWithin, CanGrowTo, CanNarrowTo};
ghost use Rattle.k_heap.specs.Heaps.{own_segment};

use crate::heap::HeapCell;
use k_cell::ExitRoom;
use k_types::{Event, NoMemory, Seg};

/// Copies all events to the end of the row, in their order.
fn copy_events(from: &[Event], into: &mut Vec<Event>)
    requires { length into.old.items + length from.now ≤ vec_capacity into.old }
    ensures items { into.new.items ≡ into.old.items ++ from.now }
    ensures capacity { vec_capacity into.new ≡ vec_capacity into.old }
{
    for event in from {
        into.push_reserved(*event);
    }
}

impl HeapCell {
    /// Has that room for exit items from now on, which is enough for them. They stay, each marked or not as it was. It passes each of them,
    /// takes no memory, and gives back that of the old room.
    pub fn move_exits(&mut self, room: ExitRoom)
        requires { length self.old.value.exits ≤ room }
        ensures { self.new ≡ record self.old { exit_room = room } }
    {
        self.holdings.move_exits(room);
    }

    /// Has the room of that row for unpublished events from now on, which is enough for them. They stay, in their order. It copies each of
    /// them, and takes no memory.
    pub fn move_tail(&mut self, larger: Vec<Event>)
        requires empty { larger.items ≡ [] }
        requires room { length self.old.value.tail ≤ vec_capacity larger }
        requires small { vec_capacity larger < 2 ^ 32 }
        ensures { self.new ≡ record self.old { tail_room = vec_capacity larger } }
    {
        let mut larger = larger;
        copy_events(&self.tail, &mut larger);
        self.tail = larger;
    }

    /// Lets so many objects live at once in the segment with which the heap begins, no fewer than before. All objects stay. It takes the
    /// memory for all that the segment has none for yet, and costs at most a copy of what the segment keeps of its objects. While a
    /// collection has begun it makes those roots gray that were only noted, one by one.
    ///
    /// # Errors
    ///
    /// `NoMemory` where there is none. Nothing of what contracts see has changed; some of the memory may have been taken, which a later call
    /// then finds.
    pub fn grow_objects(&mut self, room: u32) -> Result<(), NoMemory>
        requires more { CanGrowTo self.old.serial_rooms (own_segment self.old.pid) room }
        requires small { room + 1 < 2 ^ 32 }
        ensures ok { OnOk result (self.new ≡ record self.old { serial_rooms = slice_set self.old.serial_rooms (own_segment self.old.pid) (Some room) }) }
        ensures err { OnErr result (self.new ≡ self.old) }
        ensures within { AreWithin self.old.serial_rooms self.old.value.objects (own_segment self.old.pid) }
    {
        self.holdings.grow_objects(Seg(self.pid.0 + 1), room)
    }

    /// Lets only so many objects live at once in the segment with which the heap begins, no more than before, of which no more do now. The
    /// memory stays with the segment, so that `grow_objects` up to where it was takes none. Constant time, but that while a
    /// collection has begun it makes those roots gray that were only noted, one by one.
    pub fn narrow_objects(&mut self, room: u32)
        requires { CanNarrowTo self.old.serial_rooms self.old.value.objects (own_segment self.old.pid) room }
        ensures { self.new ≡ record self.old { serial_rooms = slice_set self.old.serial_rooms (own_segment self.old.pid) (Some room) } }
    {
        self.holdings.narrow_objects(Seg(self.pid.0 + 1), room);
    }
}
