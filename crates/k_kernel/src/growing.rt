//! More or less room for the cell.
ghost use Rattle.std.specs.Prelude.{◌≡◌, ◌<◌, ◌≤◌, ◌+◌, ◌^◌, Some, OnErr, OnOk, length, slice_set};
ghost use Rattle.k_cell.specs.Holdings.{AreWithin, CanGrowTo, CanNarrowTo};

use crate::kernel::KernelCell;
use k_cell::ExitRoom;
use k_types::{NoMemory, Seg};

impl KernelCell {
    /// Has that room for exit items from now on, which is enough for them. They stay, each marked or not as it was. It passes each of them,
    /// takes no memory, and gives back that of the old room.
    pub fn move_exits(&mut self, room: ExitRoom)
        requires { length self.old.value.exits ≤ room }
        ensures { self.new ≡ record self.old { exit_room = room } }
    {
        self.holdings.move_exits(room);
    }

    /// Lets so many objects live at once in the kernel's own segment, no fewer than before. All objects stay. It takes the
    /// memory for all that the segment has none for yet, and costs at most a copy of what the segment keeps of its objects. While a
    /// collection has begun it makes those roots gray that were only noted, one by one.
    ///
    /// # Errors
    ///
    /// `NoMemory` where there is none. Nothing of what contracts see has changed; some of the memory may have been taken, which a later call
    /// then finds.
    pub fn grow_objects(&mut self, room: u32) -> Result<(), NoMemory>
        requires more { CanGrowTo self.old.serial_rooms 0 room }
        requires small { room + 1 < 2 ^ 32 }
        ensures ok { OnOk result (self.new ≡ record self.old { serial_rooms = slice_set self.old.serial_rooms 0 (Some room) }) }
        ensures err { OnErr result (self.new ≡ self.old) }
        ensures within { AreWithin self.old.serial_rooms self.old.value.objects 0 }
    {
        self.holdings.grow_objects(Seg(0), room)
    }

    /// Lets only so many objects live at once in the kernel's own segment, no more than before, of which no more do now. The
    /// memory stays with the segment, so that `grow_objects` up to where it was takes none. Constant time, but that while a
    /// collection has begun it makes those roots gray that were only noted, one by one.
    pub fn narrow_objects(&mut self, room: u32)
        requires { CanNarrowTo self.old.serial_rooms self.old.value.objects 0 room }
        ensures { self.new ≡ record self.old { serial_rooms = slice_set self.old.serial_rooms 0 (Some room) } }
    {
        self.holdings.narrow_objects(Seg(0), room);
    }
}
