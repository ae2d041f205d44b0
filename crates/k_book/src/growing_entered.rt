//! More room for entry items.
ghost use Rattle.std.specs.Prelude.{◌≡◌, ◌≤◌};

use crate::tables::EnteredTables;
use k_entry::EntryRoom;

impl EnteredTables {
    /// Has that room for entry items from now on, which is no less than it had. They stay, and so do the pins and their room. It puts each
    /// entry item into a new hash chain, takes no memory, and gives back that of the old room.
    pub fn move_entries(&mut self, room: EntryRoom)
        requires { self.old.entry_room ≤ room }
        ensures { self.new ≡ record self.old { entry_room = room } }
    {
        self.entries.move_into(room);
    }
}
