//! More room for the book.
ghost use Rattle.std.specs.Prelude.{◌≡◌, ◌<◌, ◌≤◌, ◌^◌, IfOk, OnErr, length};

use crate::parts::Book;
use k_entry::EntryRoom;
use k_types::NoMemory;

impl Book {
    /// Has that room for entry items from now on, which is no less than it had. They stay, and so does all else. It puts each of them into a
    /// new hash chain, takes no memory, and gives back that of the old room.
    pub fn move_entries(&mut self, room: EntryRoom)
        requires { self.old.entry_room ≤ room }
        ensures { self.new ≡ record self.old { entry_room = room } }
    {
        self.entered.move_entries(room);
    }

    /// Has room for so many events from now on, no fewer than before. Constant time, and no memory.
    pub fn grow_events(&mut self, room: u64)
        requires more { self.old.event_room ≤ room }
        requires few { room < 2 ^ 55 }
        ensures { self.new ≡ record self.old { event_room = room } }
    {
        self.journal.grow_events(room);
    }

    /// Keeps so many of the last events, no fewer than before, and answers how many of them can be read from now on. These are all that are
    /// asked for while no event is forgotten, and else those that are still there; the same call later answers more. It is constant time and
    /// takes no memory where there is room for so many already; else it takes memory for all of them, and moves those that it holds.
    ///
    /// # Errors
    ///
    /// `NoMemory` where there is none for so many beside those that it holds: then nothing has changed.
    pub fn grow_kept(&mut self, kept: u32) -> Result<u32, NoMemory>
        requires { self.old.kept ≤ kept }
        ensures ok { IfOk result (λ now. self.new ≡ record self.old { kept = now }) }
        ensures least { IfOk result (λ now. self.old.kept ≤ now) }
        ensures most { IfOk result (λ now. now ≤ kept) }
        ensures all { IfOk result (λ now. length self.old.journal.list ≤ self.old.kept → now ≡ kept) }
        ensures err { OnErr result (self.new ≡ self.old) }
    {
        self.journal.grow_kept(kept)
    }
}
