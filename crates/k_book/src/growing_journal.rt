//! More room for events.
ghost use Rattle.std.specs.Prelude.{◌≡◌, ◌<◌, ◌≤◌, ◌^◌, IfOk, OnErr, length};

use crate::keeping::Journal;
use k_types::NoMemory;

impl Journal {
    /// Has room for so many events from now on, no fewer than before. Constant time, and no memory.
    pub fn grow_events(&mut self, room: u64)
        requires more { self.old.room ≤ room }
        requires few { room < 2 ^ 55 }
        ensures { self.new ≡ record self.old { room = room } }
    {
        self.room = room;
    }

    /// Keeps so many of the last events, no fewer than before, and answers how many of them can be read from now on. These are all that are
    /// asked for while no event is forgotten. Else some of them are gone: it answers how many are still there, and holds more of those to
    /// come, so that the same call later answers more. Where it holds room for so many already it is constant time and takes no memory; else it
    /// takes memory for all of them, and moves those that it holds.
    ///
    /// # Errors
    ///
    /// `NoMemory` where there is none for so many beside those that it holds: then nothing has changed.
    pub fn grow_kept(&mut self, kept: u32) -> Result<u32, NoMemory>
        requires { self.old.kept ≤ kept }
        ensures ok { IfOk result (λ now. self.new ≡ record self.old { kept = now }) }
        ensures least { IfOk result (λ now. self.old.kept ≤ now) }
        ensures most { IfOk result (λ now. now ≤ kept) }
        ensures all { IfOk result (λ now. length self.old.journal.list ≤ self.old.kept → now ≡ kept) }
        ensures err { OnErr result (self.new ≡ self.old) }
    {
        let wanted = kept as usize;
        if self.last.capacity() < wanted {
            self.last.resize(wanted)?;
        }
        let held = self.last.len();
        let now = if held < self.count as usize && held < wanted {
            held as u32
        } else {
            kept
        };
        self.kept = now;
        Ok(now)
    }
}
