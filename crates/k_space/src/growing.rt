//! More or less room in a segment.
ghost use Rattle.std.specs.Prelude.{◌≡◌, ◌<◌, ◌≤◌, ◌+◌, ◌^◌, OnErr, OnOk, vec_capacity};
ghost use Rattle.k_space.specs.Segments.{living};

use crate::live::Entry;
use crate::segment::Segment;
use k_types::NoMemory;

/// Memory for so many entries, where there is less.
fn reserve(live: &mut Vec<Entry>, most: usize) -> Result<(), NoMemory>
    ensures items { live.new.items ≡ live.old.items }
    ensures kept { vec_capacity live.old ≤ vec_capacity live.new }
    ensures ok { OnOk result (most ≤ vec_capacity live.new) }
{
    let len = live.len();
    if len < most {
        live.reserve_exact(most - len)?;
    }
    Ok(())
}

impl Segment {
    /// Lets so many objects live at once. It takes the memory for all of them that the segment has not yet, and all objects
    /// stay in their slots. The chains stay as many as [`Segment::make`] made, so that a look-up without a right hint passes
    /// more objects, in proportion to how many times greater the room has become.
    ///
    /// # Errors
    ///
    /// `NoMemory` where there is none. The segment is as it was; some of the memory may have been taken, which a later call then finds.
    pub fn grow(&mut self, room: u32) -> Result<(), NoMemory>
        requires more { self.old.room ≤ room }
        requires small { room + 1 < 2 ^ 32 }
        ensures ok { OnOk result (self.new ≡ record self.old { room = room }) }
        ensures err { OnErr result (self.new ≡ self.old) }
    {
        let most = room as usize;
        reserve(&mut self.live, most)?;
        self.places.reserve(most)?;
        self.cells.reserve(most)?;
        self.room = room;
        Ok(())
    }

    /// Lets only so many objects live at once, of which no more do now. The memory stays with the segment. Constant time.
    pub fn narrow(&mut self, room: u32)
        requires enough { living self.old ≤ room }
        requires less { room ≤ self.old.room }
        ensures { self.new ≡ record self.old { room = room } }
    {
        self.room = room;
    }
}
