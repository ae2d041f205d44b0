//! More or less room for holdings.
ghost use Rattle.std.specs.Prelude.{◌≡◌, ◌<◌, ◌≤◌, ◌+◌, ◌^◌, Some, OnErr, OnOk, length, slice_set};
ghost use Rattle.k_mark.specs.k_space.Segments.{SegmentValue, living};
ghost use Rattle.k_mark.specs.k_space.Areas.{HasDistinct, segment_at};
ghost use Rattle.k_cell.specs.Holdings.{AreWithin, CanGrowTo, CanNarrowTo};
ghost use Rattle.k_cell.specs.Placed.{CanGrow, CanNarrow, IsResized};

use crate::holding::Holdings;
use crate::rooting::{RootedArea, settle};
use k_mark::{Area, ExitRoom, NoMemory, Seg};

/// Lets so many objects live at once in the segment of that number, which is no fewer than before.
fn grow_in(area: &mut Area, seg: Seg, room: u32) -> Result<(), NoMemory>
    requires distinct { HasDistinct area.old.segments }
    requires more { CanGrow area.old.segments seg.0 room }
    requires small { room + 1 < 2 ^ 32 }
    ensures ok { OnOk result (IsResized area.old area.new seg.0 room) }
    ensures err { OnErr result (area.new ≡ area.old) }
    ensures within { (s : SegmentValue) → segment_at area.old.segments seg.0 ≡ Some s → living s ≤ s.room }
{
    let Some(segment) = area.get_mut(seg) else {
        unreachable!()
    };
    // Read so that the proof knows what holds of every segment.
    let _given = segment.made();
    segment.grow(room)
}

/// Lets only so many objects live at once in the segment of that number, of which no more do now.
fn narrow_in(area: &mut Area, seg: Seg, room: u32)
    requires distinct { HasDistinct area.old.segments }
    requires less { CanNarrow area.old.segments seg.0 room }
    ensures { IsResized area.old area.new seg.0 room }
{
    let Some(segment) = area.get_mut(seg) else {
        unreachable!()
    };
    segment.narrow(room);
}

impl RootedArea {
    /// As `grow_in`, once the noted roots are gray.
    pub(crate) fn grow_in(&mut self, seg: Seg, room: u32) -> Result<(), NoMemory>
        requires distinct { HasDistinct self.old.segments }
        requires more { CanGrow self.old.segments seg.0 room }
        requires small { room + 1 < 2 ^ 32 }
        ensures ok { OnOk result (IsResized self.old self.new seg.0 room) }
        ensures err { OnErr result (self.new ≡ self.old) }
        ensures within { (s : SegmentValue) → segment_at self.old.segments seg.0 ≡ Some s → living s ≤ s.room }
    {
        settle(&mut self.area, &mut self.noted, &mut self.all_noted);
        grow_in(&mut self.area, seg, room)
    }

    /// As `narrow_in`, once the noted roots are gray.
    pub(crate) fn narrow_in(&mut self, seg: Seg, room: u32)
        requires distinct { HasDistinct self.old.segments }
        requires less { CanNarrow self.old.segments seg.0 room }
        ensures { IsResized self.old self.new seg.0 room }
    {
        settle(&mut self.area, &mut self.noted, &mut self.all_noted);
        narrow_in(&mut self.area, seg, room);
    }
}

impl Holdings {
    /// Has that room for exit items from now on, which is enough for them. They stay, each marked or not as it was. It passes each of them,
    /// takes no memory, and gives back that of the old room.
    pub fn move_exits(&mut self, room: ExitRoom)
        requires { length self.old.value.exits ≤ room }
        ensures { self.new ≡ record self.old { exit_room = room } }
    {
        self.exits.move_into(room);
    }

    /// Lets so many objects live at once in the segment of that number, no fewer than before. All objects stay, and so do their marks. It
    /// takes the memory for all that the segment has none for yet, and costs at most a copy of what the segment keeps of its objects. While
    /// a collection has begun it makes those roots gray that were only noted, one by one.
    ///
    /// # Errors
    ///
    /// `NoMemory` where there is none. Nothing of what contracts see has changed; some of the memory may have been taken, which a later call
    /// then finds.
    pub fn grow_objects(&mut self, seg: Seg, room: u32) -> Result<(), NoMemory>
        requires more { CanGrowTo self.old.serial_rooms seg.0 room }
        requires small { room + 1 < 2 ^ 32 }
        ensures ok { OnOk result (self.new ≡ record self.old { serial_rooms = slice_set self.old.serial_rooms seg.0 (Some room) }) }
        ensures err { OnErr result (self.new ≡ self.old) }
        ensures within { AreWithin self.old.serial_rooms self.old.value.objects seg.0 }
    {
        self.area.grow_in(seg, room)
    }

    /// Lets only so many objects live at once in the segment of that number, no more than before, of which no more do now. The memory
    /// stays with the segment, so that `grow_objects` up to where it was takes none. Constant time, but that while a collection has begun it
    /// makes those roots gray that were only noted, one by one.
    pub fn narrow_objects(&mut self, seg: Seg, room: u32)
        requires { CanNarrowTo self.old.serial_rooms self.old.value.objects seg.0 room }
        ensures { self.new ≡ record self.old { serial_rooms = slice_set self.old.serial_rooms seg.0 (Some room) } }
    {
        self.area.narrow_in(seg, room);
    }
}
