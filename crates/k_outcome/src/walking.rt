//! The objects of an outcome, by name and one after the other.
ghost use Rattle.std.specs.Prelude.{◌≡◌, ◌<◌, IfNone, IfSome, IsTrue};
ghost use Rattle.k_types.specs.Owners.{owner_of};
ghost use Rattle.k_types.specs.Replies.{field_at};
ghost use Rattle.k_types.specs.State.{has};
ghost use Rattle.k_types.specs.Trace.{IsHeap, segment_count};
ghost use Rattle.k_space.specs.Objects.{content_of};
ghost use Rattle.k_text.specs.Shown.{next_name_after};
ghost use Rattle.k_outcome.specs.Cells.{IsThere};
ghost use Rattle.k_outcome.specs.Ends.{last_state};
ghost use Rattle.k_outcome.specs.Listed.{HasNoneAfter, IsNextIn, start_of};

use crate::outcome::Outcome;
use k_space::Stored;
use k_types::{Heap, Name, Seg, Serial};

// Where a walk begins that goes on after the name, or with the first object of all.
fn start_of(after: Option<Name>) -> Name
    ensures { result ≡ start_of after }
{
    match after {
        Some(name) => name,
        None => Name {
            seg: Seg(0),
            serial: Serial(0),
        },
    }
}

impl Outcome {
    // The heap that owns the segment. Constant time.
    pub(crate) fn owner_of(&self, seg: Seg) -> Heap
        requires { seg.0 < segment_count self.now.setup }
        ensures owner { result ≡ owner_of self.now.setup (last_state self.now) seg.0 }
        ensures there { IsThere self.now.cells result }
        ensures known { IsHeap self.now.setup result }
    {
        self.cells().book().owner(seg)
    }

    // The heap that has the object. Constant time.
    pub(crate) fn holder(&self, name: Name) -> Heap
        requires { IsTrue (has (last_state self.now).objects name) }
        ensures owner { result ≡ owner_of self.now.setup (last_state self.now) name.seg.0 }
        ensures there { IsThere self.now.cells result }
        ensures known { IsHeap self.now.setup result }
    {
        let _cells = self.cells();
        self.owner_of(name.seg)
    }

    // What the object's field holds. Constant time.
    pub(crate) fn field(&self, name: Name, field: u32) -> Stored
        requires { IsTrue (has (last_state self.now).objects name) }
        ensures { content_of result ≡ field_at (last_state self.now) name field }
    {
        self.cells().field(self.holder(name), name, field)
    }

    // The first object of the segment with a serial above that one. It passes the serials that were given between the two.
    fn next_in(&self, seg: Seg, after: u32) -> Option<Name>
        requires { seg.0 < segment_count self.now.setup }
        ensures some { IfSome result (IsNextIn (last_state self.now).objects seg.0 after) }
        ensures none { IfNone result (HasNoneAfter (last_state self.now).objects seg.0 after) }
    {
        let cells = self.cells();
        let heap = self.owner_of(seg);
        let made = self.made_in(seg);
        let mut serial = after;
        while serial < made {
            serial += 1;
            let name = Name {
                seg,
                serial: Serial(serial),
            };
            if cells.has(heap, name) {
                return Some(name);
            }
        }
        None
    }

    // The next object by segment and serial, or the first of all.
    pub(crate) fn next_after(&self, after: Option<Name>) -> Option<Name>
        ensures { result ≡ next_name_after after (last_state self.now).objects }
    {
        let start = start_of(after);
        let setup = self.setup();
        let segments = 1 + setup.procs.len() as u32 + setup.shared;
        let mut passed = start.serial.0;
        for seg in start.seg.0..segments {
            if let Some(name) = self.next_in(Seg(seg), passed) {
                return Some(name);
            }
            passed = 0;
        }
        None
    }
}
