//! What the cell of a shared heap changes.
ghost use Rattle.std.specs.Prelude.{◌≡◌, ◌<◌, ◌≤◌, ◌+◌, ◌^◌, ◌==◌, ◌⊎◌, not, [], IfNone, IfSome, IsFalse, IsTrue, None, length, option_map, slice_index_or};
ghost use Rattle.std.specs.List.{list_any};
ghost use Rattle.k_types.specs.Names.{name_among, name_of};
ghost use Rattle.k_types.specs.Owners.{object_bytes};
ghost use Rattle.k_types.specs.Replies.{is_ref};
ghost use Rattle.k_types.specs.State.{Holds, Refers};
ghost use Rattle.k_types.specs.Totals.{total};
ghost use Rattle.k_cell.specs.Looks.{field_among, field_count_among};
ghost use Rattle.k_cell.specs.Changes.{HasDroppedExit, next_in, with_body, with_exit_item, with_field};
ghost use Rattle.k_cell.specs.Holdings.{HasGivenSegment, HasObjectRoom};
ghost use Rattle.k_shared.specs.SharedHeaps.{holdings_of, with_phase};

use crate::cell::SharedCell;
use k_cell::{Body, Segment};
use k_types::{Link, Name, Phase, Seg};

impl SharedCell {
    /// Has the heap enter that phase. Whether it may is the caller's to know. Constant time.
    pub fn set_phase(&mut self, phase: Phase)
        ensures { self.new ≡ record self.old { value = with_phase phase self.old.value } }
    {
        self.phase = phase;
    }

    /// Puts an object into the segment with which the heap begins, and gives its name. Constant time, and no memory.
    pub fn place(&mut self, body: Body) -> Link
        requires left { HasObjectRoom (holdings_of self.old) self.old.seg.0 }
        requires bytes { total object_bytes self.old.value.objects + 144 < 2 ^ 64 }
        ensures name { name_of result ≡ next_in self.old.seg.0 self.old.value }
        ensures placed { self.new ≡ record self.old { value = with_body self.old.seg.0 body self.old.value } }
    {
        let seg = self.seg;
        self.holdings.place(seg, body)
    }

    /// Writes a reference, or null, into the field of the object. It asks neither the phase nor a write barrier, and adds no exit
    /// item: these are the caller's. Constant time, and no memory.
    pub fn write_ref(&mut self, at: Link, field: u32, value: Option<Link>)
        requires { IsTrue (is_ref (field_among self.old.value.objects (name_of at) field)) }
        ensures { self.new ≡ record self.old { value = with_field (name_of at) field (Refers (option_map name_of value)) self.old.value } }
    {
        self.holdings.write_ref(at, field, value);
    }

    /// Writes a number into the field of the object, in any phase. Constant time, and no memory.
    pub fn write_int(&mut self, at: Link, field: u32, value: u64)
        requires there { field < field_count_among self.old.value.objects (name_of at) }
        requires kind { IsFalse (is_ref (field_among self.old.value.objects (name_of at) field)) }
        ensures { self.new ≡ record self.old { value = with_field (name_of at) field (Holds value) self.old.value } }
    {
        self.holdings.write_int(at, field, value);
    }

    /// Adds the exit item where it is new, and tells whether it was. Constant time where the hash spreads the names, and no
    /// memory.
    pub fn add_exit(&mut self, target: Link) -> bool
        requires { IsTrue (name_among (name_of target) self.old.value.exits) ⊎ (length self.old.value.exits < self.old.exit_room) }
        ensures value { result ≡ not (name_among (name_of target) self.old.value.exits) }
        ensures added { self.new ≡ record self.old { value = with_exit_item (name_of target) self.old.value } }
    {
        self.holdings.add_exit(target)
    }

    /// Removes an exit item that leads into that segment. Calls for one segment until there is none pass each item once.
    pub fn take_into(&mut self, seg: Seg) -> Option<Name>
        ensures rest { self.new ≡ record self.old { value = self.new.value } }
        ensures some { IfSome result (λ n. HasDroppedExit self.old.value self.new.value n × (n.seg.0 ≡ seg.0)) }
        ensures none { IfNone result (IsFalse (list_any (λ n. n.seg.0 == seg.0) self.old.value.exits)) }
        ensures kept { IfNone result (self.new ≡ self.old) }
    {
        self.holdings.take_into(seg)
    }

    /// Removes some exit item. Constant time.
    pub fn take_first(&mut self) -> Option<Name>
        ensures rest { self.new ≡ record self.old { value = self.new.value } }
        ensures some { IfSome result (λ n. HasDroppedExit self.old.value self.new.value n) }
        ensures none { IfNone result (self.old.value.exits ≡ []) }
        ensures kept { IfNone result (self.new ≡ self.old) }
    {
        self.holdings.take_first()
    }

    /// Takes the segment of that number out whole, with its objects. Constant time in the number of objects.
    pub fn take_segment(&mut self, seg: Seg) -> Option<Segment>
        ensures rest { self.new ≡ record self.old { value = record self.old.value { objects = self.new.value.objects; made = self.new.value.made }; serial_rooms = self.new.serial_rooms } }
        ensures some { IfSome result (λ segment. HasGivenSegment (holdings_of self.old) (holdings_of self.new) seg.0 segment) }
        ensures none { IfNone result (slice_index_or self.old.value.made seg.0 None ≡ None) }
        ensures kept { IfNone result (self.new ≡ self.old) }
    {
        self.holdings.take_segment(seg)
    }
}
