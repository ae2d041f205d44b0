//! The holdings of a cell.
ghost use Rattle.std.specs.Prelude.{◌≡◌, ◌↔◌, ◌+◌, ◌<◌, ◌≤◌, ◌^◌, ◌==◌, ◌⊎◌, not, [], IfOk, IfSome, IfNone, IsFalse, IsTrue, Some, None, length, map, nat_lt, option_map, slice_get, slice_index_or, if◌then◌else◌};
ghost use Rattle.std.specs.List.{list_any};
ghost use Rattle.std.specs.Borrow.{sem};
ghost use Rattle.k_mark.specs.k_types.Agree.{CellValue};
ghost use Rattle.k_mark.specs.k_types.Names.{name_among, name_of};
ghost use Rattle.k_mark.specs.k_types.Numbers.{numbers_below};
ghost use Rattle.k_mark.specs.k_types.Owners.{object_bytes};
ghost use Rattle.k_mark.specs.k_types.Replies.{is_ref, number_in, reference};
ghost use Rattle.k_mark.specs.k_types.State.{Holds, Refers, field_kind, has};
ghost use Rattle.k_mark.specs.k_types.Totals.{total};
ghost use Rattle.k_mark.specs.k_types.Types.{object_size};
ghost use Rattle.k_mark.specs.k_types.declared.names.CellPhase.TheVariants.{Begun, Idle, Marked};
ghost use Rattle.k_mark.specs.k_types.declared.names.Name.{Name as Named};
ghost use Rattle.k_mark.specs.k_types.Distinct.{AreDistinctNames};
ghost use Rattle.k_mark.specs.k_space.Objects.{content_of};
ghost use Rattle.k_mark.specs.k_space.Segments.{made, segment_bytes};
ghost use Rattle.k_agree.specs.Marking.{begun};
ghost use Rattle.k_agree.specs.Ending.{freed_bytes, freed_objects};
ghost use Rattle.k_cell.specs.Looks.{field_among, field_count_among, found_among, type_among};
ghost use Rattle.k_cell.specs.Changes.{HasDroppedExit, HasGrayed, HasItsExits, HasMarked, HasRoot, next_in, with_black_alone, with_body, with_exit_item, with_field, with_put, with_stored, freed_at};
ghost use Rattle.k_mark.specs.Listening.{AreTold};
ghost use Rattle.k_cell.specs.Holdings.{HasGivenSegment, HasObjectRoom, fresh_holdings, with_segment_added};

use crate::carrying::{Carried, still_whole};
use crate::rooms::HoldingRooms;
use crate::rooting::RootedArea;
use k_agree::Note;
use k_mark::{
    Body, Bound, CellPhase, ExitTable, Link, Listener, Name, NoMemory, Nobody, Seg, Segment,
    Stored, Swept, TypeId,
};
use k_types::Field;
use std::alloc::Global;
use std::marker::Model;
use std::mem::swap;

/// The objects of a heap in their segments, its exit items, how far its collection has come, and what the cell knows of the
/// journal.
pub struct Holdings {
    // The numbers of segments are below this one.
    bound: u32,
    pub(crate) area: RootedArea,
    // Those of the objects.
    bytes: u64,
    pub(crate) exits: ExitTable,
    phase: CellPhase,
    note: Note,
    // What is known of the last collection. No contract speaks of it.
    carried: Carried,
}

impl Drop for Holdings {
    fn drop(self) {
        let Holdings {
            bound: _,
            area: _,
            bytes: _,
            exits: _,
            phase: _,
            note: _,
            carried: _,
        } = self;
    }
}

impl Model for Holdings {
    ghost use Rattle.k_cell.specs.Holdings.{HoldingsValue, AreHoldings, holdings_seen};

    ghost Value = { HoldingsValue };

    ghost view = { λ h. holdings_seen h.bound h.phase h.area h.exits h.note };

    ghost use Rattle.k_cell.specs.Carried.{IsCarried};

    ghost invariant = { λ h. record {
      tables : AreHoldings h.bound h.bytes h.phase h.area h.exits.items;
      carried : IsCarried h.phase h.area h.exits.items h.carried;
    } };
}

impl Holdings {
    ghost use Rattle.k_cell.specs.Lends.{lends_note};

    /// Holdings with one segment, of that number, with no object yet. It takes the memory for all rooms at once; `NoMemory` comes
    /// where there is none.
    pub fn make(
        alloc: Global,
        seg: Seg,
        rooms: HoldingRooms,
        note: Note,
    ) -> Result<Holdings, NoMemory>
        requires seg { seg.0 < rooms.bound }
        requires room { 0 < rooms.segments }
        ensures { IfOk result (λ made. made ≡ fresh_holdings seg.0 rooms note) }
    {
        let mut area = RootedArea::make(alloc, rooms.segments, rooms.objects)?;
        let segment = Segment::make(alloc, seg, rooms.objects)?;
        area.add(segment);
        let exits = ExitTable::make(alloc, rooms.exits)?;
        let carried = Carried {
            whole: false,
            swept: false,
            bound: Bound::nothing(seg),
            first: 0,
            roots: Vec::with_capacity(alloc, rooms.objects as usize)?,
            noted: false,
            next: Bound::nothing(seg),
            pending: Vec::with_capacity(alloc, rooms.objects as usize)?,
        };
        Ok(Holdings {
            bound: rooms.bound,
            area,
            bytes: 0,
            exits,
            phase: CellPhase::Idle,
            note,
            carried,
        })
    }

    /// How far the collection has come. Constant time.
    pub fn phase(&self) -> CellPhase
        ensures { result ≡ self.now.value.collection }
    {
        self.phase
    }

    /// The bytes of the objects. They are kept: constant time.
    pub fn bytes(&self) -> u64
        ensures { result ≡ total object_bytes self.now.value.objects }
    {
        self.bytes
    }

    /// Whether the object is one of the heap's. Constant time.
    pub fn has(&self, at: Name) -> bool
        ensures { result ≡ has self.now.value.objects at }
    {
        self.area.lives_at(at)
    }

    /// The number of the object's fields; 0 where there is no such object. Constant time.
    pub fn field_count(&self, at: Link) -> u32
        ensures { result ≡ field_count_among self.now.value.objects (name_of at) }
    {
        self.area.count_at(at)
    }

    /// What the field of the object holds; the number 0 where there is no such field. Constant time.
    pub fn field(&self, at: Link, field: u32) -> Stored
        ensures { content_of result ≡ field_among self.now.value.objects (name_of at) field }
    {
        self.area.field_at(at, field)
    }

    /// What the field of the object holds; none where there is no such field. Constant time.
    pub fn found(&self, at: Link, field: u32) -> Option<Stored>
        ensures { option_map content_of result ≡ found_among self.now.value.objects (name_of at) field }
    {
        self.area.found_at(at, field)
    }

    /// The object's type; none where it is the directory, or there is no such object. Constant time.
    pub fn type_of(&self, at: Name) -> Option<TypeId>
        ensures { result ≡ type_among self.now.value.objects at }
    {
        self.area.type_at(at)
    }

    /// Whether there is an exit item to that object. Constant time where the hash spreads the names.
    pub fn has_exit(&self, target: Name) -> bool
        ensures { result ≡ name_among target self.now.value.exits }
    {
        self.exits.has(target)
    }

    /// The number of exit items, of which no two have one target. Constant time.
    pub fn exit_count(&self) -> u32
        ensures len { result ≡ length self.now.value.exits }
        ensures distinct { AreDistinctNames self.now.value.exits }
        ensures room { length self.now.value.exits ≤ self.now.exit_room }
    {
        self.exits.len()
    }

    /// The target of the exit item at that place, from 0. Constant time.
    pub fn exit_at(&self, i: u32) -> Name
        requires { i < length self.now.value.exits }
        ensures { slice_get self.now.value.exits i ≡ Some result }
    {
        self.exits.target(i)
    }

    /// Whether some exit item leads into that segment. It passes each item until it finds one.
    pub fn leads_into(&self, seg: Seg) -> bool
        ensures { result ≡ list_any (λ n. n.seg.0 == seg.0) self.now.value.exits }
    {
        self.exits.leads_into(seg)
    }

    /// Whether the segment of that number is there and has room for one more object. Constant time.
    pub fn has_object_room(&self, seg: Seg) -> bool
        ensures { IsTrue result ↔ HasObjectRoom self.now seg.0 }
    {
        self.area.has_room_in(seg)
    }

    /// Lends the note, which never leaves its place.
    pub fn note_mut(&mut self) -> &mut Note
        ensures* writes_back { sem 𝓛 (lends_note self.entry result) }
        ensures value { result.now ≡ self.old.note }
    {
        &mut self.note
    }

    /// Puts an object into the segment of that number, and gives its name. No collection is open. Constant time, and no memory.
    pub fn place(&mut self, seg: Seg, body: Body) -> Link
        requires idle { self.old.value.collection ≡ Idle }
        requires left { HasObjectRoom self.old seg.0 }
        requires bytes { total object_bytes self.old.value.objects + 144 < 2 ^ 64 }
        ensures name { name_of result ≡ next_in seg.0 self.old.value }
        ensures placed { self.new ≡ record self.old { value = with_body seg.0 body self.old.value } }
    {
        self.bytes += body.bytes();
        let link = self.area.place_in(seg, body);
        self.carried.whole = still_whole(self.carried.whole, self.carried.bound, link.name());
        link
    }

    /// Writes a reference, or null, into the field of the object. It asks no write barrier, and adds no exit item: both are the
    /// caller's. Constant time, and no memory.
    pub fn write_ref(&mut self, at: Link, field: u32, value: Option<Link>)
        requires idle { self.old.value.collection ≡ Idle }
        requires kind { IsTrue (is_ref (field_among self.old.value.objects (name_of at) field)) }
        ensures { self.new ≡ record self.old { value = with_field (name_of at) field (Refers (option_map name_of value)) self.old.value } }
    {
        self.area.write_ref_in(at, field, value);
        self.carried.whole = still_whole(self.carried.whole, self.carried.bound, at.name());
    }

    /// Writes a number into the field of the object. Constant time, and no memory.
    pub fn write_int(&mut self, at: Link, field: u32, value: u64)
        requires idle { self.old.value.collection ≡ Idle }
        requires there { field < field_count_among self.old.value.objects (name_of at) }
        requires kind { IsFalse (is_ref (field_among self.old.value.objects (name_of at) field)) }
        ensures { self.new ≡ record self.old { value = with_field (name_of at) field (Holds value) self.old.value } }
    {
        self.area.write_int_in(at, field, value);
    }

    /// Stores a reference, or null, where the object has the field and that is a reference, and answers the field's kind; none where there is no
    /// such field. It asks no write barrier, and adds no exit item: both are the caller's. Constant time, and no memory.
    pub fn store(&mut self, at: Link, field: u32, value: Option<Link>) -> Option<Field>
        requires idle { self.old.value.collection ≡ Idle }
        ensures kind { result ≡ option_map field_kind (found_among self.old.value.objects (name_of at) field) }
        ensures stored { self.new ≡ record self.old { value = with_stored (name_of at) field (option_map name_of value) self.old.value } }
    {
        let name = at.name();
        let kind = self.area.store_in(at, field, value);
        self.carried.whole = still_whole(self.carried.whole, self.carried.bound, name);
        kind
    }

    /// Puts a number where the object has the field and that is an integer, and answers the field's kind; none where there is no such field.
    /// Constant time, and no memory.
    pub fn put(&mut self, at: Link, field: u32, value: u64) -> Option<Field>
        requires idle { self.old.value.collection ≡ Idle }
        ensures kind { result ≡ option_map field_kind (found_among self.old.value.objects (name_of at) field) }
        ensures put { self.new ≡ record self.old { value = with_put (name_of at) field value self.old.value } }
    {
        self.area.put_in(at, field, value)
    }

    /// Adds the exit item where it is new, and tells whether it was. Constant time where the hash spreads the names, and no
    /// memory.
    pub fn add_exit(&mut self, target: Link) -> bool
        requires idle { self.old.value.collection ≡ Idle }
        requires room { IsTrue (name_among (name_of target) self.old.value.exits) ⊎ (length self.old.value.exits < self.old.exit_room) }
        ensures value { result ≡ not (name_among (name_of target) self.old.value.exits) }
        ensures added { self.new ≡ record self.old { value = with_exit_item (name_of target) self.old.value } }
    {
        self.exits.add(target)
    }

    /// Begins a collection with no object gray. It passes the segments and the exit items, and no objects.
    pub fn begin(&mut self)
        ensures { self.new ≡ record self.old { value = begun [] self.old.value } }
    {
        self.area.clear(&mut self.exits);
        self.phase = CellPhase::Begun;
    }

    /// Makes an object of the heap gray; any other name changes nothing. Constant time.
    pub fn root(&mut self, target: Link)
        requires { self.old.value.collection ≡ Begun }
        ensures rest { self.new ≡ record self.old { value = self.new.value } }
        ensures root { HasRoot self.old.value self.new.value (name_of target) }
    {
        self.area.root(target);
    }

    /// Takes the roots that are noted out of the cell, to which others can be added at the end without memory, as far as the
    /// row has room. Until they are put back they are gray no longer. Constant time.
    pub fn take_roots(&mut self) -> Vec<Name>
        requires { self.old.value.collection ≡ Begun }
        ensures rest { self.new ≡ record self.old { value = self.new.value } }
        ensures begun { self.new.value ≡ begun self.new.value.gray self.old.value }
        ensures roots { HasGrayed (λ n. name_among n result.items) self.new.value self.old.value }
    {
        self.area.take_roots()
    }

    /// Makes those of these objects gray that are the heap's; other names change nothing. It is constant time where no root was
    /// noted since the last ones were taken.
    pub fn put_roots(&mut self, roots: Vec<Name>)
        requires { self.old.value.collection ≡ Begun }
        ensures rest { self.new ≡ record self.old { value = self.new.value } }
        ensures roots { HasGrayed (λ n. name_among n roots.items) self.old.value self.new.value }
    {
        self.area.put_roots(roots);
    }

    /// Marks what the gray objects reach inside the heap, and the exit items to which that refers. The cost is in proportion to
    /// the marked objects, their fields, the exit items and the segments. What the last collection kept is not traced again, where
    /// no reference of it was written since, no exit item of it is gone, and its roots are roots still.
    pub fn mark(&mut self)
        requires begun { self.old.value.collection ≡ Begun }
        requires exits { HasItsExits self.old.value }
        ensures rest { self.new ≡ record self.old { value = self.new.value } }
        ensures marked { HasMarked self.old.value self.new.value }
    {
        (self.carried.noted, self.carried.next) = self.area.mark_kept(
            &mut self.exits,
            self.carried.whole,
            self.carried.bound,
            self.carried.first,
            &self.carried.roots,
            &mut self.carried.pending,
        );
        self.carried.swept = false;
        self.phase = CellPhase::Marked;
    }

    /// Frees the objects that are not black, and adds their number and bytes. It passes the objects that were live.
    pub fn sweep(&mut self, into: &mut Swept)
        requires marked { self.old.value.collection ≡ Marked }
        requires objects { into.old.objects + freed_objects self.old.value < 2 ^ 32 }
        requires bytes { into.old.bytes + freed_bytes self.old.value < 2 ^ 64 }
        ensures swept { self.new ≡ record self.old { value = with_black_alone self.old.value } }
        ensures objects { into.new.objects ≡ into.old.objects + freed_objects self.old.value }
        ensures bytes { into.new.bytes ≡ into.old.bytes + freed_bytes self.old.value }
    {
        let mut nobody = Nobody;
        self.sweep_telling(into, &mut nobody);
    }

    /// The same, and the name of each object that goes is told, in any order.
    pub fn sweep_telling<L: Listener>(&mut self, into: &mut Swept, listener: &mut L)
        requires marked { self.old.value.collection ≡ Marked }
        requires objects { into.old.objects + freed_objects self.old.value < 2 ^ 32 }
        requires bytes { into.old.bytes + freed_bytes self.old.value < 2 ^ 64 }
        ensures swept { self.new ≡ record self.old { value = with_black_alone self.old.value } }
        ensures objects { into.new.objects ≡ into.old.objects + freed_objects self.old.value }
        ensures bytes { into.new.bytes ≡ into.old.bytes + freed_bytes self.old.value }
        ensures room { L.room listener.new ≡ L.room listener.old }
        ensures told { length (L.heard listener.old) + freed_objects self.old.value ≤ L.room listener.old →
            AreTold (freed_at self.old.value) (freed_objects self.old.value) (L.heard listener.old) (L.heard listener.new) }
    {
        let before = into.bytes;
        self.area.sweep_telling(into, listener);
        self.bytes -= into.bytes - before;
        // What is left is what this collection kept. Of the exit items some are still to go.
        swap(&mut self.carried.roots, &mut self.carried.pending);
        self.carried.whole = false;
        self.carried.swept = self.carried.noted;
        self.carried.bound = self.carried.next;
        self.carried.noted = false;
    }

    /// Ends the collection, of which no mark is left. Constant time.
    pub fn end_collection(&mut self)
        ensures { self.new ≡ record self.old { value = record self.old.value { collection = Idle; gray = []; black = []; black_exits = [] } } }
    {
        self.phase = CellPhase::Idle;
    }

    /// Removes an exit item that is not black. Calls until there is none pass each item once.
    pub fn take_unmarked(&mut self) -> Option<Name>
        requires { self.old.value.collection ≡ Marked }
        ensures rest { self.new ≡ record self.old { value = self.new.value } }
        ensures some { IfSome result (λ n. HasDroppedExit self.old.value self.new.value n × IsFalse (name_among n self.old.value.black_exits)) }
        ensures none { IfNone result ((n : Named) → IsTrue (name_among n self.old.value.exits) → IsTrue (name_among n self.old.value.black_exits)) }
        ensures kept { IfNone result (self.new ≡ self.old) }
    {
        match self.exits.take_unmarked() {
            Some(link) => {
                // Another item has its place.
                self.carried.whole = false;
                Some(link.name())
            }
            None => {
                self.carried.settle(self.exits.len());
                None
            }
        }
    }

    /// Removes an exit item that leads into that segment. Calls for one segment until there is none pass each item once.
    pub fn take_into(&mut self, seg: Seg) -> Option<Name>
        ensures rest { self.new ≡ record self.old { value = self.new.value } }
        ensures some { IfSome result (λ n. HasDroppedExit self.old.value self.new.value n × (n.seg.0 ≡ seg.0)) }
        ensures none { IfNone result (IsFalse (list_any (λ n. n.seg.0 == seg.0) self.old.value.exits)) }
        ensures kept { IfNone result (self.new ≡ self.old) }
    {
        match self.exits.take_into(seg) {
            Some(link) => {
                self.carried.forget();
                Some(link.name())
            }
            None => None,
        }
    }

    /// Removes some exit item. Constant time.
    pub fn take_first(&mut self) -> Option<Name>
        ensures rest { self.new ≡ record self.old { value = self.new.value } }
        ensures some { IfSome result (λ n. HasDroppedExit self.old.value self.new.value n) }
        ensures none { IfNone result (self.old.value.exits ≡ []) }
        ensures kept { IfNone result (self.new ≡ self.old) }
    {
        match self.exits.take_first() {
            Some(link) => {
                self.carried.forget();
                Some(link.name())
            }
            None => None,
        }
    }

    /// Takes the segment of that number out whole, with its objects. No collection is open. Constant time in the number of objects.
    pub fn take_segment(&mut self, seg: Seg) -> Option<Segment>
        requires idle { self.old.value.collection ≡ Idle }
        ensures some { IfSome result (λ segment. HasGivenSegment self.old self.new seg.0 segment) }
        ensures none { IfNone result (slice_index_or self.old.value.made seg.0 None ≡ None) }
        ensures kept { IfNone result (self.new ≡ self.old) }
    {
        let segment = self.area.take(seg)?;
        self.bytes -= segment.bytes();
        self.carried.whole = false;
        Some(segment)
    }

    /// Takes a segment in whole, with its objects. No collection is open. Constant time in the number of objects, and no memory.
    pub fn add_segment(&mut self, segment: Segment)
        requires idle { self.old.value.collection ≡ Idle }
        requires number { segment.number < self.old.bound }
        requires new { slice_index_or self.old.value.made segment.number None ≡ None }
        requires room { self.old.bound ≤ self.old.segment_room }
        requires bytes { total object_bytes self.old.value.objects + segment_bytes segment < 2 ^ 64 }
        ensures added { self.new ≡ with_segment_added segment self.old }
        ensures there { slice_index_or self.new.value.made segment.number None ≡ Some (made segment) }
    {
        self.bytes += segment.bytes();
        self.carried.whole = false;
        self.area.add(segment);
    }
}
