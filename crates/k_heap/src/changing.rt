//! What the cell of a process changes of its heap.
ghost use Rattle.std.specs.Prelude.{◌≡◌, ◌<◌, ◌≤◌, ◌+◌, ◌^◌, ◌==◌, ◌⊎◌, not, [], IfNone, IfSome, IsFalse, IsTrue, None, length, option_map, slice_index_or};
ghost use Rattle.std.specs.List.{list_any};
ghost use Rattle.k_types.specs.Names.{name_among, name_of};
ghost use Rattle.k_types.specs.Owners.{object_bytes};
ghost use Rattle.k_types.specs.Replies.{is_ref};
ghost use Rattle.k_types.specs.State.{Refers, field_kind};
ghost use Rattle.k_types.specs.Totals.{total};
ghost use Rattle.k_types.specs.declared.names.CellPhase.TheVariants.{Begun, Idle, Marked};
ghost use Rattle.k_types.specs.declared.names.Name.{Name as Named};
ghost use Rattle.k_cell.specs.Marking.{begun};
ghost use Rattle.k_cell.specs.Ending.{freed_bytes, freed_objects};
ghost use Rattle.k_cell.specs.Looks.{field_among, found_among};
ghost use Rattle.k_cell.specs.Changes.{HasDroppedExit, HasGrayed, HasItsExits, HasMarked, HasRoot, next_in, with_black_alone, with_body, with_exit_item, with_field, with_put, with_stored, freed_at};
ghost use Rattle.k_cell.specs.Listening.{AreTold};
ghost use Rattle.k_cell.specs.Holdings.{HasGivenSegment, HasObjectRoom};
ghost use Rattle.k_heap.specs.Heaps.{holdings_of, own_segment};

use crate::heap::HeapCell;
use k_cell::{Body, Listener, Segment, Swept};
use k_types::{Field, Link, Name, Seg};

impl HeapCell {
    /// Puts an object into the process's heap, and gives its name. No collection is open. Constant time, and no memory.
    pub fn place(&mut self, body: Body) -> Link
        requires idle { self.old.value.collection ≡ Idle }
        requires left { HasObjectRoom (holdings_of self.old) (own_segment self.old.pid) }
        requires bytes { total object_bytes self.old.value.objects + 144 < 2 ^ 64 }
        ensures name { name_of result ≡ next_in (own_segment self.old.pid) self.old.value }
        ensures placed { self.new ≡ record self.old { value = with_body (own_segment self.old.pid) body self.old.value } }
    {
        let seg = Seg(self.pid.0 + 1);
        self.holdings.place(seg, body)
    }

    /// Writes a reference, or null, into the field of the object. It asks no write barrier, and adds no exit item: both are the
    /// caller's. Constant time, and no memory.
    pub fn write_ref(&mut self, at: Link, field: u32, value: Option<Link>)
        requires idle { self.old.value.collection ≡ Idle }
        requires kind { IsTrue (is_ref (field_among self.old.value.objects (name_of at) field)) }
        ensures { self.new ≡ record self.old { value = with_field (name_of at) field (Refers (option_map name_of value)) self.old.value } }
    {
        self.holdings.write_ref(at, field, value);
    }

    /// Stores a reference, or null, where the object has the field and that is a reference, and answers the field's kind; none where there is no
    /// such field. It asks no write barrier, and adds no exit item: both are the caller's. Constant time, and no memory.
    pub fn store(&mut self, at: Link, field: u32, value: Option<Link>) -> Option<Field>
        requires idle { self.old.value.collection ≡ Idle }
        ensures kind { result ≡ option_map field_kind (found_among self.old.value.objects (name_of at) field) }
        ensures stored { self.new ≡ record self.old { value = with_stored (name_of at) field (option_map name_of value) self.old.value } }
    {
        self.holdings.store(at, field, value)
    }

    /// Puts a number where the object has the field and that is an integer, and answers the field's kind; none where there is no such field.
    /// Constant time, and no memory.
    pub fn put(&mut self, at: Link, field: u32, value: u64) -> Option<Field>
        requires idle { self.old.value.collection ≡ Idle }
        ensures kind { result ≡ option_map field_kind (found_among self.old.value.objects (name_of at) field) }
        ensures put { self.new ≡ record self.old { value = with_put (name_of at) field value self.old.value } }
    {
        self.holdings.put(at, field, value)
    }

    /// Adds the exit item where it is new, and tells whether it was. Constant time where the hash spreads the names, and no
    /// memory.
    pub fn add_exit(&mut self, target: Link) -> bool
        requires idle { self.old.value.collection ≡ Idle }
        requires room { IsTrue (name_among (name_of target) self.old.value.exits) ⊎ (length self.old.value.exits < self.old.exit_room) }
        ensures value { result ≡ not (name_among (name_of target) self.old.value.exits) }
        ensures added { self.new ≡ record self.old { value = with_exit_item (name_of target) self.old.value } }
    {
        self.holdings.add_exit(target)
    }

    /// Begins a collection with no object gray. It passes the exit items, and no objects.
    pub fn begin(&mut self)
        ensures { self.new ≡ record self.old { value = begun [] self.old.value } }
    {
        self.holdings.begin();
    }

    /// Makes an object of the heap gray; any other name changes nothing. Constant time.
    pub fn root(&mut self, target: Link)
        requires { self.old.value.collection ≡ Begun }
        ensures rest { self.new ≡ record self.old { value = self.new.value } }
        ensures root { HasRoot self.old.value self.new.value (name_of target) }
    {
        self.holdings.root(target);
    }

    /// Takes the roots that are noted out of the cell, to which others can be added at the end without memory, as far as the
    /// row has room. Until they are put back they are gray no longer. Constant time.
    pub fn take_roots(&mut self) -> Vec<Name>
        requires { self.old.value.collection ≡ Begun }
        ensures rest { self.new ≡ record self.old { value = self.new.value } }
        ensures begun { self.new.value ≡ begun self.new.value.gray self.old.value }
        ensures roots { HasGrayed (λ n. name_among n result.items) self.new.value self.old.value }
    {
        self.holdings.take_roots()
    }

    /// Makes those of these objects gray that are the heap's; other names change nothing. It is constant time where no root was
    /// noted since the last ones were taken.
    pub fn put_roots(&mut self, roots: Vec<Name>)
        requires { self.old.value.collection ≡ Begun }
        ensures rest { self.new ≡ record self.old { value = self.new.value } }
        ensures roots { HasGrayed (λ n. name_among n roots.items) self.old.value self.new.value }
    {
        self.holdings.put_roots(roots);
    }

    /// Marks what the gray objects reach inside the heap, and the exit items to which that refers. The cost is in proportion to
    /// the marked objects and their fields.
    pub fn mark(&mut self)
        requires begun { self.old.value.collection ≡ Begun }
        requires exits { HasItsExits self.old.value }
        ensures rest { self.new ≡ record self.old { value = self.new.value } }
        ensures marked { HasMarked self.old.value self.new.value }
    {
        self.holdings.mark();
    }

    /// Frees the objects that are not black, and adds their number and bytes. It passes the objects that were live.
    pub fn sweep(&mut self, into: &mut Swept)
        requires marked { self.old.value.collection ≡ Marked }
        requires objects { into.old.objects + freed_objects self.old.value < 2 ^ 32 }
        requires bytes { into.old.bytes + freed_bytes self.old.value < 2 ^ 64 }
        ensures swept { self.new ≡ record self.old { value = with_black_alone self.old.value } }
        ensures objects { into.new.objects ≡ into.old.objects + freed_objects self.old.value }
        ensures bytes { into.new.bytes ≡ into.old.bytes + freed_bytes self.old.value }
    {
        self.holdings.sweep(into);
    }

    /// The same, and the name of each object that goes is told, in any order.
    pub fn sweep_telling<L: Listener>(&mut self, into: &mut Swept, listener: &mut L)
        requires marked { self.old.value.collection ≡ Marked }
        requires objects { into.old.objects + freed_objects self.old.value < 2 ^ 32 }
        requires bytes { into.old.bytes + freed_bytes self.old.value < 2 ^ 64 }
        ensures swept { self.new ≡ record self.old { value = with_black_alone self.old.value } }
        ensures objects { into.new.objects ≡ into.old.objects + freed_objects self.old.value }
        ensures bytes { into.new.bytes ≡ into.old.bytes + freed_bytes self.old.value }
        ensures room { L.room listener.new ≡ L.room listener.old }
        ensures told { length (L.heard listener.old) + freed_objects self.old.value ≤ L.room listener.old →
            AreTold (freed_at self.old.value) (freed_objects self.old.value) (L.heard listener.old) (L.heard listener.new) }
    {
        self.holdings.sweep_telling(into, listener);
    }

    /// Ends the collection, of which no mark is left. Constant time.
    pub fn end_collection(&mut self)
        ensures { self.new ≡ record self.old { value = record self.old.value { collection = Idle; gray = []; black = []; black_exits = [] } } }
    {
        self.holdings.end_collection();
    }

    /// Removes an exit item that is not black. Calls until there is none pass each item once.
    pub fn take_unmarked(&mut self) -> Option<Name>
        requires { self.old.value.collection ≡ Marked }
        ensures rest { self.new ≡ record self.old { value = self.new.value } }
        ensures some { IfSome result (λ n. HasDroppedExit self.old.value self.new.value n × IsFalse (name_among n self.old.value.black_exits)) }
        ensures none { IfNone result ((n : Named) → IsTrue (name_among n self.old.value.exits) → IsTrue (name_among n self.old.value.black_exits)) }
        ensures kept { IfNone result (self.new ≡ self.old) }
    {
        self.holdings.take_unmarked()
    }

    /// Removes an exit item that leads into that segment. Calls for one segment until there is none pass each item once.
    pub fn take_into(&mut self, seg: Seg) -> Option<Name>
        ensures rest { self.new ≡ record self.old { value = self.new.value } }
        ensures some { IfSome result (λ n. HasDroppedExit self.old.value self.new.value n × (n.seg.0 ≡ seg.0)) }
        ensures none { IfNone result (IsFalse (list_any (λ n. n.seg.0 == seg.0) self.old.value.exits)) }
        ensures kept { IfNone result (self.new ≡ self.old) }
    {
        self.holdings.take_into(seg)
    }

    /// Removes some exit item. Constant time.
    pub fn take_first(&mut self) -> Option<Name>
        ensures rest { self.new ≡ record self.old { value = self.new.value } }
        ensures some { IfSome result (λ n. HasDroppedExit self.old.value self.new.value n) }
        ensures none { IfNone result (self.old.value.exits ≡ []) }
        ensures kept { IfNone result (self.new ≡ self.old) }
    {
        self.holdings.take_first()
    }

    /// Takes the segment of that number out whole, with its objects. No collection is open. Constant time in the number of objects.
    pub fn take_segment(&mut self, seg: Seg) -> Option<Segment>
        requires idle { self.old.value.collection ≡ Idle }
        ensures rest { self.new ≡ record self.old { value = record self.old.value { objects = self.new.value.objects; made = self.new.value.made }; serial_rooms = self.new.serial_rooms } }
        ensures some { IfSome result (λ segment. HasGivenSegment (holdings_of self.old) (holdings_of self.new) seg.0 segment) }
        ensures none { IfNone result (slice_index_or self.old.value.made seg.0 None ≡ None) }
        ensures kept { IfNone result (self.new ≡ self.old) }
    {
        self.holdings.take_segment(seg)
    }
}
