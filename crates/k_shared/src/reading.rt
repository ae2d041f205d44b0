//! What the cell of a shared heap tells.
ghost use Rattle.std.specs.Prelude.{◌≡◌, ◌↔◌, IsTrue, ◌<◌, ◌≤◌, ◌==◌, Some, length, slice_get};
ghost use Rattle.std.specs.List.{list_any};
ghost use Rattle.k_types.specs.Names.{name_among, name_of};
ghost use Rattle.k_types.specs.Owners.{object_bytes};
ghost use Rattle.k_types.specs.State.{has};
ghost use Rattle.k_types.specs.Totals.{total};
ghost use Rattle.k_types.specs.Distinct.{AreDistinctNames};
ghost use Rattle.k_cell.specs.k_space.Objects.{content_of};
ghost use Rattle.k_cell.specs.Holdings.{HasObjectRoom};
ghost use Rattle.k_cell.specs.Looks.{field_among, field_count_among, type_among};
ghost use Rattle.k_shared.specs.SharedHeaps.{holdings_of};

use crate::cell::SharedCell;
use k_cell::Stored;
use k_types::{Link, Name, Phase, Seg, SharedId, TypeId};

impl SharedCell {
    /// The shared heap. Constant time.
    pub fn id(&self) -> SharedId
        ensures { result ≡ self.now.id }
    {
        self.id
    }

    /// The segment with which the heap begins. Constant time.
    pub fn seg(&self) -> Seg
        ensures { result ≡ self.now.seg }
    {
        self.seg
    }

    /// The phase of the heap. Constant time.
    pub fn phase(&self) -> Phase
        ensures { self.now.value.phase ≡ Some result }
    {
        self.phase
    }

    /// The bytes of the heap's objects. Constant time.
    pub fn bytes(&self) -> u64
        ensures { result ≡ total object_bytes self.now.value.objects }
    {
        self.holdings.bytes()
    }

    /// Whether the object is one of the heap's. Constant time.
    pub fn has(&self, at: Name) -> bool
        ensures { result ≡ has self.now.value.objects at }
    {
        self.holdings.has(at)
    }

    /// The number of the object's fields; 0 where there is no such object. Constant time.
    pub fn field_count(&self, at: Link) -> u32
        ensures { result ≡ field_count_among self.now.value.objects (name_of at) }
    {
        self.holdings.field_count(at)
    }

    /// What the field of the object holds; the number 0 where there is no such field. Constant time.
    pub fn field(&self, at: Link, field: u32) -> Stored
        ensures { content_of result ≡ field_among self.now.value.objects (name_of at) field }
    {
        self.holdings.field(at, field)
    }

    /// The object's type; none where there is no such object. Constant time.
    pub fn type_of(&self, at: Name) -> Option<TypeId>
        ensures { result ≡ type_among self.now.value.objects at }
    {
        self.holdings.type_of(at)
    }

    /// Whether there is an exit item to that object. Constant time where the hash spreads the names.
    pub fn has_exit(&self, target: Name) -> bool
        ensures { result ≡ name_among target self.now.value.exits }
    {
        self.holdings.has_exit(target)
    }

    /// The number of exit items, of which no two have one target. Constant time.
    pub fn exit_count(&self) -> u32
        ensures len { result ≡ length self.now.value.exits }
        ensures distinct { AreDistinctNames self.now.value.exits }
        ensures room { length self.now.value.exits ≤ self.now.exit_room }
    {
        self.holdings.exit_count()
    }

    /// Whether the segment with which the heap begins has room for one more object. Constant time.
    pub fn has_object_room(&self) -> bool
        ensures { IsTrue result ↔ HasObjectRoom (holdings_of self.now) self.now.seg.0 }
    {
        self.holdings.has_object_room(self.seg)
    }

    /// The target of the exit item at that place, from 0. Constant time.
    pub fn exit_at(&self, i: u32) -> Name
        requires { i < length self.now.value.exits }
        ensures { slice_get self.now.value.exits i ≡ Some result }
    {
        self.holdings.exit_at(i)
    }

    /// Whether some exit item leads into that segment. It passes each item until it finds one.
    pub fn leads_into(&self, seg: Seg) -> bool
        ensures { result ≡ list_any (λ n. n.seg.0 == seg.0) self.now.value.exits }
    {
        self.holdings.leads_into(seg)
    }
}
