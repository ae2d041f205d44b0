//! The objects, each in the list of its segment, with the bytes of each segment.
ghost use Rattle.std.specs.Prelude.{◌≡◌, ◌≢◌, ◌<◌, ◌≤◌, ◌+◌, ◌==◌, ◌||◌, ◌∷◌, ◌++◌, [], ◌^◌, ℕ, not, Bool, List, filter, length, map, option_copied, replicate, slice_index_or, slice_set, IfNone, IfOk, IfSome, IsFalse, IsTrue, OnErr, OnOk};
ghost use Rattle.std.specs.List.{AllByRecursion};
ghost use Rattle.k_state.specs.Contents.{content};
ghost use Rattle.k_state.specs.Machines.{AreTotals};
ghost use Rattle.k_state.specs.Marks.{marked};
ghost use Rattle.k_state.specs.Places.{IsNamedAt};
ghost use Rattle.k_state.specs.Segments.{AreOf, joined, objects_in};
ghost use Rattle.k_types.specs.Names.{name_lt};
ghost use Rattle.k_types.specs.Owners.{object_bytes};
ghost use Rattle.k_types.specs.Sound.{IsOrdered};
ghost use Rattle.k_types.specs.State.{Object, has, object_at};
ghost use Rattle.k_types.specs.Totals.{total};
ghost use Rattle.k_types.specs.Updates.{object_after_write, with_object};
ghost use Rattle.k_types.specs.declared.names.Name.{Name};

use crate::keeping::{bytes_of, keep_marked, recount};
use crate::objects::{FieldValue, PlainObject};
use crate::ordered::{find, index_of};
use k_types::{Name, NoMemory, Seg, push};
use std::alloc::Global;
use std::marker::Model;

// The objects of a segment, in the order of their serials.
#[derive(Drop)]
struct Segment {
    objects: Vec<PlainObject>,
}

impl Model for Segment {
    ghost use Rattle.std.specs.Prelude.{List};
    ghost use Rattle.k_types.specs.State.{Object};

    ghost Value = { List Object };

    ghost view = { λ s. s.objects.items };
}

impl Segment {
    // No objects.
    fn none(alloc: Global) -> Segment
        ensures { result ≡ [] }
    {
        Segment {
            objects: Vec::new(alloc),
        }
    }

    fn all(&self) -> &[PlainObject]
        ensures { result.now ≡ self.now }
    {
        &self.objects
    }

    // Puts the object at the end.
    fn push(&mut self, object: PlainObject) -> Result<(), NoMemory>
        ensures ok { OnOk result (self.new ≡ self.old ++ object ∷ []) }
        ensures err { OnErr result (self.new ≡ self.old) }
    {
        push(&mut self.objects, object)
    }

    // Writes a field of the object at that place, where it is the object of that name.
    fn write(&mut self, at: usize, name: Name, field: u32, value: FieldValue)
        requires { at < length self.old }
        ensures { (d : Object) → self.new ≡ slice_set self.old at (object_after_write name field (content value) (slice_index_or self.old at d)) }
    {
        let object = &mut self.objects[at];
        object.write(name, field as usize, value);
    }

    // The marked objects stay, the others go.
    fn keep(&mut self, stays: &[bool])
        requires { length stays.now ≡ length self.old }
        ensures { self.new ≡ marked stays.now self.old }
    {
        keep_marked(&mut self.objects, stays);
    }
}

// The objects, each in the list of its segment, and the bytes of each segment.
#[derive(Drop)]
pub(crate) struct Segments {
    lists: Vec<Segment>,
    totals: Vec<u64>,
}

impl Model for Segments {
    ghost use Rattle.std.specs.Prelude.{◌≡◌, length};
    ghost use Rattle.k_state.specs.Segments.{AreOf, Segmented, joined};

    ghost Value = { Segmented };

    ghost view = { λ s. record { objects = joined s.lists.items; totals = s.totals.items } };

    ghost invariant = { λ s. AreOf 0 s.lists.items × (length s.lists.items ≡ length s.totals.items) };
}

// So many segments without objects.
fn no_lists(alloc: Global, count: usize) -> Result<Vec<Segment>, NoMemory>
    ensures { IfOk result (λ v. v.items ≡ replicate count []) }
{
    let mut lists = Vec::new(alloc);
    for _ in 0..count {
        lists.push(Segment::none(alloc))?;
    }
    Ok(lists)
}

// The objects, which are in order, each put at the end of the list of its segment.
fn split(alloc: Global, count: usize, objects: Vec<PlainObject>) -> Result<Vec<Segment>, NoMemory>
    requires ordered { IsOrdered objects.items }
    requires known { AllByRecursion (λ o. o.name.seg.0 < count) objects.items }
    ensures of { IfOk result (λ v. AreOf 0 v.items) }
    ensures count { IfOk result (λ v. length v.items ≡ count) }
    ensures all { IfOk result (λ v. joined v.items ≡ objects.items) }
{
    let mut lists = no_lists(alloc, count)?;
    for object in objects {
        let list = &mut lists[object.name().seg.0 as usize];
        list.push(object)?;
    }
    Ok(lists)
}

impl Segments {
    // So many segments with these objects, which are in order.
    pub(crate) fn of(
        alloc: Global,
        count: usize,
        objects: Vec<PlainObject>,
    ) -> Result<Segments, NoMemory>
        requires ordered { IsOrdered objects.items }
        requires known { AllByRecursion (λ o. o.name.seg.0 < count) objects.items }
        requires few { length objects.items < 2 ^ 32 }
        ensures objects { IfOk result (λ s. s.objects ≡ objects.items) }
        ensures count { IfOk result (λ s. length s.totals ≡ count) }
        ensures totals { IfOk result (λ s. AreTotals objects.items s.totals) }
    {
        let mut totals = vec![in alloc; 0; count]?;
        recount(&objects, &mut totals);
        let lists = split(alloc, count, objects)?;
        Ok(Segments { lists, totals })
    }

    // How many segments there are.
    pub(crate) fn count(&self) -> usize
        ensures { result ≡ length self.now.totals }
    {
        self.totals.len()
    }

    // The bytes of the objects of the segment.
    pub(crate) fn bytes(&self, seg: usize) -> u64
        requires { seg < length self.now.totals }
        ensures { result ≡ slice_index_or self.now.totals seg 0 }
    {
        self.totals[seg]
    }

    // The objects of the segment, in their order.
    pub(crate) fn all_in(&self, seg: Seg) -> &[PlainObject]
        ensures { result.now ≡ objects_in self.now.objects seg.0 }
    {
        let at = seg.0 as usize;
        if at < self.lists.len() {
            self.lists[at].all()
        } else {
            &[]
        }
    }

    // The place of the object of that name in its segment, found by halving.
    pub(crate) fn index_of(&self, name: Name) -> Option<usize>
        requires { IsOrdered self.now.objects }
        ensures some { IfSome result (λ k. IsNamedAt (objects_in self.now.objects name.seg.0) k name) }
        ensures none { IfNone result (IsFalse (has self.now.objects name)) }
    {
        index_of(self.all_in(name.seg), name)
    }

    // The object of that name, found by halving in its segment.
    pub(crate) fn find(&self, name: Name) -> Option<&PlainObject>
        requires { IsOrdered self.now.objects }
        ensures { option_copied result ≡ object_at self.now.objects name }
    {
        find(self.all_in(name.seg), name)
    }

    // Puts the object at the end of its segment.
    pub(crate) fn push(&mut self, object: PlainObject) -> Result<(), NoMemory>
        requires seg { object.name.seg.0 < length self.old.totals }
        requires last { AllByRecursion (λ x. IsTrue (name_lt x.name object.name)) (objects_in self.old.objects object.name.seg.0) }
        requires room { slice_index_or self.old.totals object.name.seg.0 0 + object_bytes object < 2 ^ 64 }
        ensures objects { OnOk result (self.new.objects ≡ with_object object self.old.objects) }
        ensures totals { OnOk result (self.new.totals ≡
            slice_set self.old.totals object.name.seg.0 (slice_index_or self.old.totals object.name.seg.0 0 + object_bytes object)) }
        ensures err { OnErr result (self.new ≡ self.old) }
    {
        let at = object.name().seg.0 as usize;
        let size = object.size();
        let list = &mut self.lists[at];
        list.push(object)?;
        self.totals[at] += size;
        Ok(())
    }

    // The field of the object holds the value. Nothing changes where there is no such object or no such field.
    pub(crate) fn write(&mut self, name: Name, field: u32, value: FieldValue)
        requires { IsOrdered self.old.objects }
        ensures objects { self.new.objects ≡ map (object_after_write name field (content value)) self.old.objects }
        ensures totals { self.new.totals ≡ self.old.totals }
    {
        if let Some(at) = self.index_of(name) {
            let list = &mut self.lists[name.seg.0 as usize];
            list.write(at, name, field, value);
        }
    }

    // The marked objects of the segment stay, its others go.
    pub(crate) fn keep(&mut self, seg: Seg, stays: &[bool])
        requires seg { seg.0 < length self.old.totals }
        requires marks { length stays.now ≡ length (objects_in self.old.objects seg.0) }
        requires few { length self.old.objects < 2 ^ 32 }
        ensures own { objects_in self.new.objects seg.0 ≡ marked stays.now (objects_in self.old.objects seg.0) }
        ensures others { (k : ℕ) → k ≢ seg.0 → objects_in self.new.objects k ≡ objects_in self.old.objects k }
        ensures some { (marks : List Bool) × (self.new.objects ≡ marked marks self.old.objects) }
        ensures passing { (passes : Name → Bool) → stays.now ≡ map (λ o. passes o.name) (objects_in self.old.objects seg.0) →
            self.new.objects ≡ filter (λ o. not (o.name.seg.0 == seg.0) || passes o.name) self.old.objects }
        ensures totals { self.new.totals ≡ slice_set self.old.totals seg.0 (total object_bytes (objects_in self.new.objects seg.0)) }
    {
        let at = seg.0 as usize;
        let list = &mut self.lists[at];
        list.keep(stays);
        self.totals[at] = bytes_of(list.all());
    }
}
