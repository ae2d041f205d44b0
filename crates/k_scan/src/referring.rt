//! To which targets of its exit items the reached objects of a heap refer.
ghost use Rattle.std.specs.Prelude.{◌≡◌, ◌<◌, IfOk, IsTrue, Some, false, length, replicate, slice_index_or, slice_set, true};
ghost use Rattle.std.specs.List.{list_any};
ghost use Rattle.k_scan.specs.Marks.{AreMarks, is_reached};
ghost use Rattle.k_scan.specs.Notes.{AreNoted, HasNoted};
ghost use Rattle.k_state.specs.Contents.{content};
ghost use Rattle.k_state.specs.Marks.{marked};
ghost use Rattle.k_types.specs.Effects.{open_roots};
ghost use Rattle.k_types.specs.Names.{leads_to, name_eq};
ghost use Rattle.k_types.specs.Reach.{reach_in};
ghost use Rattle.k_types.specs.State.{Object, content_leads_to, has_exit, refers};
ghost use Rattle.k_types.specs.declared.names.Name.{Name as Named};

use crate::marking::Marks;
use k_state::{FieldValue, PlainLists, PlainObject, is_same_heap};
use k_types::{Heap, Name, NoMemory, Seg};
use std::alloc::Global;
use std::marker::Model;

// A mark for each exit item, in their order: of those of a heap to one target the last is marked for all.
#[derive(Drop)]
pub(crate) struct Noted {
    marks: Vec<bool>,
}

impl Model for Noted {
    ghost use Rattle.std.specs.Prelude.{Bool, List};

    ghost Value = { List Bool };

    ghost view = { λ n. n.marks.items };
}

impl Noted {
    // So many marks, of which none is set.
    fn none(alloc: Global, count: usize) -> Result<Noted, NoMemory>
        ensures { IfOk result (λ noted. noted ≡ replicate count false) }
    {
        Ok(Noted {
            marks: vec![in alloc; false; count]?,
        })
    }

    fn set(&mut self, at: usize)
        requires { at < length self.old }
        ensures { self.new ≡ slice_set self.old at true }
    {
        self.marks[at] = true;
    }

    fn is_set(&self, at: usize) -> bool
        requires { at < length self.now }
        ensures { result ≡ slice_index_or self.now at false }
    {
        self.marks[at]
    }
}

// Notes a reference to the name, where the heap has an exit item to it.
fn note(lists: &PlainLists, heap: Heap, noted: &mut Noted, name: Name)
    requires { length noted.old ≡ length lists.now.state.exits }
    ensures { HasNoted lists.now.state.exits heap (λ n. name_eq name n) noted.old noted.new }
{
    if let Some(at) = lists.exit_at(heap, name) {
        noted.set(at);
    }
}

// To what the field refers.
fn target_of(value: FieldValue) -> Option<Name>
    ensures { (n : Named) → leads_to result n ≡ content_leads_to n (content value) }
{
    match value {
        FieldValue::Reference(reference) => reference,
        FieldValue::Integer(_) => None,
    }
}

// Notes what the object refers to.
fn note_references(lists: &PlainLists, heap: Heap, noted: &mut Noted, object: &PlainObject)
    requires { length noted.old ≡ length lists.now.state.exits }
    ensures { HasNoted lists.now.state.exits heap (refers object.now) noted.old noted.new }
{
    for value in object.fields() {
        if let Some(target) = target_of(*value) {
            note(lists, heap, noted, target);
        }
    }
}

// Notes what the reached ones of these objects refer to. There is a mark for each object, in their order.
fn note_referred_in(
    lists: &PlainLists,
    heap: Heap,
    noted: &mut Noted,
    objects: &[PlainObject],
    reached: &[bool],
)
    requires sizes { length noted.old ≡ length lists.now.state.exits }
    requires reached { length reached.now ≡ length objects.now }
    ensures { HasNoted lists.now.state.exits heap (λ n. list_any (λ (o : Object). refers o n) (marked reached.now objects.now)) noted.old noted.new }
{
    for (at, object) in objects.iter().enumerate() {
        if reached[at] {
            note_references(lists, heap, noted, object);
        }
    }
}

// Notes what the reached objects refer to, of what the heap's exit items lead to. Looks once at each field of theirs.
pub(crate) fn note_referred(
    alloc: Global,
    lists: &PlainLists,
    heap: Heap,
    reached: &Marks,
) -> Result<Noted, NoMemory>
    requires { AreMarks lists.now.setup lists.now.state (Some heap) reached.now (is_reached lists.now.setup lists.now.state heap) }
    ensures { IfOk result (λ noted. AreNoted lists.now.state.exits heap
        (λ n. list_any (λ (x : Object). refers x n) (reach_in lists.now.setup lists.now.state heap (open_roots lists.now.state heap))) noted) }
{
    let _shape = lists.setup();
    let mut noted = Noted::none(alloc, lists.exits().len())?;
    for s in 0..lists.segment_count() {
        let seg = Seg(s);
        if is_same_heap(lists.owner(seg), heap) {
            note_referred_in(
                lists,
                heap,
                &mut noted,
                lists.objects_in(seg),
                reached.of(seg),
            );
        }
    }
    Ok(noted)
}

// Whether a reached object refers to the target of an exit item of the heap.
pub(crate) fn is_noted(lists: &PlainLists, heap: Heap, noted: &Noted, target: Name) -> bool
    requires there { IsTrue (has_exit lists.now.state.exits heap target) }
    requires noted { AreNoted lists.now.state.exits heap
        (λ n. list_any (λ (x : Object). refers x n) (reach_in lists.now.setup lists.now.state heap (open_roots lists.now.state heap))) noted.now }
    ensures { result ≡ list_any (λ (x : Object). refers x target) (reach_in lists.now.setup lists.now.state heap (open_roots lists.now.state heap)) }
{
    match lists.exit_at(heap, target) {
        Some(at) => noted.is_set(at),
        None => false,
    }
}
