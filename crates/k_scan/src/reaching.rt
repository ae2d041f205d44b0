//! What roots reach inside a heap.
ghost use Rattle.std.specs.Prelude.{◌≡◌, IfOk, OnOk, Some};
ghost use Rattle.k_scan.specs.Marks.{AreMarks, HasLooked, lengths, sizes_of};
ghost use Rattle.k_types.specs.Names.{name_among, name_eq};
ghost use Rattle.k_types.specs.Owners.{objects_of, owner_of};
ghost use Rattle.k_types.specs.Reach.{reach_in};
ghost use Rattle.k_types.specs.State.{has, refers};

use crate::marking::Marks;
use crate::waiting::Waiting;
use k_state::{FieldValue, PlainLists, PlainObject, is_same_heap};
use k_types::{Heap, Name, NoMemory};
use std::alloc::Global;

// Marks the object of that name and puts it on the list of work, where it is the heap's and is not marked yet.
fn visit(
    lists: &PlainLists,
    heap: Heap,
    marks: &mut Marks,
    work: &mut Vec<Waiting>,
    name: Name,
) -> Result<(), NoMemory>
    requires { lengths marks.old ≡ sizes_of lists.now.setup lists.now.state (Some heap) }
    ensures { OnOk result (HasLooked lists.now.state.objects (objects_of (owner_of lists.now.setup lists.now.state) heap lists.now.state.objects)
        (λ n. name_eq name n) marks.old marks.new work.old.items work.new.items) }
{
    if !is_same_heap(lists.owner(name.seg), heap) {
        return Ok(());
    }
    let Some(at) = marks.mark(lists, name) else {
        return Ok(());
    };
    work.push(Waiting::at(name, at))?;
    Ok(())
}

// Visits each object to which a field of the object refers.
fn follow(
    lists: &PlainLists,
    heap: Heap,
    marks: &mut Marks,
    work: &mut Vec<Waiting>,
    object: &PlainObject,
) -> Result<(), NoMemory>
    requires { lengths marks.old ≡ sizes_of lists.now.setup lists.now.state (Some heap) }
    ensures { OnOk result (HasLooked lists.now.state.objects (objects_of (owner_of lists.now.setup lists.now.state) heap lists.now.state.objects)
        (refers object.now) marks.old marks.new work.old.items work.new.items) }
{
    for value in object.fields() {
        if let FieldValue::Reference(Some(target)) = *value {
            visit(lists, heap, marks, work, target)?;
        }
    }
    Ok(())
}

// Visits each root.
fn begin(
    lists: &PlainLists,
    heap: Heap,
    marks: &mut Marks,
    work: &mut Vec<Waiting>,
    roots: &[Name],
) -> Result<(), NoMemory>
    requires { lengths marks.old ≡ sizes_of lists.now.setup lists.now.state (Some heap) }
    ensures { OnOk result (HasLooked lists.now.state.objects (objects_of (owner_of lists.now.setup lists.now.state) heap lists.now.state.objects)
        (λ n. name_among n roots.now) marks.old marks.new work.old.items work.new.items) }
{
    for root in roots {
        visit(lists, heap, marks, work, *root)?;
    }
    Ok(())
}

// Marks those of the heap's objects that the roots reach by references inside the heap.
//
// It looks once at each reached object and its fields, and finds by halving each object to which one refers. `NoMemory` comes where the marks
// or the list of work find no memory.
pub(crate) fn reached(
    alloc: Global,
    lists: &PlainLists,
    heap: Heap,
    roots: &[Name],
) -> Result<Marks, NoMemory>
    ensures { IfOk result (λ marks. AreMarks lists.now.setup lists.now.state (Some heap) marks (has (reach_in lists.now.setup lists.now.state heap roots.now))) }
{
    // The shape of the lists: the objects stand in order.
    let _setup = lists.setup();
    let mut marks = Marks::none(alloc, lists, Some(heap))?;
    let mut work = Vec::new(alloc);
    begin(lists, heap, &mut marks, &mut work, roots)?;
    while let Some(waiting) = work.pop() {
        if let Some(object) = waiting.object_in(lists) {
            follow(lists, heap, &mut marks, &mut work, object)?;
        }
    }
    Ok(marks)
}
