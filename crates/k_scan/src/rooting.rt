//! What a collection of a heap begins with.
ghost use Rattle.std.specs.Prelude.{◌≡◌, ◌++◌, IfOk, OnOk, length, map};
ghost use Rattle.k_state.specs.Marks.{marked};
ghost use Rattle.k_types.specs.Reach.{roots_of};
ghost use Rattle.k_types.specs.State.{Object};

use crate::holding::mark_roots;
use k_state::{PlainLists, PlainObject, is_same_heap};
use k_types::{Heap, Name, NoMemory, Seg};
use std::alloc::Global;

// Adds the names of the marked objects. There is a mark for each object, in their order.
fn push_marked(
    names: &mut Vec<Name>,
    objects: &[PlainObject],
    marks: &[bool],
) -> Result<(), NoMemory>
    requires { length marks.now ≡ length objects.now }
    ensures { OnOk result (names.new.items ≡ names.old.items ++ map (λ (o : Object). o.name) (marked marks.now objects.now)) }
{
    for (at, object) in objects.iter().enumerate() {
        if marks[at] {
            names.push(object.name())?;
        }
    }
    Ok(())
}

/// The roots with which a collection of the heap begins, in the order of the objects: its objects to which another heap has
/// an exit item, that a register of another process or of its own holds, and the directory.
///
/// It walks once over the objects of the heap, the exit items and all registers, and finds by halving each object of the heap to
/// which one of these leads. `NoMemory` comes where the marks or the list of roots find no memory.
pub fn roots(alloc: Global, lists: &PlainLists, heap: Heap) -> Result<Vec<Name>, NoMemory>
    ensures { IfOk result (λ names. names.items ≡ roots_of lists.now.setup lists.now.state heap) }
{
    let _shape = lists.setup();
    let marks = mark_roots(alloc, lists, heap)?;
    let mut names = Vec::new(alloc);
    for s in 0..lists.segment_count() {
        let seg = Seg(s);
        if is_same_heap(lists.owner(seg), heap) {
            push_marked(&mut names, lists.objects_in(seg), marks.of(seg))?;
        }
    }
    Ok(names)
}
