//! How much a heap owns.
ghost use Rattle.std.specs.Prelude.{◌≡◌, ◌<◌, ◌≤◌, ◌*◌, ◌^◌, length};
ghost use Rattle.k_types.specs.Totals.{total};
ghost use Rattle.k_plain.specs.Owned.{is_reference, objects_owned, references_in};
ghost use Rattle.k_scan.specs.k_state.Contents.{content};

use k_scan::{FieldValue, PlainLists, PlainObject, is_same_heap};
use k_types::{Heap, Seg};

// Whether the field is a reference.
fn is_reference(value: FieldValue) -> bool
    ensures { result ≡ is_reference (content value) }
{
    match value {
        FieldValue::Reference(_) => true,
        FieldValue::Integer(_) => false,
    }
}

// How many of the object's fields are references.
fn references_in(object: &PlainObject) -> u32
    ensures exact { result ≡ references_in object.now }
    ensures few { result ≤ 16 }
{
    let mut count = 0;
    for i in 0..object.count() {
        if is_reference(object.field(i)) {
            count += 1;
        }
    }
    count
}

// How many objects the heap owns.
pub(crate) fn objects_of(lists: &PlainLists, heap: Heap) -> u32
    ensures { result ≡ length (objects_owned lists.now.setup lists.now.state heap) }
{
    let _shape = lists.setup();
    let mut count = 0;
    for s in 0..lists.segment_count() {
        let seg = Seg(s);
        if is_same_heap(lists.owner(seg), heap) {
            count += lists.objects_in(seg).len() as u32;
        }
    }
    count
}

// How many reference fields these objects have.
fn references_of(objects: &[PlainObject]) -> u64
    requires { length objects.now < 2 ^ 32 }
    ensures exact { result ≡ total references_in objects.now }
    ensures few { result ≤ 16 * length objects.now }
{
    let mut count = 0;
    for object in objects {
        count += u64::from(references_in(object));
    }
    count
}

// How many reference fields the objects of the heap have.
pub(crate) fn refs_of(lists: &PlainLists, heap: Heap) -> u64
    ensures { result ≡ total references_in (objects_owned lists.now.setup lists.now.state heap) }
{
    let _shape = lists.setup();
    let mut count = 0;
    for s in 0..lists.segment_count() {
        let seg = Seg(s);
        if is_same_heap(lists.owner(seg), heap) {
            count += references_of(lists.objects_in(seg));
        }
    }
    count
}
