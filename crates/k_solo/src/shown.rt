//! What a view asks of the lists, beside what the operations ask.
ghost use Rattle.std.specs.Prelude.{◌≡◌, find, option_map};
ghost use Rattle.k_types.specs.State.{Object};
ghost use Rattle.k_solo.specs.Places.{IsPlaceAfter, is_from};
ghost use Rattle.k_text.specs.Shown.{next_name_after, type_at};
ghost use Rattle.k_types.specs.Sound.{IsOrdered};

use k_state::{PlainLists, PlainObject, is_before};
use k_types::{Name, Seg, TypeId};

// How many of the objects in order do not come after the name, found by halving.
fn place_after(objects: &[PlainObject], name: Name) -> usize
    requires { IsOrdered objects.now }
    ensures { IsPlaceAfter objects.now name result }
{
    let mut low = 0;
    let mut high = objects.len();
    while low < high {
        let middle = low + (high - low) / 2;
        if is_before(name, objects[middle].name()) {
            high = middle;
        } else {
            low = middle + 1;
        }
    }
    low
}

// The first object of the segments from that one on.
fn first_from(lists: &PlainLists, seg: u32) -> Option<Name>
    ensures { result ≡ option_map (λ (o : Object). o.name) (find (is_from seg) lists.now.state.objects) }
{
    let _shape = lists.setup();
    for s in seg..lists.segment_count() {
        if let Some(object) = lists.objects_in(Seg(s)).first() {
            return Some(object.name());
        }
    }
    None
}

// The next object by segment and serial, or the first of all, found by halving in its segment, or as the first of those after it.
pub(crate) fn next_object(lists: &PlainLists, after: Option<Name>) -> Option<Name>
    ensures { result ≡ next_name_after after lists.now.state.objects }
{
    let _shape = lists.setup();
    let Some(name) = after else {
        return first_from(lists, 0);
    };
    if name.seg.0 >= lists.segment_count() {
        return None;
    }
    let objects = lists.objects_in(name.seg);
    match objects.get(place_after(objects, name)) {
        Some(object) => Some(object.name()),
        None => first_from(lists, name.seg.0 + 1),
    }
}

// The type of the object; none for the directory.
pub(crate) fn object_type(lists: &PlainLists, name: Name) -> Option<TypeId>
    ensures { result ≡ type_at lists.now.state.objects name }
{
    match lists.object(name) {
        Some(object) => object.ty(),
        None => None,
    }
}
