//! Where a name stands among the objects in order, by halving.
ghost use Rattle.std.specs.Prelude.{◌≡◌, IfNone, IfSome, IsFalse, option_copied};
ghost use Rattle.k_state.specs.Places.{IsNamedAt, IsPlace};
ghost use Rattle.k_types.specs.Sound.{IsOrdered};
ghost use Rattle.k_types.specs.State.{has, object_at};

use crate::names::{is_before, is_same_name};
use crate::objects::PlainObject;
use k_types::Name;

// The place of an object of that name among the objects in order: how many come before it.
pub(crate) fn place_of(objects: &[PlainObject], name: Name) -> usize
    requires { IsOrdered objects.now }
    ensures { IsPlace objects.now name result }
{
    let mut low = 0;
    let mut high = objects.len();
    while low < high {
        let middle = low + (high - low) / 2;
        if is_before(objects[middle].name(), name) {
            low = middle + 1;
        } else {
            high = middle;
        }
    }
    low
}

// The index of the object of that name.
pub(crate) fn index_of(objects: &[PlainObject], name: Name) -> Option<usize>
    requires { IsOrdered objects.now }
    ensures some { IfSome result (λ k. IsNamedAt objects.now k name) }
    ensures none { IfNone result (IsFalse (has objects.now name)) }
{
    let at = place_of(objects, name);
    if at < objects.len() && is_same_name(objects[at].name(), name) {
        Some(at)
    } else {
        None
    }
}

// The object of that name.
pub(crate) fn find(objects: &[PlainObject], name: Name) -> Option<&PlainObject>
    requires { IsOrdered objects.now }
    ensures { option_copied result ≡ object_at objects.now name }
{
    match index_of(objects, name) {
        Some(at) => Some(&objects[at]),
        None => None,
    }
}
