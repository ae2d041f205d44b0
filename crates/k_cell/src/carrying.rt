//! What a cell knows of its last collection, so that the next one need not look again at what is as it was.
ghost use Rattle.std.specs.Prelude.{◌≡◌, IsFalse, IsTrue, Some, false, true};
ghost use Rattle.k_mark.specs.k_types.Names.{name_among};
ghost use Rattle.k_mark.specs.k_types.declared.names.Name.{Name as Named};
ghost use Rattle.k_mark.specs.k_space.Areas.{HasDistinct, gray_at};
ghost use Rattle.k_mark.specs.k_space.Bounds.{is_covered};
ghost use Rattle.k_cell.specs.Carried.{known_bound};
ghost use Rattle.k_mark.specs.Kept.{IsKept, old_at};
ghost use Rattle.k_mark.specs.Marking.{refers_at};

use crate::looking::lives_at;
use k_mark::{Area, Bound, Name};

/// What the last collection kept, and from which roots it is reached.
#[derive(Drop)]
pub(crate) struct Carried {
    // Whether that is known, and no kept object was written since.
    pub(crate) whole: bool,
    // Whether it is known but for the exit items, of which the collection still drops some.
    pub(crate) swept: bool,
    // It covers the kept objects, and no newer ones.
    pub(crate) bound: Bound,
    // The kept objects refer to this many exit items, which are the first ones.
    pub(crate) first: u32,
    pub(crate) roots: Vec<Name>,
    // Once marking is done, whether these are all roots of the collection that is open.
    pub(crate) noted: bool,
    pub(crate) next: Bound,
    pub(crate) pending: Vec<Name>,
}

impl Carried {
    /// Notes that each of so many exit items that are left is one to which a kept object refers.
    pub(crate) fn settle(&mut self, left: u32)
        ensures swept { IsTrue self.old.swept → self.new ≡ record self.old { whole = true; first = left } }
        ensures other { IsFalse self.old.swept → self.new ≡ self.old }
    {
        if self.swept {
            self.whole = true;
            self.first = left;
        }
    }

    /// Forgets what is known, after an exit item went that may be one of these.
    pub(crate) fn forget(&mut self)
        ensures { self.new ≡ record self.old { whole = false; swept = false; noted = false } }
    {
        self.whole = false;
        self.swept = false;
        self.noted = false;
    }
}

/// Whether what was kept is still as it was, after a change of that object.
pub(crate) fn still_whole(whole: bool, bound: Bound, at: Name) -> bool
    ensures { IsTrue result → IsTrue whole × IsFalse (is_covered bound at) }
{
    whole && !bound.covers(at)
}

/// Whether the root is gray, if it is an object that the bound covers.
fn is_gray_still(area: &Area, root: Name, bound: Bound) -> bool
    requires { HasDistinct area.now.segments }
    ensures { IsTrue result → IsTrue (old_at area.now bound root) → IsTrue (gray_at area.now root) }
{
    if !bound.covers(root) {
        return true;
    }
    area.is_gray(root) || !lives_at(area, root)
}

/// Whether each of the roots is.
fn are_gray(area: &Area, roots: &[Name], bound: Bound) -> bool
    requires { HasDistinct area.now.segments }
    ensures { IsTrue result → (n : Named) → IsTrue (name_among n roots.now) → IsTrue (old_at area.now bound n) → IsTrue (gray_at area.now n) }
{
    for root in roots {
        if !is_gray_still(area, *root, bound) {
            return false;
        }
    }
    true
}

/// Whether what was kept is reached still from the gray objects.
pub(crate) fn is_reached_still(area: &Area, whole: bool, bound: Bound, roots: &[Name]) -> bool
    requires distinct { HasDistinct area.now.segments }
    requires kept { IsTrue whole → IsKept (old_at area.now bound) (refers_at area.now) (λ n. name_among n roots.now) bound }
    ensures whole { IsTrue result → IsTrue whole }
    ensures kept { IsTrue result → IsKept (old_at area.now bound) (refers_at area.now) (gray_at area.now) bound }
{
    whole && are_gray(area, roots, bound)
}

/// The bound that covers what was kept, or nothing where that is not known to be reached.
pub(crate) fn known_bound(known: bool, bound: Bound) -> Bound
    ensures { result ≡ known_bound known bound }
{
    if known {
        bound
    } else {
        Bound::nothing(bound.own)
    }
}

/// How many exit items, the first ones, are those to which objects refer that such a bound covers.
pub(crate) fn known_first(known: bool, first: u32) -> u32
    ensures yes { IsTrue known → result ≡ first }
    ensures no { IsFalse known → result ≡ 0 }
{
    if known { first } else { 0 }
}

/// Whether the roots that are noted are those from which marking found that, and the bound that it told.
pub(crate) fn marked_below(noted: bool, kept: Option<Bound>, otherwise: Bound) -> (bool, Bound)
    ensures { IsTrue result.0 → IsTrue noted × (kept ≡ Some result.1) }
{
    match kept {
        Some(next) => (noted, next),
        None => (false, otherwise),
    }
}
