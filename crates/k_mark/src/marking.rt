//! Marking: what references reach from the gray objects is black in the end.
ghost use Rattle.std.specs.Prelude.{◌≡◌, ℕ, ◌<◌, ◌≤◌, ◌↔◌, IsTrue, IsFalse, IsSome, Some, None, List, length, is_some, ◌∷◌, [], ◌+◌, count_by};
ghost use Rattle.k_laws.specs.k_types.declared.names.Name.{Name as Named};
ghost use Rattle.k_laws.specs.k_types.State.{Content};
ghost use Rattle.k_laws.specs.k_types.Names.{name_of};
ghost use Rattle.k_space.specs.Objects.{content_of};
ghost use Rattle.k_space.specs.Areas.{HasDistinct, row_of_name, fields_at, is_foreign, marked_at, gray_at, black_at, grayed, unmarked};
ghost use Rattle.k_space.specs.Visiting.{AreHeld};
ghost use Rattle.k_exit.specs.Exits.{has_target, target_marked, targets, unmarked as unmarked_exits};
ghost use Rattle.k_mark.specs.Marking.{IsReachedIn, IsExit, Marks, looked, looked_all, fields_lead_to, refers_at, is_ref, work};

use crate::steps::Steps;
use k_exit::ExitTable;
use k_laws::Link;
use k_space::{Area, Stored, Visited};
use std::marker::Brand;
use std::sync::ledger::{Blank, Ledger};

/// Takes all marks away, from objects and exit items. It passes the segments, and each exit item once, and no
/// objects: a heap of few live objects costs as little after many that are gone.
pub fn clear(area: &mut Area, exits: &mut ExitTable)
    ensures area { area.new ≡ unmarked area.old }
    ensures exits { exits.new ≡ unmarked_exits exits.old }
{
    area.unmark_all();
    exits.unmark_all();
}

/// Makes a live object of the area gray, so that marking begins with it. A marked one stays as it is, and
/// a reference to no live object of the area changes nothing. It costs as much as [`Area::make_gray`].
pub fn root(area: &mut Area, target: Link)
    requires { HasDistinct area.old.segments }
    ensures { area.new ≡ grayed area.old (name_of target) }
{
    area.make_gray(target);
}

/// Looks at one field: an object of the area is made gray, a foreign target is marked.
fn look<L: Ledger>(area: &mut Area, exits: &mut ExitTable, steps: &mut Steps<L>, stored: Stored)
    requires distinct { HasDistinct area.old.segments }
    requires exits { (n : Named) → IsTrue (fields_lead_to (content_of stored ∷ []) n) → IsTrue (is_foreign area.old n) → IsTrue (has_target exits.old.items n) }
    ensures area { area.new ≡ (looked (record { area = area.old; exits = exits.old.items }) (content_of stored)).area }
    ensures exits { exits.new.items ≡ (looked (record { area = area.old; exits = exits.old.items }) (content_of stored)).exits }
    ensures room { exits.new.room ≡ exits.old.room }
    ensures steps { steps.new ≡ steps.old + count_by is_ref (content_of stored ∷ []) }
{
    match stored {
        Stored::Null => steps.tick(),
        Stored::Refers(target) => {
            steps.tick();
            if !area.gray_own(target.link()) {
                exits.mark(target.name);
            }
        }
        Stored::Holds(_) => {}
    }
}

/// Looks at each field of the object. The front of the list has what they hold.
pub(crate) fn trace<L: Ledger>(
    area: &mut Area,
    exits: &mut ExitTable,
    steps: &mut Steps<L>,
    found: Visited,
    held: &[Stored],
)
    requires list { found.fields ≤ length held.now }
    requires distinct { HasDistinct area.old.segments }
    requires live { IsSome (row_of_name area.old.segments found.name) }
    requires held { (fields : List Content) → fields_at area.old found.name ≡ Some fields → AreHeld fields found.fields held.now }
    requires exits { (fields : List Content) (n : Named) → fields_at area.old found.name ≡ Some fields → IsTrue (fields_lead_to fields n) → IsTrue (is_foreign area.old n) → IsTrue (has_target exits.old.items n) }
    ensures room { exits.new.room ≡ exits.old.room }
    ensures steps { (fields : List Content) → fields_at area.old found.name ≡ Some fields → steps.new ≡ steps.old + count_by is_ref fields }
    ensures looked { (fields : List Content) → fields_at area.old found.name ≡ Some fields →
        record { area = area.new; exits = exits.new.items } ≡ looked_all fields (record { area = area.old; exits = exits.old.items }) }
{
    for field in 0..found.fields {
        let stored = held[field as usize];
        look(area, exits, steps, stored);
    }
}

/// Marks what is reached from the gray objects by references inside the area, and the exit items of
/// foreign targets of marked objects. One step is one object taken from the gray ones, or one
/// reference field looked at: the cost is in proportion to the marked objects, their fields and the segments.
/// Takes no memory. Source: KaffeOS paper, on the separate collection of heaps; the marks in three colors are
/// own.
pub fn mark<L: Ledger>(area: &mut Area, exits: &mut ExitTable, steps: &mut Steps<L>)
    requires distinct { HasDistinct area.old.segments }
    requires exits { (a n : Named) → IsTrue (refers_at area.old a n) → IsTrue (is_foreign area.old n) → IsTrue (has_target exits.old.items n) }
    requires clean { (n : Named) → IsFalse (black_at area.old n) }
    requires unmarked { (n : Named) → IsFalse (target_marked exits.old.items n) }
    ensures kept { unmarked area.new ≡ unmarked area.old }
    ensures targets { targets exits.new.items ≡ targets exits.old.items }
    ensures room { exits.new.room ≡ exits.old.room }
    ensures black { (n : Named) → IsFalse (gray_at area.new n) }
    ensures reached { (n : Named) → IsTrue (marked_at area.new n) ↔ IsReachedIn area.old n }
    ensures exits { (n : Named) → IsTrue (target_marked exits.new.items n) ↔ IsExit area.old n }
    ensures steps { steps.new ≡ steps.old + work area.new }
{
    let mut held = [Stored::Null; 16];
    while let Some(found) = area.visit_gray(&mut held) {
        steps.tick();
        trace(area, exits, steps, found, &held);
    }
}

/// Marks with a counter of its own, for a caller that counts no steps.
pub fn mark_uncounted(area: &mut Area, exits: &mut ExitTable)
    requires distinct { HasDistinct area.old.segments }
    requires exits { (a n : Named) → IsTrue (refers_at area.old a n) → IsTrue (is_foreign area.old n) → IsTrue (has_target exits.old.items n) }
    requires clean { (n : Named) → IsFalse (black_at area.old n) }
    requires unmarked { (n : Named) → IsFalse (target_marked exits.old.items n) }
    ensures kept { unmarked area.new ≡ unmarked area.old }
    ensures targets { targets exits.new.items ≡ targets exits.old.items }
    ensures room { exits.new.room ≡ exits.old.room }
    ensures black { (n : Named) → IsFalse (gray_at area.new n) }
    ensures reached { (n : Named) → IsTrue (marked_at area.new n) ↔ IsReachedIn area.old n }
    ensures exits { (n : Named) → IsTrue (target_marked exits.new.items n) ↔ IsExit area.old n }
{
    mark_on::<Brand>(Blank::new(1), area, exits);
}

/// Marks with a counter on that blank.
fn mark_on<L: Ledger>(blank: Blank, area: &mut Area, exits: &mut ExitTable)
    requires name { blank.name ≡ L.name }
    requires parts { blank.parts ≡ L.parts }
    requires some { 0 < blank.parts }
    requires distinct { HasDistinct area.old.segments }
    requires exits { (a n : Named) → IsTrue (refers_at area.old a n) → IsTrue (is_foreign area.old n) → IsTrue (has_target exits.old.items n) }
    requires clean { (n : Named) → IsFalse (black_at area.old n) }
    requires unmarked { (n : Named) → IsFalse (target_marked exits.old.items n) }
    ensures kept { unmarked area.new ≡ unmarked area.old }
    ensures targets { targets exits.new.items ≡ targets exits.old.items }
    ensures room { exits.new.room ≡ exits.old.room }
    ensures black { (n : Named) → IsFalse (gray_at area.new n) }
    ensures reached { (n : Named) → IsTrue (marked_at area.new n) ↔ IsReachedIn area.old n }
    ensures exits { (n : Named) → IsTrue (target_marked exits.new.items n) ↔ IsExit area.old n }
{
    let mut steps: Steps<L> = Steps::open(blank);
    mark(area, exits, &mut steps);
}
