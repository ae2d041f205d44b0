//! Marking where an earlier collection kept objects that are still reached.
ghost use Rattle.std.specs.Prelude.{Bool, ◌≡◌, ◌<◌, ◌≤◌, ◌↔◌, IsTrue, IsFalse, IfSome, Some, List, length, take};
ghost use Rattle.k_laws.specs.k_types.Names.{name_among};
ghost use Rattle.k_laws.specs.k_types.State.{Content, content_leads_to};
ghost use Rattle.k_laws.specs.k_types.declared.names.Name.{Name as Named};
ghost use Rattle.k_space.specs.Areas.{HasDistinct, is_foreign, marked_at, gray_at, black_at, row_of_name, unmarked};
ghost use Rattle.k_space.specs.Bounds.{is_covered};
ghost use Rattle.k_space.specs.Objects.{content_of};
ghost use Rattle.k_space.specs.Segments.{Row};
ghost use Rattle.k_space.specs.Visiting.{AreHeld};
ghost use Rattle.k_exit.specs.Exits.{has_target, target_marked, targets};
ghost use Rattle.k_mark.specs.Kept.{IsBeginning, IsExitFrom, IsKept, IsLedTo, IsReachedFrom, old_at};
ghost use Rattle.k_mark.specs.Marking.{fields_lead_to, refers_at};

use crate::marking::trace;
use crate::steps::Steps;
use k_exit::ExitTable;
use k_space::{Area, Bound, Stored};
use std::marker::Brand;
use std::sync::ledger::{Blank, Ledger};

/// Whether the field refers to nothing but what the bound covers.
fn is_lower(stored: Stored, next: Bound) -> bool
    ensures { IsTrue result → (n : Named) → IsTrue (content_leads_to n (content_of stored)) → IsTrue (is_covered next n) }
{
    match stored {
        Stored::Null => true,
        Stored::Refers(target) => next.covers(target.name),
        Stored::Holds(_) => true,
    }
}

/// Whether so many fields at the front of the list refer to nothing but what the bound covers.
fn are_lower(held: &[Stored], count: u32, next: Bound) -> bool
    requires { count ≤ length held.now }
    ensures { IsTrue result → (fields : List Content) (n : Named) → AreHeld fields count held.now → IsTrue (fields_lead_to fields n) → IsTrue (is_covered next n) }
{
    for field in 0..count {
        let stored = held[field as usize];
        if !is_lower(stored, next) {
            return false;
        }
    }
    true
}

/// The bound that covers all objects, and what that one covers.
fn after(area: &Area, bound: Bound) -> Bound
    requires { HasDistinct area.now.segments }
    ensures live { (n : Named) (row : Row) → row_of_name area.now.segments n ≡ Some row → IsTrue (is_covered result n) }
    ensures before { (n : Named) → IsTrue (is_covered bound n) → IsTrue (is_covered result n) }
{
    Bound {
        own: bound.own,
        below: area.next_serial(bound.own).max(bound.below),
        others: true,
    }
}

/// Marks as [`crate::mark_uncounted`] does, from the gray objects and from those that the bound covers: these become black, and
/// none of them is traced. So a root among them need not be gray. Outside the area they refer to the first so many exit items, and
/// to no other. The answer is a bound that covers all objects that are marked, and those to which they refer; none where a reference
/// leads to an object that was not made yet.
pub fn mark_kept(area: &mut Area, exits: &mut ExitTable, bound: Bound, first: u32) -> Option<Bound>
    requires distinct { HasDistinct area.old.segments }
    requires exits { (a n : Named) → IsTrue (refers_at area.old a n) → IsTrue (is_foreign area.old n) → IsTrue (has_target exits.old.items n) }
    requires clean { (n : Named) → IsFalse (black_at area.old n) }
    requires unmarked { (n : Named) → IsFalse (target_marked exits.old.items n) }
    requires first { first ≤ length exits.old.items }
    requires led { (n : Named) → IsTrue (name_among n (take first (targets exits.old.items))) ↔ IsLedTo area.old (old_at area.old bound) n }
    ensures kept { unmarked area.new ≡ unmarked area.old }
    ensures targets { targets exits.new.items ≡ targets exits.old.items }
    ensures room { exits.new.room ≡ exits.old.room }
    ensures black { (n : Named) → IsFalse (gray_at area.new n) }
    ensures reached { (start : Named → Bool) → IsBeginning area.old bound start → (n : Named) → IsTrue (marked_at area.new n) ↔ IsReachedFrom area.old start n }
    ensures exits { (start : Named → Bool) → IsBeginning area.old bound start → (n : Named) → IsTrue (target_marked exits.new.items n) ↔ IsExitFrom area.old start n }
    ensures next { (start : Named → Bool) → IsBeginning area.old bound start → IfSome result (λ next. IsKept (black_at area.new) (refers_at area.new) start next) }
{
    mark_kept_on::<Brand>(Blank::new(1), area, exits, bound, first)
}

/// Marks so with a counter on that blank.
fn mark_kept_on<L: Ledger>(
    blank: Blank,
    area: &mut Area,
    exits: &mut ExitTable,
    bound: Bound,
    first: u32,
) -> Option<Bound>
    requires name { blank.name ≡ L.name }
    requires parts { blank.parts ≡ L.parts }
    requires some { 0 < blank.parts }
    requires distinct { HasDistinct area.old.segments }
    requires exits { (a n : Named) → IsTrue (refers_at area.old a n) → IsTrue (is_foreign area.old n) → IsTrue (has_target exits.old.items n) }
    requires clean { (n : Named) → IsFalse (black_at area.old n) }
    requires unmarked { (n : Named) → IsFalse (target_marked exits.old.items n) }
    requires first { first ≤ length exits.old.items }
    requires led { (n : Named) → IsTrue (name_among n (take first (targets exits.old.items))) ↔ IsLedTo area.old (old_at area.old bound) n }
    ensures kept { unmarked area.new ≡ unmarked area.old }
    ensures targets { targets exits.new.items ≡ targets exits.old.items }
    ensures room { exits.new.room ≡ exits.old.room }
    ensures black { (n : Named) → IsFalse (gray_at area.new n) }
    ensures reached { (start : Named → Bool) → IsBeginning area.old bound start → (n : Named) → IsTrue (marked_at area.new n) ↔ IsReachedFrom area.old start n }
    ensures exits { (start : Named → Bool) → IsBeginning area.old bound start → (n : Named) → IsTrue (target_marked exits.new.items n) ↔ IsExitFrom area.old start n }
    ensures next { (start : Named → Bool) → IsBeginning area.old bound start → IfSome result (λ next. IsKept (black_at area.new) (refers_at area.new) start next) }
{
    let mut steps: Steps<L> = Steps::open(blank);
    let next = after(area, bound);
    let mut lower = true;
    let mut held = [Stored::Null; 16];
    while let Some(found) = area.visit_gray_from(bound, &mut held) {
        if !bound.covers(found.name) {
            if !are_lower(&held, found.fields, next) {
                lower = false;
            }
            trace(area, exits, &mut steps, found, &held);
        }
    }
    area.blacken_covered(bound);
    exits.mark_first(first);
    if lower { Some(next) } else { None }
}
