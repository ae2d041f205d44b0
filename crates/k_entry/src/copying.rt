//! The objects of a home, copied to the end of a row.
ghost use Rattle.std.specs.Prelude.{◌≡◌, ◌<◌, ◌^◌, ℕ, IsTrue, length, map, vec_capacity};
ghost use Rattle.std.specs.List.{concat};
ghost use Rattle.k_lists.specs.Lists.{is_in, members};
ghost use Rattle.k_entry.specs.Copies.{IsCopied};
ghost use Rattle.k_entry.specs.Slots.{homed, objects_in, walk_of};

use crate::item::Item;
use crate::walks::{is_same, walk_number};
use k_lists::Lists;
use k_types::{Heap, Name};

/// Copies the objects in the slots of that list, as far as there is room, and tells whether these were all.
fn copy_list(slots: &[Item], lists: &Lists, list: usize, row: &mut Vec<Name>) -> bool
    requires list { list < length lists.now.lists }
    requires slots { (i : ℕ) → IsTrue (is_in (members lists.now list) i) → i < length slots.now }
    ensures copied { IsCopied (vec_capacity row.old) row.old.items row.new.items (objects_in slots.now (members lists.now list)) result }
    ensures capacity { vec_capacity row.new ≡ vec_capacity row.old }
{
    let mut next = lists.first(list);
    while let Some(i) = next {
        if row.len() >= row.capacity() {
            return false;
        }
        row.push_reserved(slots[i as usize].target);
        next = lists.next(i);
    }
    true
}

/// Copies the objects on the walk of that home, as far as there is room, and tells whether these were all.
pub(crate) fn copy_walk(
    slots: &[Item],
    segments: &Lists,
    walks: &Lists,
    homes: &[Heap],
    heap: Heap,
    row: &mut Vec<Name>,
) -> bool
    requires slots { (list i : ℕ) → IsTrue (is_in (members segments.now list) i) → i < length slots.now }
    requires segments { length homes.now < length segments.now.lists }
    requires walks { length homes.now < length walks.now.lists }
    requires homes { length homes.now ≡ walks.now.room }
    requires small { length homes.now < 2 ^ 32 }
    ensures copied { IsCopied (vec_capacity row.old) row.old.items row.new.items (objects_in slots.now (concat (map (members segments.now) (homed homes.now heap (members walks.now (walk_of (length homes.now) heap)))))) result }
    ensures capacity { vec_capacity row.new ≡ vec_capacity row.old }
{
    let mut next = walks.first(walk_number(heap, homes.len()));
    while let Some(seg) = next {
        if is_same(homes[seg as usize], heap) && !copy_list(slots, segments, seg as usize, row) {
            return false;
        }
        next = walks.next(seg);
    }
    true
}
