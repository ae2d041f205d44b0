//! The items in their slots, and how the one of an object is found.
ghost use Rattle.std.specs.Prelude.{◌≡◌, ◌<◌, ◌≤◌, ◌^◌, ℕ, Some, None, IfSome, IfNone, IsTrue, IsFalse, length, vec_capacity, slice_get, option_map};
ghost use Rattle.k_types.specs.Names.{name_eq, name_of};
ghost use Rattle.k_lists.specs.Lists.{AreApart, members, is_in};
ghost use Rattle.k_entry.specs.Slots.{at, bucket, buckets, GivesSlot};

use k_lists::Lists;
use k_types::{Link, Name, Slot};

/// An object, and how often something holds it.
#[derive(Clone, Copy)]
pub(crate) struct Item {
    pub(crate) target: Name,
    pub(crate) count: u32,
}

impl Item {
    pub(crate) fn with_count(self, count: u32) -> Item
        ensures { result ≡ record { target = self.target; count = count } }
    {
        Item {
            target: self.target,
            count,
        }
    }

    pub(crate) fn is_of(self, target: Name) -> bool
        ensures { result ≡ name_eq self.target target }
    {
        self.target.seg.0 == target.seg.0 && self.target.serial.0 == target.serial.0
    }
}

/// How many hash chains there are in a table with so much room.
#[tactic(auto, unfolding(crate::specs::Slots::buckets))]
pub(crate) fn chain_count(room: u32) -> usize
    ensures { result ≡ buckets room }
{
    if room == 0 { 1 } else { room as usize }
}

/// The number of the chain of an object.
#[tactic(auto, unfolding(crate::specs::Slots::bucket, crate::specs::Slots::buckets))]
pub(crate) fn chain_of(target: Name, room: u32) -> usize
    ensures value { result ≡ bucket room target }
    ensures within { result < buckets room }
{
    k_lists::chain_of(chain_count(room), target)
}

/// The slot of the object in that chain, if it is there.
pub(crate) fn find(slots: &[Item], chains: &Lists, chain: usize, target: Name) -> Option<u32>
    requires chain { chain < length chains.now.lists }
    requires slots { (i : ℕ) → IsTrue (is_in (members chains.now chain) i) → i < length slots.now }
    ensures there { IfSome result (λ i. IsTrue (is_in (members chains.now chain) i)) }
    ensures target { IfSome result (λ i. (at slots.now i).target ≡ target) }
    ensures none { IfNone result ((i : ℕ) → IsTrue (is_in (members chains.now chain) i) → IsFalse (name_eq (at slots.now i).target target)) }
{
    let mut next = chains.first(chain);
    while let Some(i) = next {
        if slots[i as usize].is_of(target) {
            return Some(i);
        }
        next = chains.next(i);
    }
    None
}

/// The slot of the object of a reference: the one that the reference names, where it is right, else
/// the one that is found in the object's chain.
pub(crate) fn slot_of(slots: &[Item], chains: &Lists, room: u32, link: Link) -> Option<u32>
    requires chains { length chains.now.lists ≡ buckets room }
    requires slots { (chain i : ℕ) → IsTrue (is_in (members chains.now chain) i) → i < length slots.now }
    requires small { length slots.now < 2 ^ 32 }
    requires known { (i : ℕ) → 0 < (at slots.now i).count → IsTrue (is_in (members chains.now (bucket room (at slots.now i).target)) i) }
    ensures there { IfSome result (λ i. IsTrue (is_in (members chains.now (bucket room (name_of link))) i)) }
    ensures target { IfSome result (λ i. (at slots.now i).target ≡ name_of link) }
    ensures none { IfNone result ((i : ℕ) → IsTrue (is_in (members chains.now (bucket room (name_of link))) i) → IsFalse (name_eq (at slots.now i).target (name_of link))) }
{
    let target = link.name();
    if holds(slots, link.slot.0, target) {
        return Some(link.slot.0 as u32);
    }
    find(slots, chains, chain_of(target, room), target)
}

/// Whether an item of that object is in the slot.
fn holds(slots: &[Item], i: usize, target: Name) -> bool
    ensures { IsTrue result → (0 < (at slots.now i).count) × ((at slots.now i).target ≡ target) }
{
    i < slots.len() && slots[i].count > 0 && slots[i].is_of(target)
}

/// Writes the item into a slot that is in no list: one from the list of free slots, else a new one.
pub(crate) fn take_slot(slots: &mut Vec<Item>, segments: &mut Lists, free: usize, item: Item) -> u32
    requires list { free < length segments.old.lists }
    requires fresh { (list i : ℕ) → IsTrue (is_in (members segments.old list) i) → i < length slots.old.items }
    requires room { length (members segments.old free) ≡ 0 → length slots.old.items < segments.old.room }
    requires reserved { segments.old.room ≤ vec_capacity slots.old }
    requires small { segments.old.room < 2 ^ 32 }
    requires apart { AreApart segments.old }
    ensures given { GivesSlot slots.old.items slots.new.items segments.old segments.new free result item }
    ensures apart { AreApart segments.new }
    ensures capacity { vec_capacity slots.new ≡ vec_capacity slots.old }
{
    match segments.first(free) {
        Some(i) => {
            segments.remove(free, i);
            slots[i as usize] = item;
            i
        }
        None => {
            let i = slots.len() as u32;
            slots.push_reserved(item);
            i
        }
    }
}

/// A reference to the object in the slot, which it names.
pub(crate) fn link_at(slots: &[Item], i: u32) -> Link
    requires { i < length slots.now }
    ensures { name_of result ≡ (at slots.now i).target }
{
    let target = slots[i as usize].target;
    Link {
        seg: target.seg,
        slot: Slot(i as usize),
        serial: target.serial,
    }
}
