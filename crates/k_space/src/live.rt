//! The list of live objects, and a sweep along it.
ghost use Rattle.std.specs.Prelude.{ℕ, ◌≡◌, ◌<◌, ◌≤◌, length, slice_index_or, IfNone, IfSome};
ghost use Rattle.k_space.specs.Listed.{AreBlackened, AreInFront, ArePassed, IsListed, IsNextWhite, serials};

use crate::marks::{Mark, Place, Places};

/// An object on the list, and a hint of where it lies.
#[derive(Clone, Copy)]
pub(crate) struct Entry {
    pub(crate) serial: u32,
    // The slot into which it was put.
    pub(crate) slot: u32,
}

/// An object without a mark: where it stands on the list of live objects, and its slot.
#[derive(Clone, Copy)]
pub(crate) struct White {
    pub(crate) at: usize,
    pub(crate) slot: usize,
}

/// The first serial of the list with a white place, of which the first so many have none.
#[tactic(auto, using(crate::proofs::Entries::serial_there, crate::proofs::Entries::length_serials))]
pub(crate) fn next_white(live: &[Entry], places: &Places, passed: usize) -> Option<White>
    requires { IsListed places.now.items (serials live.now) passed }
    ensures some { IfSome result (λ white. IsNextWhite places.now.items (serials live.now) white.at white.slot) }
    ensures none { IfNone result (ArePassed places.now.items (serials live.now) (length live.now)) }
{
    for at in passed..live.len() {
        let entry = live[at];
        match places.at_near(entry.serial as usize, entry.slot as usize) {
            Place::At(slot, Mark::White) => return Some(White { at, slot }),
            _ => {}
        }
    }
    None
}

/// Makes the objects of the listed serials below that one black, and tells how many of the front of the list those are.
pub(crate) fn blacken(live: &[Entry], places: &mut Places, below: u64) -> usize
    requires { (k : ℕ) → k < length live.now → slice_index_or (serials live.now) k 0 < length places.old.items }
    ensures black { AreBlackened (serials live.now) below (length live.now) places.old.items places.new.items }
    ensures capacity { places.new.capacity ≡ places.old.capacity }
    ensures front { AreInFront (serials live.now) below result }
{
    let mut front = 0;
    for i in 0..live.len() {
        let entry = live[i];
        if u64::from(entry.serial) < below {
            places.blacken(entry.serial as usize, entry.slot as usize);
            if front == i {
                front += 1;
            }
        }
    }
    front
}
