//! The walks: the segments of each home that have an item, and their slots.
ghost use Rattle.std.specs.Prelude.{◌≡◌, ◌<◌, ◌≤◌, ◌+◌, ◌∷◌, [], ◌^◌, ℕ, Some, None, IfSome, IsTrue, length, slice_set};
ghost use Rattle.k_types.specs.Names.{heap_eq};
ghost use Rattle.k_lists.specs.Lists.{AreApart, IsFree, members, is_in, without};
ghost use Rattle.k_entry.specs.Entries.{home_of};
ghost use Rattle.k_entry.specs.Slots.{walk_of, entered, left, changed, first_slot, homed, onward};

use k_lists::Lists;
use k_types::{Heap, Seg};

/// Whether the two heaps are one.
pub(crate) fn is_same(a: Heap, b: Heap) -> bool
    ensures { result ≡ heap_eq a b }
{
    match (a, b) {
        (Heap::Kernel, Heap::Kernel) => true,
        (Heap::User(p), Heap::User(q)) => p.0 == q.0,
        (Heap::Shared(s), Heap::Shared(t)) => s.0 == t.0,
        _ => false,
    }
}

/// The number of the walk on which the segments of that heap are, of one more than there are
/// segments. Two heaps can have one number.
#[tactic(auto, unfolding(crate::specs::Slots::walk_of))]
pub(crate) fn walk_number(heap: Heap, segments: usize) -> usize
    requires { segments < 2 ^ 32 }
    ensures value { result ≡ walk_of segments heap }
    ensures within { result ≤ segments }
{
    match heap {
        Heap::Kernel => 0,
        Heap::User(p) => (1 + p.0 as usize) % (segments + 1),
        Heap::Shared(s) => segments.saturating_sub(1).saturating_sub(s.0 as usize),
    }
}

/// Puts a slot at the front of the list of its segment, and the segment on the walk of its home
/// where it had no slot.
pub(crate) fn put_in(segments: &mut Lists, walks: &mut Lists, walk: usize, seg: Seg, slot: u32)
    requires list { seg.0 < length segments.old.lists }
    requires room { slot < segments.old.room }
    requires free { IsFree segments.old slot }
    requires walk { walk < length walks.old.lists }
    requires seg { seg.0 < walks.old.room }
    requires off { members segments.old seg.0 ≡ [] → IsFree walks.old seg.0 }
    requires apart { AreApart walks.old }
    ensures segments { segments.new ≡ record segments.old { lists = slice_set segments.old.lists seg.0 (slot ∷ members segments.old seg.0) } }
    ensures walks { walks.new ≡ entered walks.old walk seg.0 (members segments.old seg.0) }
    ensures segments_apart { AreApart segments.new }
    ensures walks_apart { AreApart walks.new }
{
    if segments.first(seg.0 as usize).is_none() {
        walks.push_front(walk, seg.0);
    }
    segments.push_front(seg.0 as usize, slot);
}

/// Takes a slot out of the list of its segment, and the segment off the walk of its home where that
/// was its last one.
pub(crate) fn take_out(segments: &mut Lists, walks: &mut Lists, walk: usize, seg: Seg, slot: u32)
    requires list { seg.0 < length segments.old.lists }
    requires there { IsTrue (is_in (members segments.old seg.0) slot) }
    requires on { IsTrue (is_in (members walks.old walk) seg.0) }
    requires apart { AreApart walks.old }
    ensures segments { segments.new ≡ record segments.old { lists = slice_set segments.old.lists seg.0 (without slot (members segments.old seg.0)) } }
    ensures walks { walks.new ≡ left walks.old walk seg.0 (without slot (members segments.old seg.0)) }
    ensures segments_apart { AreApart segments.new }
    ensures walks_apart { AreApart walks.new }
{
    segments.remove(seg.0 as usize, slot);
    if segments.first(seg.0 as usize).is_none() {
        walks.remove(walk, seg.0);
    }
}

/// Moves a segment that has a slot from one walk to the other.
pub(crate) fn change_walk(segments: &Lists, walks: &mut Lists, from: usize, into: usize, seg: Seg)
    requires list { seg.0 < length segments.now.lists }
    requires on { 0 < length (members segments.now seg.0) → IsTrue (is_in (members walks.old from) seg.0) }
    requires into { into < length walks.old.lists }
    requires apart { AreApart walks.old }
    ensures walks { walks.new ≡ changed walks.old from into seg.0 (members segments.now seg.0) }
    ensures apart { AreApart walks.new }
{
    if segments.first(seg.0 as usize).is_some() {
        walks.remove(from, seg.0);
        walks.push_front(into, seg.0);
    }
}

/// The first slot of the first segment of that home, from one place of its walk on.
pub(crate) fn first_from(
    segments: &Lists,
    walks: &Lists,
    homes: &[Heap],
    heap: Heap,
    from: Option<u32>,
) -> Option<u32>
    requires from { IfSome from (λ seg. IsTrue (is_in (members walks.now (walk_of (length homes.now) heap)) seg)) }
    requires homes { length homes.now ≡ walks.now.room }
    requires lists { length homes.now < length segments.now.lists }
    requires apart { AreApart walks.now }
    ensures { result ≡ first_slot segments.now (homed homes.now heap (onward (members walks.now (walk_of (length homes.now) heap)) from)) }
{
    let mut next = from;
    while let Some(seg) = next {
        if is_same(homes[seg as usize], heap) {
            return segments.first(seg as usize);
        }
        next = walks.next(seg);
    }
    None
}
