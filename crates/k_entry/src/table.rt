//! The table of the objects that are held from outside their heaps.
ghost use Rattle.std.specs.Prelude.{◌≡◌, ◌+◌, ◌-◌, ◌<◌, ◌≤◌, ◌^◌, [], ℕ, Some, None, IfOk, IfSome, IfNone, length, option_map, slice_set, vec_capacity};
ghost use Rattle.std.specs.List.Sorted.{IsPermutation};
ghost use Rattle.k_types.specs.declared.names.Name.{Name as Named};
ghost use Rattle.k_types.specs.Names.{name_of};
ghost use Rattle.k_types.specs.Counted.{counted};
ghost use Rattle.k_entry.specs.Copies.{IsCopied};
ghost use Rattle.k_entry.specs.Entries.{AreEntries, HasMore, HasLess, first_object, object_after, objects, items_of, home_of};

use crate::copying::copy_walk;
use crate::item::{Item, chain_count, chain_of, find, link_at, slot_of, take_slot};
use crate::walks::{change_walk, first_from, put_in, take_out, walk_number};
use k_lists::Lists;
use k_types::{Heap, Link, Name, NoMemory, Seg, Slot};
use std::alloc::Global;
use std::marker::Model;

/// Objects with counts above 0, and the home heap of each segment. Source: KaffeOS paper, on entry items,
/// whose counts say how many heaps refer to an object from outside; the lists are own.
pub struct EntryTable {
    // A slot with a count of 0 is free.
    pub(crate) slots: Vec<Item>,
    // The slots of each hash chain.
    pub(crate) chains: Lists,
    // The slots of each segment, and after these lists the free slots.
    pub(crate) segments: Lists,
    // The segments that have an item, by the walk number of their home.
    pub(crate) walks: Lists,
    pub(crate) homes: Vec<Heap>,
    pub(crate) room: u32,
    // How many items there are.
    pub(crate) count: u32,
}

impl Drop for EntryTable {
    fn drop(self) {
        let EntryTable {
            slots: _,
            chains: _,
            segments: _,
            walks: _,
            homes: _,
            room: _,
            count: _,
        } = self;
    }
}

impl Model for EntryTable {
    ghost use Rattle.k_entry.specs.Entries.{EntryValue};

    ghost Value = { EntryValue };

    ghost use Rattle.std.specs.Prelude.{length, vec_capacity, ◌≡◌};
    ghost use Rattle.k_entry.specs.Slots.{shown, used, AreKept, AreKnown};

    ghost view = { λ t. shown (record { slots = t.slots.items; chains = t.chains; segments = t.segments; walks = t.walks; homes = t.homes.items; room = t.room }) };

    ghost invariant = { λ t. record {
      reserved : vec_capacity t.slots ≡ t.room;
      homes_reserved : vec_capacity t.homes ≡ length t.homes.items;
      kept : AreKept (record { slots = t.slots.items; chains = t.chains; segments = t.segments; walks = t.walks; homes = t.homes.items; room = t.room });
      known : AreKnown (record { slots = t.slots.items; chains = t.chains; segments = t.segments; walks = t.walks; homes = t.homes.items; room = t.room });
      counted : t.count ≡ length (used (record { slots = t.slots.items; chains = t.chains; segments = t.segments; walks = t.walks; homes = t.homes.items; room = t.room }));
    } };
}

/// The same homes, with memory for no more.
fn copied(alloc: Global, homes: &[Heap]) -> Result<Vec<Heap>, NoMemory>
    ensures items { IfOk result (λ copy. copy.items ≡ homes.now) }
    ensures capacity { IfOk result (λ copy. vec_capacity copy ≡ length homes.now) }
{
    let mut copy = Vec::with_capacity(alloc, homes.len())?;
    for home in homes {
        copy.push_reserved(*home);
    }
    Ok(copy)
}

impl EntryTable {
    /// A table with no item and room for so many; home number i is that of segment i. There are fewer than 2^32 - 1
    /// segments, since lists number segments by 32 bits.
    pub fn make(alloc: Global, homes: &[Heap], room: u32) -> Result<EntryTable, NoMemory>
        requires { length homes.now < 2 ^ 32 - 1 }
        ensures made { IfOk result (λ t. t ≡ record { items = []; homes = homes.now; room = room }) }
        ensures entries { IfOk result (λ t. AreEntries t) }
    {
        let slots = Vec::with_capacity(alloc, room as usize)?;
        let chains = Lists::make(alloc, chain_count(room), room)?;
        let segments = Lists::make(alloc, homes.len() + 1, room)?;
        let walks = Lists::make(alloc, homes.len() + 1, homes.len() as u32)?;
        let homes = copied(alloc, homes)?;
        Ok(EntryTable {
            slots,
            chains,
            segments,
            walks,
            homes,
            room,
            count: 0,
        })
    }

    /// How many objects are counted. Constant time.
    pub fn len(&self) -> u32
        ensures { result ≡ length self.now.items }
    {
        self.count
    }

    /// How often the object is counted; 0 where it isn't there. It passes one hash chain at most.
    pub fn count(&self, target: Name) -> u32
        ensures count { result ≡ counted self.now.items target }
        ensures entries { AreEntries self.now }
    {
        match find(
            &self.slots,
            &self.chains,
            chain_of(target, self.room),
            target,
        ) {
            Some(i) => self.slots[i as usize].count,
            None => 0,
        }
    }

    /// Counts the object once more. It passes one hash chain at most.
    pub fn up(&mut self, target: Link)
        requires home { target.seg.0 < length self.old.homes }
        requires room { AreEntries self.old → counted self.old.items (name_of target) ≡ 0 → length self.old.items < self.old.room }
        requires small { counted self.old.items (name_of target) < 2 ^ 32 - 1 }
        ensures { HasMore self.old self.new (name_of target) }
    {
        let name = target.name();
        let chain = chain_of(name, self.room);
        match find(&self.slots, &self.chains, chain, name) {
            Some(i) => {
                let item = self.slots[i as usize];
                self.slots[i as usize] = item.with_count(item.count + 1);
            }
            None => {
                let item = Item {
                    target: name,
                    count: 1,
                };
                let walk = walk_number(self.homes[name.seg.0 as usize], self.homes.len());
                let i = take_slot(&mut self.slots, &mut self.segments, self.homes.len(), item);
                self.chains.push_front(chain, i);
                put_in(&mut self.segments, &mut self.walks, walk, name.seg, i);
                self.count += 1;
            }
        }
    }

    /// Counts the object once less, and removes its item at zero. It passes one hash chain at most.
    ///
    pub fn down(&mut self, target: Name)
        requires { 0 < counted self.old.items target }
        ensures { HasLess self.old self.new target }
    {
        let chain = chain_of(target, self.room);
        let Some(i) = find(&self.slots, &self.chains, chain, target) else {
            unreachable!()
        };
        let item = self.slots[i as usize];
        if item.count == 1 {
            let walk = walk_number(self.homes[target.seg.0 as usize], self.homes.len());
            self.chains.remove(chain, i);
            take_out(&mut self.segments, &mut self.walks, walk, target.seg, i);
            self.segments.push_front(self.homes.len(), i);
            self.slots[i as usize] = item.with_count(0);
            self.count -= 1;
        } else {
            self.slots[i as usize] = item.with_count(item.count - 1);
        }
    }

    /// The first object on the walk of that home. It passes by no segment without an item.
    pub fn first_of(&self, heap: Heap) -> Option<Link>
        ensures first { option_map name_of result ≡ first_object (items_of self.now heap) }
        ensures entries { AreEntries self.now }
    {
        let first = self.walks.first(walk_number(heap, self.homes.len()));
        match first_from(&self.segments, &self.walks, &self.homes, heap, first) {
            Some(i) => Some(link_at(&self.slots, i)),
            None => None,
        }
    }

    /// The object after that one on the walk of its home. It finds that one by its hash chain, and
    /// passes by no segment without an item.
    pub fn next(&self, target: Name) -> Option<Link>
        requires { 0 < counted self.now.items target }
        ensures next { option_map name_of result ≡ object_after (items_of self.now (home_of self.now.homes target.seg.0)) target }
        ensures entries { AreEntries self.now }
    {
        self.next_at(Link {
            seg: target.seg,
            slot: Slot(0),
            serial: target.serial,
        })
    }

    /// The same as `next` after an object that the walk gave. It finds that one at once where the table
    /// has not changed since then.
    pub fn next_at(&self, target: Link) -> Option<Link>
        requires { 0 < counted self.now.items (name_of target) }
        ensures next { option_map name_of result ≡ object_after (items_of self.now (home_of self.now.homes target.seg.0)) (name_of target) }
        ensures entries { AreEntries self.now }
    {
        let Some(i) = slot_of(&self.slots, &self.chains, self.room, target) else {
            unreachable!()
        };
        if let Some(j) = self.segments.next(i) {
            return Some(link_at(&self.slots, j));
        }
        let heap = self.homes[target.seg.0 as usize];
        let next = self.walks.next(target.seg.0);
        match first_from(&self.segments, &self.walks, &self.homes, heap, next) {
            Some(j) => Some(link_at(&self.slots, j)),
            None => None,
        }
    }

    /// Copies the objects of that home to the end of the row, in the order of the walk, as far as there is room, and tells whether
    /// these were all. It takes no memory. The cost is in proportion to what it copies and to the segments on the walk.
    pub fn copy_of(&self, heap: Heap, row: &mut Vec<Name>) -> bool
        ensures copied { IsCopied (vec_capacity row.old) row.old.items row.new.items (objects (items_of self.now heap)) result }
        ensures capacity { vec_capacity row.new ≡ vec_capacity row.old }
        ensures entries { AreEntries self.now }
    {
        copy_walk(
            &self.slots,
            &self.segments,
            &self.walks,
            &self.homes,
            heap,
            row,
        )
    }

    /// Changes the home of a segment, and with it the walks on which its objects are. It takes constant time,
    /// however many they are.
    pub fn rehome(&mut self, seg: Seg, to: Heap)
        requires { seg.0 < length self.old.homes }
        ensures homes { self.new.homes ≡ slice_set self.old.homes seg.0 to }
        ensures items { IsPermutation self.old.items self.new.items }
        ensures counts { (n : Named) → counted self.new.items n ≡ counted self.old.items n }
        ensures entries { AreEntries self.new }
        ensures room { self.new.room ≡ self.old.room }
    {
        let from = walk_number(self.homes[seg.0 as usize], self.homes.len());
        let into = walk_number(to, self.homes.len());
        change_walk(&self.segments, &mut self.walks, from, into, seg);
        self.homes[seg.0 as usize] = to;
    }

    /// The home of a segment.
    pub fn home(&self, seg: Seg) -> Heap
        requires { seg.0 < length self.now.homes }
        ensures home { result ≡ home_of self.now.homes seg.0 }
        ensures entries { AreEntries self.now }
    {
        self.homes[seg.0 as usize]
    }
}
