//! The entry items and the pins.
ghost use Rattle.std.specs.Prelude.{◌≡◌, ◌+◌, ◌-◌, ◌<◌, ◌^◌, [], IfOk, length, option_map, slice_set, vec_capacity};
ghost use Rattle.k_types.specs.Counted.{counted};
ghost use Rattle.k_types.specs.Names.{name_of};
ghost use Rattle.k_entry.specs.Copies.{IsCopied};
ghost use Rattle.k_entry.specs.Entries.{AreEntries, HasMore, HasLess, first_object, object_after, objects, items_of, home_of};
ghost use Rattle.k_book.specs.Entered.{HasRehomed, entry_items, pin_items};

use k_entry::EntryTable;
use k_types::{Heap, Link, Name, NoMemory, Seg};
use std::alloc::Global;
use std::marker::Model;

/// The objects that are entered, and those that are pinned, each with its count. Source: KaffeOS paper, on entry items; the pins
/// are own.
pub struct EnteredTables {
    pub(crate) entries: EntryTable,
    pub(crate) pins: EntryTable,
}

impl Drop for EnteredTables {
    fn drop(self) {
        let EnteredTables {
            entries: _,
            pins: _,
        } = self;
    }
}

impl Model for EnteredTables {
    ghost use Rattle.k_book.specs.Entered.{EnteredValue};

    ghost Value = { EnteredValue };

    ghost use Rattle.std.specs.Prelude.{◌≡◌};
    ghost use Rattle.k_book.specs.Entered.{entered_by};

    ghost view = { λ t. entered_by t.entries t.pins };

    ghost invariant = { λ t. t.pins.homes ≡ t.entries.homes };
}

impl EnteredTables {
    /// Tables with no item and with room for so many entry items and so many pins; home number i is that of segment i.
    pub fn make(
        alloc: Global,
        homes: &[Heap],
        entry_room: u32,
        pin_room: u32,
    ) -> Result<EnteredTables, NoMemory>
        requires { length homes.now < 2 ^ 32 - 1 }
        ensures { IfOk result (λ t. t ≡ record { homes = homes.now; entries = []; pins = []; entry_room = entry_room; pin_room = pin_room }) }
    {
        let entries = EntryTable::make(alloc, homes, entry_room)?;
        let pins = EntryTable::make(alloc, homes, pin_room)?;
        Ok(EnteredTables { entries, pins })
    }

    /// The home of a segment.
    pub fn home(&self, seg: Seg) -> Heap
        requires { seg.0 < length self.now.homes }
        ensures { result ≡ home_of self.now.homes seg.0 }
    {
        self.entries.home(seg)
    }

    /// Into how many objects exit items lead. Constant time.
    pub fn entry_count(&self) -> u32
        ensures { result ≡ length self.now.entries }
    {
        self.entries.len()
    }

    /// How many heaps have an exit item to the object.
    pub fn entries(&self, target: Name) -> u32
        ensures count { result ≡ counted self.now.entries target }
        ensures items { AreEntries (entry_items self.now) }
    {
        self.entries.count(target)
    }

    /// How many registers of other processes than its owner hold the object.
    pub fn pins(&self, target: Name) -> u32
        ensures count { result ≡ counted self.now.pins target }
        ensures items { AreEntries (pin_items self.now) }
    {
        self.pins.count(target)
    }

    /// One heap more has an exit item to the object.
    pub fn enter(&mut self, target: Link)
        requires home { target.seg.0 < length self.old.homes }
        requires room { counted self.old.entries (name_of target) ≡ 0 → length self.old.entries < self.old.entry_room }
        requires small { counted self.old.entries (name_of target) < 2 ^ 32 - 1 }
        ensures more { HasMore (entry_items self.old) (entry_items self.new) (name_of target) }
        ensures rest { self.new ≡ record self.old { entries = self.new.entries } }
    {
        self.entries.up(target);
    }

    /// One heap fewer has an exit item to the object.
    pub fn leave(&mut self, target: Name)
        requires { 0 < counted self.old.entries target }
        ensures less { HasLess (entry_items self.old) (entry_items self.new) target }
        ensures rest { self.new ≡ record self.old { entries = self.new.entries } }
    {
        self.entries.down(target);
    }

    /// One register more of another process holds the object.
    #[tactic(auto, using(crate::proofs::Pinned::pins_are))]
    pub fn pin(&mut self, target: Link)
        requires home { target.seg.0 < length self.old.homes }
        requires room { AreEntries (pin_items self.old) → counted self.old.pins (name_of target) ≡ 0 → length self.old.pins < self.old.pin_room }
        requires small { counted self.old.pins (name_of target) < 2 ^ 32 - 1 }
        ensures more { HasMore (pin_items self.old) (pin_items self.new) (name_of target) }
        ensures rest { self.new ≡ record self.old { pins = self.new.pins } }
    {
        self.pins.up(target);
    }

    /// One register fewer of another process holds the object.
    #[tactic(auto, using(crate::proofs::Pinned::pins_are))]
    pub fn unpin(&mut self, target: Name)
        requires { 0 < counted self.old.pins target }
        ensures less { HasLess (pin_items self.old) (pin_items self.new) target }
        ensures rest { self.new ≡ record self.old { pins = self.new.pins } }
    {
        self.pins.down(target);
    }

    /// The first entered object on the walk of that home.
    pub fn first_entry(&self, heap: Heap) -> Option<Link>
        ensures first { option_map name_of result ≡ first_object (items_of (entry_items self.now) heap) }
        ensures items { AreEntries (entry_items self.now) }
    {
        self.entries.first_of(heap)
    }

    /// The entered object after that one on the walk of its home.
    pub fn next_entry(&self, target: Link) -> Option<Link>
        requires { 0 < counted self.now.entries (name_of target) }
        ensures { option_map name_of result ≡ object_after (items_of (entry_items self.now) (home_of self.now.homes target.seg.0)) (name_of target) }
    {
        self.entries.next_at(target)
    }

    /// The first pinned object on the walk of that home.
    #[tactic(auto, using(crate::proofs::Pinned::pins_are))]
    pub fn first_pin(&self, heap: Heap) -> Option<Link>
        ensures first { option_map name_of result ≡ first_object (items_of (pin_items self.now) heap) }
        ensures items { AreEntries (pin_items self.now) }
    {
        self.pins.first_of(heap)
    }

    /// The pinned object after that one on the walk of its home.
    #[tactic(auto, using(crate::proofs::Pinned::pins_are))]
    pub fn next_pin(&self, target: Link) -> Option<Link>
        requires { 0 < counted self.now.pins (name_of target) }
        ensures { option_map name_of result ≡ object_after (items_of (pin_items self.now) (home_of self.now.homes target.seg.0)) (name_of target) }
    {
        self.pins.next_at(target)
    }

    /// Copies the entered objects of the heap to the end of the row, as far as there is room, and tells whether these were all. The
    /// cost is in proportion to what it copies and to the heap's segments.
    pub fn copy_entered(&self, heap: Heap, row: &mut Vec<Name>) -> bool
        ensures copied { IsCopied (vec_capacity row.old) row.old.items row.new.items (objects (items_of (entry_items self.now) heap)) result }
        ensures capacity { vec_capacity row.new ≡ vec_capacity row.old }
        ensures items { AreEntries (entry_items self.now) }
    {
        self.entries.copy_of(heap, row)
    }

    /// Copies the pinned objects of the heap in the same way.
    #[tactic(auto, using(crate::proofs::Pinned::pins_are))]
    pub fn copy_pinned(&self, heap: Heap, row: &mut Vec<Name>) -> bool
        ensures copied { IsCopied (vec_capacity row.old) row.old.items row.new.items (objects (items_of (pin_items self.now) heap)) result }
        ensures capacity { vec_capacity row.new ≡ vec_capacity row.old }
        ensures items { AreEntries (pin_items self.now) }
    {
        self.pins.copy_of(heap, row)
    }

    /// The home of a segment is another from now on, and its entered and pinned objects are on the walks of that home.
    #[tactic(auto, using(crate::proofs::Pinned::pins_are))]
    pub fn rehome(&mut self, seg: Seg, to: Heap)
        requires { seg.0 < length self.old.homes }
        ensures entries { HasRehomed (entry_items self.old) (entry_items self.new) seg.0 to }
        ensures pins { HasRehomed (pin_items self.old) (pin_items self.new) seg.0 to }
        ensures rest { self.new ≡ record self.old { homes = slice_set self.old.homes seg.0 to; entries = self.new.entries; pins = self.new.pins } }
    {
        self.entries.rehome(seg, to);
        self.pins.rehome(seg, to);
    }
}
