//! More room for counted objects.
ghost use Rattle.std.specs.Prelude.{◌≡◌, ◌≤◌, [], IfOk, OnErr, OnOk, length, replicate, vec_capacity};
ghost use Rattle.k_entry.specs.Slots.{AreChained, buckets};

use crate::item::{Item, chain_count, chain_of};
use crate::table::EntryTable;
use k_lists::Lists;
use k_types::NoMemory;
use std::alloc::Global;
use std::marker::Model;

/// Memory for so many counted objects, which a table can have in place of its own.
#[derive(Drop)]
pub struct EntryRoom {
    slots: Vec<Item>,
    // Empty, and as many as the hash gives.
    chains: Lists,
    // Whatever lists these are, they have the numbers of the slots.
    segments: Lists,
    room: u32,
}

impl Model for EntryRoom {
    ghost use Rattle.std.specs.Prelude.{◌≡◌, ℕ, [], replicate, vec_capacity};
    ghost use Rattle.k_entry.specs.Slots.{buckets};

    ghost Value = { ℕ };

    ghost view = { λ r. r.room };

    ghost invariant = { λ r. record {
      empty : r.slots.items ≡ [];
      reserved : vec_capacity r.slots ≡ r.room;
      chains : r.chains ≡ record { lists = replicate (buckets r.room) []; room = r.room };
      segments : r.segments.room ≡ r.room;
    } };
}

impl EntryRoom {
    /// Memory for so many, 32 bytes for each, all of it at once. It writes links and a head for each.
    ///
    /// # Errors
    ///
    /// `NoMemory` where there is none.
    pub fn make(alloc: Global, room: u32) -> Result<EntryRoom, NoMemory>
        ensures { IfOk result (λ r. r ≡ room) }
    {
        let slots = Vec::with_capacity(alloc, room as usize)?;
        let chains = Lists::make(alloc, chain_count(room), room)?;
        let segments = Lists::make(alloc, 0, room)?;
        Ok(EntryRoom {
            slots,
            chains,
            segments,
            room,
        })
    }
}

/// Copies the slots into a list that has none yet.
fn copy_slots(slots: &[Item], into: &mut Vec<Item>)
    requires empty { into.old.items ≡ [] }
    requires room { length slots.now ≤ vec_capacity into.old }
    ensures items { into.new.items ≡ slots.now }
    ensures capacity { vec_capacity into.new ≡ vec_capacity into.old }
{
    for slot in slots {
        into.push_reserved(*slot);
    }
}

/// Puts each slot that has an item into the chain of its object.
fn chain_all(slots: &[Item], chains: &mut Lists, room: u32)
    requires fits { length slots.now ≤ room }
    requires empty { chains.old ≡ record { lists = replicate (buckets room) []; room = room } }
    ensures { AreChained slots.now room (length slots.now) chains.new }
{
    for i in 0..slots.len() {
        let item = slots[i];
        if item.count > 0 {
            chains.push_front(chain_of(item.target, room), i as u32);
        }
    }
}

impl EntryTable {
    /// Has that room from now on, which is no less than it had. The items stay, and so does their order on each walk. It puts each of them
    /// into a new hash chain, takes no memory, and gives back that of the old room.
    pub fn move_into(&mut self, room: EntryRoom)
        requires { self.old.room ≤ room }
        ensures { self.new ≡ record self.old { room = room } }
    {
        let EntryRoom {
            slots,
            chains,
            segments,
            room,
        } = room;
        let mut slots = slots;
        let mut chains = chains;
        copy_slots(&self.slots, &mut slots);
        chain_all(&slots, &mut chains, room);
        self.slots = slots;
        self.chains = chains;
        self.segments.move_into(segments);
        self.room = room;
    }

    /// Has room for so many items from now on, no fewer than before. It takes what [`EntryRoom::make`] says beside the memory that it has,
    /// moves into it as [`EntryTable::move_into`] says, and gives back the old.
    ///
    /// # Errors
    ///
    /// `NoMemory` where there is none for the new room beside the old one: then nothing has changed.
    pub fn grow(&mut self, alloc: Global, room: u32) -> Result<(), NoMemory>
        requires { self.old.room ≤ room }
        ensures ok { OnOk result (self.new ≡ record self.old { room = room }) }
        ensures err { OnErr result (self.new ≡ self.old) }
    {
        let larger = EntryRoom::make(alloc, room)?;
        self.move_into(larger);
        Ok(())
    }
}
