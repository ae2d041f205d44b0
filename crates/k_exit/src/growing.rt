//! More room for exit items.
ghost use Rattle.std.specs.Prelude.{◌≡◌, ◌≤◌, [], IfOk, OnErr, OnOk, length, vec_capacity};

use crate::chains::{Item, empty_heads, relink};
use crate::table::ExitTable;
use k_types::NoMemory;
use std::alloc::Global;
use std::marker::Model;

/// Memory for so many exit items, which a table can have in place of its own.
#[derive(Drop)]
pub struct ExitRoom {
    items: Vec<Item>,
    heads: Vec<u32>,
}

impl Model for ExitRoom {
    ghost use Rattle.std.specs.Prelude.{◌≡◌, ◌<◌, ◌^◌, ℕ, [], length, vec_capacity};

    ghost Value = { ℕ };

    ghost view = { λ r. length r.heads.items };

    ghost invariant = { λ r. record {
      empty : r.items.items ≡ [];
      reserved : vec_capacity r.items ≡ length r.heads.items;
      heads_reserved : vec_capacity r.heads ≡ length r.heads.items;
      small : length r.heads.items < 2 ^ 32;
    } };
}

impl ExitRoom {
    /// Memory for so many, 20 bytes for each, all of it at once. It writes a number for each.
    ///
    /// # Errors
    ///
    /// `NoMemory` where there is none.
    pub fn make(alloc: Global, room: u32) -> Result<ExitRoom, NoMemory>
        ensures { IfOk result (λ r. r ≡ room) }
    {
        let items = Vec::with_capacity(alloc, room as usize)?;
        let heads = empty_heads(alloc, room)?;
        Ok(ExitRoom { items, heads })
    }
}

/// Copies the items into a list that has none yet.
fn copy_items(items: &[Item], into: &mut Vec<Item>)
    requires empty { into.old.items ≡ [] }
    requires room { length items.now ≤ vec_capacity into.old }
    ensures items { into.new.items ≡ items.now }
    ensures capacity { vec_capacity into.new ≡ vec_capacity into.old }
{
    for item in items {
        into.push_reserved(*item);
    }
}

impl ExitTable {
    /// Has that room from now on, which is enough for its targets. These stay, each marked or not as it was, and in their order. It
    /// links each of them anew, takes no memory, and gives back that of the old room.
    pub fn move_into(&mut self, room: ExitRoom)
        requires { length self.old.items ≤ room }
        ensures { self.new ≡ record self.old { room = room } }
    {
        let ExitRoom { items, heads } = room;
        let mut items = items;
        let mut heads = heads;
        copy_items(&self.items, &mut items);
        relink(&mut items, &mut heads);
        self.items = items;
        self.heads = heads;
    }

    /// Has room for so many targets from now on, no fewer than before. It takes what [`ExitRoom::make`] says beside the memory that it has,
    /// moves into it as [`ExitTable::move_into`] says, and gives back the old.
    ///
    /// # Errors
    ///
    /// `NoMemory` where there is none for the new room beside the old one: then nothing has changed.
    pub fn grow(&mut self, alloc: Global, room: u32) -> Result<(), NoMemory>
        requires { self.old.room ≤ room }
        ensures ok { OnOk result (self.new ≡ record self.old { room = room }) }
        ensures err { OnErr result (self.new ≡ self.old) }
    {
        let _held = self.len();
        let larger = ExitRoom::make(alloc, room)?;
        self.move_into(larger);
        Ok(())
    }
}
