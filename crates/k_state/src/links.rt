//! The chains on which exit items are found.
ghost use Rattle.std.specs.Prelude.{◌≡◌, ◌<◌, ◌≤◌, ◌+◌, ◌^◌, [], length, IfNone, IfOk, IfSome, IsFalse, OnOk};
ghost use Rattle.k_state.specs.Links.{AreFound, AreLinked, HaveRoom, IsExitAt};
ghost use Rattle.k_types.specs.State.{has_exit};

use crate::items::ExitItem;
use k_lists::chain_of;
use k_types::{Heap, Name, NoMemory};
use std::alloc::Global;
use std::marker::Model;

// The most chains that there are.
const MOST_CHAINS: usize = 0x1_0000_0000;

// The least room that is made.
const LEAST_ROOM: usize = 8;

// Chains of the exit items whose targets have the same hash, from the last item to the first. Each item is given as how many
// stand up to it, and none where there is none.
#[derive(Drop)]
pub(crate) struct Links {
    // For each chain its last item.
    lasts: Vec<usize>,
    // For each item the one before it in its chain.
    befores: Vec<usize>,
}

impl Model for Links {
    ghost use Rattle.k_state.specs.Links.{Links as Linked};

    ghost Value = { Linked };

    ghost view = { λ l. record { lasts = l.lasts.items; befores = l.befores.items } };
}

impl Links {
    // No chains, and room for no item.
    pub(crate) fn none(alloc: Global) -> Links
        ensures { result ≡ record { lasts = []; befores = [] } }
    {
        Links {
            lasts: Vec::new(alloc),
            befores: Vec::new(alloc),
        }
    }

    // These items on their chains, with room for no more.
    pub(crate) fn of(alloc: Global, items: &[ExitItem]) -> Result<Links, NoMemory>
        requires { length items.now < 2 ^ 32 }
        ensures { IfOk result (λ links. AreFound items.now links) }
    {
        let mut links = Links {
            lasts: vec![in alloc; 0; items.len()]?,
            befores: vec![in alloc; 0; items.len()]?,
        };
        links.link_all(items);
        Ok(links)
    }

    // The place of the heap's last exit item to that target.
    pub(crate) fn find(&self, items: &[ExitItem], heap: Heap, target: Name) -> Option<usize>
        requires { AreFound items.now self.now }
        ensures some { IfSome result (λ at. IsExitAt items.now heap target at) }
        ensures none { IfNone result (IsFalse (has_exit items.now heap target)) }
    {
        if self.lasts.is_empty() {
            return None;
        }
        let mut up_to = self.lasts[chain_of(self.lasts.len(), target)];
        while up_to > 0 {
            let at = up_to - 1;
            if items[at].is(heap, target) {
                return Some(at);
            }
            up_to = self.befores[at];
        }
        None
    }

    // Makes room for one item more than these, and links these anew where there was none. `NoMemory` comes where the room finds
    // no memory, and leaves them linked.
    pub(crate) fn make_room(&mut self, items: &[ExitItem]) -> Result<(), NoMemory>
        requires linked { AreFound items.now self.old }
        requires few { 1 + length items.now < 2 ^ 32 }
        ensures linked { AreFound items.now self.new }
        ensures room { OnOk result (HaveRoom (1 + length items.now) self.new) }
    {
        let count = items.len();
        if count < self.lasts.len() && count < self.befores.len() {
            return Ok(());
        }
        let room = (2 * count + LEAST_ROOM).min(MOST_CHAINS);
        self.befores.resize(room, 0)?;
        self.lasts.resize(room, 0)?;
        self.link_all(items);
        Ok(())
    }

    // Puts the item of that place at the end of its chain.
    pub(crate) fn link(&mut self, items: &[ExitItem], at: usize)
        requires place { at < length items.now }
        requires linked { AreLinked items.now at (length self.old.lasts) self.old }
        requires room { HaveRoom (length items.now) self.old }
        ensures linked { AreLinked items.now (at + 1) (length self.new.lasts) self.new }
        ensures lasts { length self.new.lasts ≡ length self.old.lasts }
        ensures befores { length self.new.befores ≡ length self.old.befores }
    {
        let chain = chain_of(self.lasts.len(), items[at].target());
        self.befores[at] = self.lasts[chain];
        self.lasts[chain] = at + 1;
    }

    // Links all items. Walks over them and over the chains.
    fn link_all(&mut self, items: &[ExitItem])
        requires { HaveRoom (length items.now) self.old }
        ensures linked { AreFound items.now self.new }
        ensures lasts { length self.new.lasts ≡ length self.old.lasts }
        ensures befores { length self.new.befores ≡ length self.old.befores }
    {
        self.lasts.fill(0);
        for at in 0..items.len() {
            self.link(items, at);
        }
    }

    // Links all items anew, on no more chains than they need.
    pub(crate) fn link_anew(&mut self, items: &[ExitItem])
        requires { HaveRoom (length items.now) self.old }
        ensures { AreFound items.now self.new }
    {
        self.lasts.truncate(2 * items.len() + LEAST_ROOM);
        self.link_all(items);
    }
}
