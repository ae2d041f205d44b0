//! The exit items, with the chains on which one is found.
ghost use Rattle.std.specs.Prelude.{◌≡◌, ◌<◌, ◌+◌, ◌++◌, ◌∷◌, [], ◌^◌, length, IfNone, IfOk, IfSome, IsFalse, OnErr, OnOk, Option};
ghost use Rattle.k_state.specs.Links.{IsExitAt};
ghost use Rattle.k_state.specs.Marks.{marked, staying_items};
ghost use Rattle.k_types.specs.State.{has_exit};

use crate::items::ExitItem;
use crate::keeping::keep_marked;
use crate::links::Links;
use crate::turning::turn;
use k_types::{Heap, Name, NoMemory, push};
use std::alloc::Global;
use std::marker::Model;

// The exit items, in the order in which they were added. Each is found by the hash of its target.
#[derive(Drop)]
pub(crate) struct Exits {
    items: Vec<ExitItem>,
    links: Links,
}

impl Model for Exits {
    ghost use Rattle.std.specs.Prelude.{List};
    ghost use Rattle.k_state.specs.Links.{AreFound};
    ghost use Rattle.k_types.specs.State.{ExitItem as Item};

    ghost Value = { List Item };

    ghost view = { λ e. e.items.items };

    ghost invariant = { λ e. AreFound e.items.items e.links };
}

impl Exits {
    // No exit items.
    pub(crate) fn none(alloc: Global) -> Exits
        ensures { result ≡ [] }
    {
        Exits {
            items: Vec::new(alloc),
            links: Links::none(alloc),
        }
    }

    // These exit items. `NoMemory` comes where their chains find no memory.
    pub(crate) fn of(alloc: Global, items: Vec<ExitItem>) -> Result<Exits, NoMemory>
        requires { length items.items < 2 ^ 32 }
        ensures { IfOk result (λ exits. exits ≡ items.items) }
    {
        let links = Links::of(alloc, &items)?;
        Ok(Exits { items, links })
    }

    // All of them, in their order.
    pub(crate) fn all(&self) -> &[ExitItem]
        ensures { result.now ≡ self.now }
    {
        &self.items
    }

    // The place of the heap's last exit item to that target.
    pub(crate) fn find(&self, heap: Heap, target: Name) -> Option<usize>
        ensures some { IfSome result (λ at. IsExitAt self.now heap target at) }
        ensures none { IfNone result (IsFalse (has_exit self.now heap target)) }
    {
        self.links.find(&self.items, heap, target)
    }

    // Whether the heap has an exit item to that target.
    pub(crate) fn has(&self, heap: Heap, target: Name) -> bool
        ensures { result ≡ has_exit self.now heap target }
    {
        self.find(heap, target).is_some()
    }

    // Puts the item at the end.
    pub(crate) fn push(&mut self, item: ExitItem) -> Result<(), NoMemory>
        requires { 1 + length self.old < 2 ^ 32 }
        ensures ok { OnOk result (self.new ≡ self.old ++ item ∷ []) }
        ensures err { OnErr result (self.new ≡ self.old) }
    {
        let at = self.items.len();
        self.links.make_room(&self.items)?;
        push(&mut self.items, item)?;
        self.links.link(&self.items, at);
        Ok(())
    }

    // The marked items stay, the others go. Walks over all of them, and links them anew where one goes.
    pub(crate) fn keep(&mut self, stays: &[bool])
        requires { length stays.now ≡ length self.old }
        ensures { self.new ≡ marked stays.now self.old }
    {
        let count = self.items.len();
        keep_marked(&mut self.items, stays);
        if self.items.len() < count {
            self.links.link_anew(&self.items);
        }
    }

    // Each item is of the heap that is given for it, or goes where none is given. Links them anew.
    pub(crate) fn turn(&mut self, heaps: &[Option<Heap>])
        requires { length heaps.now ≡ length self.old }
        ensures { self.new ≡ staying_items heaps.now self.old }
    {
        turn(&mut self.items, heaps);
        self.links.link_anew(&self.items);
    }
}
