//! The table of the exit items of one heap.
ghost use Rattle.std.specs.Prelude.{◌≡◌, ◌<◌, ◌≤◌, ◌⊎◌, ◌++◌, not, [], ℕ, IsTrue, IsFalse, Some, None, IfOk, IfSome, IfNone, length, map, take, drop, slice_get, vec_capacity, ◌==◌};
ghost use Rattle.std.specs.List.{list_any};
ghost use Rattle.std.specs.List.Sorted.{IsPermutation};
ghost use Rattle.k_types.specs.declared.names.Name.{Name};
ghost use Rattle.k_types.specs.Names.{name_of};
ghost use Rattle.k_exit.specs.Exits.{ExitRow, ExitList, AreDistinct, AreInOrder, IsTaken, has_target, target_marked, with_first_marked, with_target, with_marked, unmarked, unmarked_row, leads_into};
ghost use Rattle.k_lists.specs.Hash.{bucket};
ghost use Rattle.k_exit.specs.Chains.{row_of, is_wanted, marked_item, unmarked_item, IsLastWanted, HasNoneWanted, HasPassed};

use crate::chains::{Item, empty_heads, find, find_in, link_in, relink, remove};
use k_lists::chain_of;
use k_types::{Link, Name, NoMemory, Seg, Slot};
use std::alloc::Global;
use std::marker::Model;

/// What a call takes out.
#[derive(Clone, Copy)]
pub(crate) enum Wanted {
    Any,
    Unmarked,
    Into(Seg),
}

/// The exit items of one heap: distinct targets, each marked or not, in a table of a fixed room.
/// Source: KaffeOS paper, on exit items; the hash chains are own.
pub struct ExitTable {
    pub(crate) items: Vec<Item>,
    pub(crate) heads: Vec<u32>,
    // No item from place `from` on is wanted, so that the next call need not look there again.
    pub(crate) wanted: Wanted,
    pub(crate) from: usize,
}

impl Drop for ExitTable {
    fn drop(self) {
        let ExitTable {
            items: _,
            heads: _,
            wanted: _,
            from: _,
        } = self;
    }
}

impl Model for ExitTable {
    ghost use Rattle.k_exit.specs.Exits.{ExitList};

    ghost Value = { ExitList };

    ghost use Rattle.std.specs.Prelude.{length, map, vec_capacity, ◌≡◌};
    ghost use Rattle.k_exit.specs.Exits.{AreDistinct};
    ghost use Rattle.k_lists.specs.Hash.{bucket};
    ghost use Rattle.k_exit.specs.Chains.{row_of, IsChained, HasPassed};

    ghost view = { λ t. record { items = map row_of t.items.items; room = length t.heads.items } };

    ghost invariant = { λ t. record {
      chained : IsChained t.items.items t.heads.items;
      reserved : vec_capacity t.items ≡ length t.heads.items;
      heads_reserved : vec_capacity t.heads ≡ length t.heads.items;
      distinct : AreDistinct (map row_of t.items.items);
      passed : HasPassed (map row_of t.items.items) t.wanted t.from;
    } };
}

/// Takes all marks away.
fn unmark(items: &mut Vec<Item>)
    ensures items { items.new.items ≡ map unmarked_item items.old.items }
    ensures capacity { vec_capacity items.new ≡ vec_capacity items.old }
{
    for i in 0..items.len() {
        items[i].marked = false;
    }
}

/// Marks so many items from the first one on.
fn mark_front(items: &mut Vec<Item>, count: usize)
    requires { count ≤ length items.old.items }
    ensures items { items.new.items ≡ map marked_item (take count items.old.items) ++ drop count items.old.items }
    ensures capacity { vec_capacity items.new ≡ vec_capacity items.old }
{
    for i in 0..count {
        items[i].marked = true;
    }
}

/// The last place below `end` of an item that is wanted.
fn last_wanted(items: &[Item], wanted: Wanted, end: usize) -> Option<usize>
    requires { end ≤ length items.now }
    ensures some { IfSome result (λ i. IsLastWanted (map row_of items.now) wanted end i) }
    ensures none { IfNone result (HasNoneWanted (map row_of items.now) wanted end) }
{
    let mut i = end;
    while i > 0 {
        i -= 1;
        if wanted.fits(&items[i]) {
            return Some(i);
        }
    }
    None
}

/// Whether some target lies in the segment.
fn some_in(items: &[Item], seg: Seg) -> bool
    ensures { result ≡ list_any (λ x. x.target.seg.0 == seg.0) items.now }
{
    items.iter().any(|item| item.target.seg.0 == seg.0)
}

impl Wanted {
    fn is_same(self, other: Wanted) -> bool
        ensures { IsTrue result → self ≡ other }
    {
        match (self, other) {
            (Wanted::Any, Wanted::Any) => true,
            (Wanted::Unmarked, Wanted::Unmarked) => true,
            (Wanted::Into(a), Wanted::Into(b)) => a.0 == b.0,
            _ => false,
        }
    }

    fn fits(self, item: &Item) -> bool
        ensures { result ≡ is_wanted self (row_of item.now) }
    {
        match self {
            Wanted::Any => true,
            Wanted::Unmarked => !item.marked,
            Wanted::Into(seg) => item.target.seg.0 == seg.0,
        }
    }
}

impl ExitTable {
    /// A table with no target, and room for so many. It takes the memory for all of them at once;
    /// `NoMemory` comes where there is none.
    pub fn make(alloc: Global, room: u32) -> Result<ExitTable, NoMemory>
        ensures { IfOk result (λ t. t ≡ record { items = []; room = room }) }
    {
        let items = Vec::with_capacity(alloc, room as usize)?;
        let heads = empty_heads(alloc, room)?;
        Ok(ExitTable {
            items,
            heads,
            wanted: Wanted::Any,
            from: 0,
        })
    }

    /// The number of targets. They are distinct, and as many as the room at most.
    pub fn len(&self) -> u32
        ensures len { result ≡ length self.now.items }
        ensures distinct { AreDistinct self.now.items }
        ensures room { length self.now.items ≤ self.now.room }
    {
        self.items.len() as u32
    }

    /// Whether the target is there. It passes one chain at most.
    pub fn has(&self, target: Name) -> bool
        ensures { result ≡ has_target self.now.items target }
    {
        find(&self.items, &self.heads, target).is_some()
    }

    /// Whether some target lies in that segment. It passes each item until it finds one.
    pub fn leads_into(&self, seg: Seg) -> bool
        ensures { result ≡ leads_into self.now.items seg.0 }
    {
        some_in(&self.items, seg)
    }

    /// The target at place `i` of the list, counted from 0. Constant time.
    pub fn target(&self, i: u32) -> Name
        requires { i < length self.now.items }
        ensures { (row : ExitRow) → slice_get self.now.items i ≡ Some row → result ≡ row.target }
    {
        self.items[i as usize].target
    }

    /// Adds the target, unmarked, where it is new, and says whether it was. It comes last. It hashes the
    /// target once, passes one chain at most, and takes no memory.
    pub fn add(&mut self, target: Link) -> bool
        requires { IsTrue (has_target self.old.items (name_of target)) ⊎ (length self.old.items < self.old.room) }
        ensures value { result ≡ not (has_target self.old.items (name_of target)) }
        ensures added { self.new ≡ with_target self.old (name_of target) }
    {
        let name = target.name();
        if self.heads.is_empty() {
            unreachable!()
        }
        let chain = chain_of(self.heads.len(), name);
        if self.has_in(chain, name) {
            return false;
        }
        let i = self.items.len();
        self.items.push_reserved(Item {
            target: name,
            marked: false,
            next: 0,
        });
        link_in(&mut self.items, &mut self.heads, chain, i + 1, i);
        self.from = i + 1;
        true
    }

    /// Marks the target. It passes one chain at most.
    pub fn mark(&mut self, target: Name)
        requires { IsTrue (has_target self.old.items target) }
        ensures { self.new ≡ with_marked self.old target }
    {
        let Some(i) = find(&self.items, &self.heads, target) else {
            unreachable!()
        };
        self.items[i].marked = true;
    }

    /// Marks so many targets from the first one on. It passes these items.
    pub fn mark_first(&mut self, count: u32)
        requires { count ≤ length self.old.items }
        ensures { self.new ≡ with_first_marked self.old count }
    {
        mark_front(&mut self.items, count as usize);
        self.from = self.items.len();
    }

    /// Takes all marks away. It passes each item.
    pub fn unmark_all(&mut self)
        ensures { self.new ≡ unmarked self.old }
    {
        unmark(&mut self.items);
        self.from = self.items.len();
    }

    /// Puts the list in order of segment and serial. It sorts in place, and takes no memory.
    pub fn arrange(&mut self)
        ensures items { IsPermutation self.old.items self.new.items }
        ensures order { AreInOrder self.new.items }
        ensures targets { (n : Name) → has_target self.new.items n ≡ has_target self.old.items n }
        ensures marks { (n : Name) → target_marked self.new.items n ≡ target_marked self.old.items n }
        ensures distinct { AreDistinct self.new.items }
        ensures room { self.new.room ≡ self.old.room }
    {
        self.items.sort_unstable_by_key(|item| item.target);
        relink(&mut self.items, &mut self.heads);
        self.from = self.items.len();
    }

    /// Removes a target that isn't marked. Calls until there is none pass each item once.
    pub fn take_unmarked(&mut self) -> Option<Link>
        ensures some { IfSome result (λ link. (row : ExitRow) × IsTaken self.old self.new link row × IsFalse row.marked) }
        ensures none { IfNone result ((i : ℕ) (row : ExitRow) → slice_get self.old.items i ≡ Some row → IsTrue row.marked) }
        ensures kept { IfNone result (self.new ≡ self.old) }
    {
        self.take(Wanted::Unmarked)
    }

    /// Removes a target that lies in that segment. Calls for one segment until there is none pass each
    /// item once.
    pub fn take_into(&mut self, seg: Seg) -> Option<Link>
        ensures some { IfSome result (λ link. (row : ExitRow) × IsTaken self.old self.new link row × (row.target.seg.0 ≡ seg.0)) }
        ensures none { IfNone result (IsFalse (leads_into self.old.items seg.0)) }
        ensures kept { IfNone result (self.new ≡ self.old) }
    {
        self.take(Wanted::Into(seg))
    }

    /// Removes some target. Constant time.
    pub fn take_first(&mut self) -> Option<Link>
        ensures some { IfSome result (λ link. (row : ExitRow) × IsTaken self.old self.new link row) }
        ensures none { IfNone result (self.old.items ≡ []) }
        ensures kept { IfNone result (self.new ≡ self.old) }
    {
        self.take(Wanted::Any)
    }

    /// Whether the target is there, by the number of its chain.
    fn has_in(&self, chain: usize, target: Name) -> bool
        requires chain { chain ≡ bucket self.now.room target }
        requires within { chain < self.now.room }
        ensures { result ≡ has_target self.now.items target }
    {
        find_in(&self.items, &self.heads, chain, target).is_some()
    }

    /// From where on no item is wanted.
    fn start(&self, wanted: Wanted) -> usize
        ensures { HasPassed self.now.items wanted result }
    {
        if self.wanted.is_same(wanted) {
            self.from
        } else {
            self.items.len()
        }
    }

    fn take(&mut self, wanted: Wanted) -> Option<Link>
        ensures some { IfSome result (λ link. (row : ExitRow) × IsTaken self.old self.new link row × IsTrue (is_wanted wanted row)) }
        ensures none { IfNone result (HasNoneWanted self.old.items wanted (length self.old.items)) }
        ensures kept { IfNone result (self.new ≡ self.old) }
    {
        let end = self.start(wanted);
        let found = last_wanted(&self.items, wanted, end);
        self.wanted = wanted;
        match found {
            Some(i) => {
                let target = remove(&mut self.items, &mut self.heads, i);
                self.from = i;
                Some(Link {
                    seg: target.seg,
                    slot: Slot(0),
                    serial: target.serial,
                })
            }
            None => {
                self.from = 0;
                None
            }
        }
    }
}
