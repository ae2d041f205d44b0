//! The lists, linked both ways through the numbers.
ghost use Rattle.std.specs.Prelude.{◌≡◌, ◌<◌, ◌≤◌, ◌+◌, ◌∷◌, [], ℕ, Some, IfOk, IsTrue, length, replicate, slice_get, slice_set, vec_capacity};
ghost use Rattle.k_lists.specs.Lists.{AreApart, IsFree, members, is_in, without};
ghost use Rattle.k_lists.specs.Linked.{with_head, with_next, with_prev};

use k_types::NoMemory;
use std::alloc::Global;
use std::marker::Model;

/// The neighbours of a number in its list: one more than each, 0 where there is none.
#[derive(Clone, Copy)]
pub(crate) struct Links {
    pub(crate) prev: u32,
    pub(crate) next: u32,
}

/// So many lists of the numbers below a room, no number in two of them.
#[derive(Drop)]
pub struct Lists {
    pub(crate) links: Vec<Links>,
    // One more than the first number of each list; 0 where it is empty.
    pub(crate) heads: Vec<u32>,
}

impl Model for Lists {
    ghost use Rattle.k_lists.specs.Lists.{ListsValue};

    ghost Value = { ListsValue };

    ghost use Rattle.std.specs.Prelude.{◌≡◌, length, vec_capacity};
    ghost use Rattle.k_lists.specs.Linked.{lists_of, AreLinked};

    ghost view = { λ l. lists_of l.links.items l.heads.items };

    ghost invariant = { λ l. record {
      linked : AreLinked l.links.items l.heads.items;
      links_reserved : vec_capacity l.links ≡ length l.links.items;
      heads_reserved : vec_capacity l.heads ≡ length l.heads.items;
    } };
}

/// So many equal values, with memory for no more.
fn filled<T: Copy>(alloc: Global, value: T, len: usize) -> Result<Vec<T>, NoMemory>
    ensures items { IfOk result (λ values. values.items ≡ replicate len value) }
    ensures capacity { IfOk result (λ values. vec_capacity values ≡ len) }
{
    let mut values = Vec::with_capacity(alloc, len)?;
    for i in 0..len {
        values.push_reserved(value);
    }
    Ok(values)
}

/// Sets the link back of the number that a link leads to.
fn set_prev(links: &mut Vec<Links>, link: u32, prev: u32)
    requires { link ≤ length links.old.items }
    ensures links { links.new.items ≡ with_prev links.old.items link prev }
    ensures capacity { vec_capacity links.new ≡ vec_capacity links.old }
{
    if link != 0 {
        links[(link - 1) as usize].prev = prev;
    }
}

/// Sets the link on of the number that a link leads to; the head of the list where it leads to
/// none.
fn set_next(links: &mut Vec<Links>, heads: &mut Vec<u32>, list: usize, link: u32, next: u32)
    requires list { list < length heads.old.items }
    requires link { link ≤ length links.old.items }
    ensures links { links.new.items ≡ with_next links.old.items link next }
    ensures heads { heads.new.items ≡ with_head heads.old.items list link next }
    ensures capacity { vec_capacity links.new ≡ vec_capacity links.old }
    ensures heads_capacity { vec_capacity heads.new ≡ vec_capacity heads.old }
{
    if link == 0 {
        heads[list] = next;
    } else {
        links[(link - 1) as usize].next = next;
    }
}

impl Lists {
    /// So many empty lists over the numbers below the room.
    pub fn make(alloc: Global, lists: usize, room: u32) -> Result<Lists, NoMemory>
        ensures { IfOk result (λ l. l ≡ record { lists = replicate lists []; room = room }) }
    {
        let links = filled(alloc, Links { prev: 0, next: 0 }, room as usize)?;
        let heads = filled(alloc, 0u32, lists)?;
        Ok(Lists { links, heads })
    }

    /// The first number of a list.
    pub fn first(&self, list: usize) -> Option<u32>
        requires { list < length self.now.lists }
        ensures value { result ≡ slice_get (members self.now list) 0 }
        ensures apart { AreApart self.now }
    {
        self.heads[list].checked_sub(1)
    }

    /// The number after that one in its list.
    pub fn next(&self, i: u32) -> Option<u32>
        requires { i < self.now.room }
        ensures value { (list place : ℕ) → slice_get (members self.now list) place ≡ Some i → result ≡ slice_get (members self.now list) (place + 1) }
        ensures apart { AreApart self.now }
    {
        self.links[i as usize].next.checked_sub(1)
    }

    /// Puts a number that is in no list at the front of one.
    pub fn push_front(&mut self, list: usize, i: u32)
        requires list { list < length self.old.lists }
        requires room { i < self.old.room }
        requires free { IsFree self.old i }
        ensures pushed { self.new ≡ record self.old { lists = slice_set self.old.lists list (i ∷ members self.old list) } }
        ensures apart { AreApart self.new }
    {
        let head = self.heads[list];
        self.links[i as usize] = Links {
            prev: 0,
            next: head,
        };
        set_prev(&mut self.links, head, i + 1);
        self.heads[list] = i + 1;
    }

    /// Takes a number out of the list in which it is.
    pub fn remove(&mut self, list: usize, i: u32)
        requires { IsTrue (is_in (members self.old list) i) }
        ensures removed { self.new ≡ record self.old { lists = slice_set self.old.lists list (without i (members self.old list)) } }
        ensures apart { AreApart self.new }
    {
        let Links { prev, next } = self.links[i as usize];
        set_next(&mut self.links, &mut self.heads, list, prev, next);
        set_prev(&mut self.links, next, prev);
    }
}
