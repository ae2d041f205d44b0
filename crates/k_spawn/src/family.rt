//! Processes and their children.
ghost use Rattle.std.specs.Prelude.{◌≡◌, ◌<◌, ◌≤◌, ◌+◌, ◌++◌, ◌∷◌, [], length, map, slice_index_or, IfOk, IsTrue, OnOk, OnErr};
ghost use Rattle.std.specs.List.{AllByRecursion};
ghost use Rattle.k_spawn.specs.Families.{is_child, is_parent, place_of, reaped_within, reaped_with};

use k_types::{NoMemory, Pid, push};
use std::alloc::Global;
use std::marker::Model;

/// The processes of a script: how many stand in the header, and the parent of each child behind them.
///
/// There are at most 64 of them together, and each parent stands before its child.
pub struct Family {
    first: u32,
    parents: Vec<Pid>,
}

impl Drop for Family {
    fn drop(self) {
        let Family {
            first: _,
            parents: _,
        } = self;
    }
}

impl Model for Family {
    ghost use Rattle.k_spawn.specs.Families.{Family, IsFamily};

    ghost Value = { Family };

    ghost view = { λ f. record { first = f.first; parents = f.parents.items } };

    ghost invariant = { λ f. IsFamily (record { first = f.first; parents = f.parents.items }) };
}

impl Family {
    /// No process.
    pub(crate) fn new(alloc: Global) -> Family
        ensures { result ≡ record { first = 0; parents = [] } }
    {
        Family {
            first: 0,
            parents: Vec::new(alloc),
        }
    }

    /// The header has so many processes. No child was declared yet.
    pub(crate) fn set_first(&mut self, first: u32)
        requires none { self.old.parents ≡ [] }
        requires few { first ≤ 64 }
        ensures { self.new ≡ record { first = first; parents = [] } }
    {
        self.first = first;
    }

    /// Adds a child of that process.
    pub(crate) fn add(&mut self, parent: Pid) -> Result<(), NoMemory>
        requires few { self.old.first + length self.old.parents < 64 }
        requires before { parent.0 < self.old.first + length self.old.parents }
        ensures ok { OnOk result (self.new ≡ record self.old { parents = self.old.parents ++ parent ∷ [] }) }
        ensures unchanged { OnErr result (self.new ≡ self.old) }
    {
        push(&mut self.parents, parent)
    }

    /// How many children there are.
    pub fn len(&self) -> usize
        ensures count { result ≡ length self.now.parents }
        ensures few { self.now.first + result ≤ 64 }
    {
        self.parents.len()
    }

    /// How many processes there are, children among them.
    pub fn process_count(&self) -> usize
        ensures count { result ≡ self.now.first + length self.now.parents }
        ensures few { result ≤ 64 }
    {
        self.first as usize + self.parents.len()
    }

    /// The process of the child at that place.
    pub fn child_at(&self, place: usize) -> Pid
        requires { place < length self.now.parents }
        ensures process { result.0 ≡ self.now.first + place }
        ensures few { result.0 < 64 }
    {
        Pid(self.first + place as u32)
    }

    /// The parent of the child at that place.
    pub fn parent_at(&self, place: usize) -> Pid
        requires { place < length self.now.parents }
        ensures parent { result ≡ slice_index_or self.now.parents place result }
        ensures before { result.0 < self.now.first + place }
    {
        self.parents[place]
    }

    /// Whether the process is a child.
    pub fn is_child(&self, pid: Pid) -> bool
        ensures { result ≡ is_child self.now pid.0 }
    {
        self.first <= pid.0
    }

    /// The place of a child among the children.
    pub fn place_of(&self, child: Pid) -> usize
        requires child { IsTrue (is_child self.now child.0) }
        requires known { child.0 < self.now.first + length self.now.parents }
        ensures place { result ≡ place_of self.now child.0 }
        ensures within { result < length self.now.parents }
        ensures few { result < 64 }
    {
        (child.0 - self.first) as usize
    }

    /// Whether the first process is the parent of the second, which is a child.
    pub fn is_parent(&self, pid: Pid, child: Pid) -> bool
        requires { child.0 < self.now.first + length self.now.parents }
        ensures { result ≡ is_parent self.now pid.0 child.0 }
    {
        if !self.is_child(child) {
            return false;
        }
        self.parents[self.place_of(child)].0 == pid.0
    }

    /// Adds the list of a process to another list, where the tree below the process is at most so deep.
    fn add_reaped(&self, depth: usize, pid: Pid, list: &mut Vec<Pid>) -> Result<(), NoMemory>
        ensures { OnOk result (map (λ it. it.0) list.new.items ≡ map (λ it. it.0) list.old.items ++ reaped_within self.now depth pid.0) }
    {
        if depth == 0 {
            return Ok(());
        }
        for place in 0..self.parents.len() {
            if self.parents[place].0 == pid.0 {
                self.add_reaped(depth - 1, Pid(self.first + place as u32), list)?;
            }
        }
        push(list, pid)
    }

    /// Whom the reaping of a child ends, in order: the lists of its own children, and then itself.
    ///
    /// # Errors
    ///
    /// `NoMemory` where the list finds no room.
    pub fn reaped_with(&self, alloc: Global, child: Pid) -> Result<Vec<Pid>, NoMemory>
        requires { child.0 < self.now.first + length self.now.parents }
        ensures list { IfOk result (λ list. map (λ it. it.0) list.items ≡ reaped_with self.now child.0) }
        ensures known { IfOk result (λ list. AllByRecursion (λ p. p < self.now.first + length self.now.parents) (map (λ it. it.0) list.items)) }
        ensures few { self.now.first + length self.now.parents ≤ 64 }
    {
        let mut list = Vec::new(alloc);
        self.add_reaped(self.parents.len(), child, &mut list)?;
        Ok(list)
    }
}
