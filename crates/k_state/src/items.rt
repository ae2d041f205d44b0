//! Exit items, shares and open collections.
ghost use Rattle.std.specs.Prelude.{◌≡◌, ◌==◌, ◌&&◌};
ghost use Rattle.k_types.specs.Names.{heap_eq, name_eq, among};
ghost use Rattle.k_types.specs.State.{has_share};

use crate::names::{is_same_heap, is_same_name};
use k_types::{Heap, Name, Pid, SharedId};
use std::marker::Model;

/// An exit item: the heap refers to that object, which it does not own.
#[derive(Drop)]
pub struct ExitItem {
    heap: Heap,
    target: Name,
}

impl Model for ExitItem {
    ghost use Rattle.k_types.specs.State.{ExitItem as Item};

    ghost Value = { Item };

    ghost view = { λ e. record { heap = e.heap; target = e.target } };
}

impl ExitItem {
    /// The heap's exit item to that object.
    pub fn of(heap: Heap, target: Name) -> ExitItem
        ensures { result ≡ record { heap = heap; target = target } }
    {
        ExitItem { heap, target }
    }

    /// The heap that refers.
    pub fn heap(&self) -> Heap
        ensures { result ≡ self.now.heap }
    {
        self.heap
    }

    /// The object to which it refers.
    pub fn target(&self) -> Name
        ensures { result ≡ self.now.target }
    {
        self.target
    }

    /// Whether it is an item of the heap.
    pub fn is_of(&self, heap: Heap) -> bool
        ensures { result ≡ heap_eq self.now.heap heap }
    {
        is_same_heap(self.heap, heap)
    }

    /// Whether it is the heap's item to that target.
    pub fn is(&self, heap: Heap, target: Name) -> bool
        ensures { result ≡ (heap_eq self.now.heap heap && name_eq self.now.target target) }
    {
        is_same_heap(self.heap, heap) && is_same_name(self.target, target)
    }

    // The item is the other heap's from now on.
    pub(crate) fn pass_to(&mut self, heap: Heap)
        ensures { self.new ≡ record self.old { heap = heap } }
    {
        self.heap = heap;
    }
}

/// A share: the process pays for the shared heap.
#[derive(Drop)]
pub struct Share {
    process: Pid,
    heap: SharedId,
}

impl Model for Share {
    ghost use Rattle.k_types.specs.State.{Sharing};

    ghost Value = { Sharing };

    ghost view = { λ e. record { process = e.process.0; heap = e.heap.0 } };
}

impl Share {
    /// The process's share of that heap.
    pub fn of(process: Pid, heap: SharedId) -> Share
        ensures { result ≡ record { process = process.0; heap = heap.0 } }
    {
        Share { process, heap }
    }

    /// Whether it is the process's share of that heap.
    pub fn is(&self, pid: Pid, shared: SharedId) -> bool
        ensures { result ≡ ((self.now.process == pid.0) && (self.now.heap == shared.0)) }
    {
        self.process.0 == pid.0 && self.heap.0 == shared.0
    }

    /// The process that pays.
    pub fn process(&self) -> Pid
        ensures { result.0 ≡ self.now.process }
    {
        self.process
    }

    /// The shared heap for which it pays.
    pub fn heap(&self) -> SharedId
        ensures { result.0 ≡ self.now.heap }
    {
        self.heap
    }
}

/// An open collection of a heap, with the roots that it began with.
#[derive(Drop)]
pub struct Scan {
    heap: Heap,
    roots: Vec<Name>,
}

impl Model for Scan {
    ghost use Rattle.k_types.specs.State.{Scan as Opened};

    ghost Value = { Opened };

    ghost view = { λ s. record { heap = s.heap; roots = s.roots.items } };
}

impl Scan {
    pub(crate) fn of(heap: Heap, roots: Vec<Name>) -> Scan
        ensures { result ≡ record { heap = heap; roots = roots.items } }
    {
        Scan { heap, roots }
    }

    /// Whether it is a collection of the heap.
    pub fn is_of(&self, heap: Heap) -> bool
        ensures { result ≡ heap_eq self.now.heap heap }
    {
        is_same_heap(self.heap, heap)
    }

    /// The roots with which it began.
    pub fn roots(&self) -> &[Name]
        ensures { result.now ≡ self.now.roots }
    {
        &self.roots
    }
}

pub(crate) fn is_among(numbers: &[u32], n: u32) -> bool
    ensures { result ≡ among n numbers.now }
{
    for m in numbers {
        if *m == n {
            return true;
        }
    }
    false
}

pub(crate) fn has_share(shares: &[Share], pid: Pid, shared: SharedId) -> bool
    ensures { result ≡ has_share shares.now pid.0 shared.0 }
{
    for e in shares {
        if e.is(pid, shared) {
            return true;
        }
    }
    false
}
