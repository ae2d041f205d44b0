//! Walks over the entered and the pinned objects of a heap, and copies of them.
ghost use Rattle.std.specs.Prelude.{◌≡◌, ◌<◌, option_map, vec_capacity};
ghost use Rattle.k_types.specs.Counted.{counted};
ghost use Rattle.k_types.specs.Names.{name_of};
ghost use Rattle.k_entry.specs.Copies.{IsCopied};
ghost use Rattle.k_entry.specs.Entries.{AreEntries, first_object, home_of, items_of, object_after, objects};
ghost use Rattle.k_book.specs.Books.{book_entries, book_pins};

use crate::parts::Book;
use k_types::{Heap, Link, Name};

impl Book {
    /// The first entered object of the heap, on a walk that passes each of its entered objects once.
    pub fn first_entry(&self, heap: Heap) -> Option<Link>
        ensures first { option_map name_of result ≡ first_object (items_of (book_entries self.now) heap) }
        ensures items { AreEntries (book_entries self.now) }
    {
        self.entered.first_entry(heap)
    }

    /// The entered object after that one on the walk of its heap.
    pub fn next_entry(&self, target: Link) -> Option<Link>
        requires { 0 < counted self.now.value.entries (name_of target) }
        ensures { option_map name_of result ≡ object_after (items_of (book_entries self.now) (home_of self.now.value.homes target.seg.0)) (name_of target) }
    {
        self.entered.next_entry(target)
    }

    /// The first pinned object of the heap, on a walk that passes each of its pinned objects once.
    pub fn first_pin(&self, heap: Heap) -> Option<Link>
        ensures first { option_map name_of result ≡ first_object (items_of (book_pins self.now) heap) }
        ensures items { AreEntries (book_pins self.now) }
    {
        self.entered.first_pin(heap)
    }

    /// The pinned object after that one on the walk of its heap.
    pub fn next_pin(&self, target: Link) -> Option<Link>
        requires { 0 < counted self.now.value.pins (name_of target) }
        ensures { option_map name_of result ≡ object_after (items_of (book_pins self.now) (home_of self.now.value.homes target.seg.0)) (name_of target) }
    {
        self.entered.next_pin(target)
    }

    /// Copies the entered objects of the heap to the end of the row, as far as there is room, and tells whether these were all. The
    /// cost is in proportion to what it copies and to the heap's segments.
    pub fn copy_entered(&self, heap: Heap, row: &mut Vec<Name>) -> bool
        ensures copied { IsCopied (vec_capacity row.old) row.old.items row.new.items (objects (items_of (book_entries self.now) heap)) result }
        ensures capacity { vec_capacity row.new ≡ vec_capacity row.old }
        ensures items { AreEntries (book_entries self.now) }
    {
        self.entered.copy_entered(heap, row)
    }

    /// Copies the pinned objects of the heap in the same way.
    pub fn copy_pinned(&self, heap: Heap, row: &mut Vec<Name>) -> bool
        ensures copied { IsCopied (vec_capacity row.old) row.old.items row.new.items (objects (items_of (book_pins self.now) heap)) result }
        ensures capacity { vec_capacity row.new ≡ vec_capacity row.old }
        ensures items { AreEntries (book_pins self.now) }
    {
        self.entered.copy_pinned(heap, row)
    }
}
