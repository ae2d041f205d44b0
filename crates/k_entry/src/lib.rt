//! Counted objects: how often each is held from outside its heap.
//!
//! An [`EntryTable`] is a list of objects with counts above 0, a room, and for each segment its home
//! heap. The contracts say what each call changes of the counts, and leave the order of the items
//! free. A walk from [`EntryTable::first_of`] by [`EntryTable::next`] gives each object of a home
//! once, and [`EntryTable::copy_of`] copies what it gives into a row. Only [`EntryTable::make`],
//! [`EntryTable::grow`] and [`EntryRoom::make`] take memory.
//!
//! The items stand in slots, and lists linked by index lead to them: by a fixed hash of the object,
//! by its segment, and from each heap to the segments of its home that have an item. Where the hash
//! spreads the objects and no two heaps share a walk number, each call but [`EntryTable::make`],
//! [`EntryTable::copy_of`] and those that change the room takes constant time.
//!
//! The crate stands on `k_types` for names, heaps, want of memory and lemmas, and on `k_lists` for the hash and the lists.
#![tactic(auto)]

mod copying;
mod growing;
mod item;
mod laws;
mod table;
mod walks;

pub use growing::EntryRoom;
pub use laws::{objects_are_at_most_their_counts, walks_give_each_object_once};
pub use table::EntryTable;
