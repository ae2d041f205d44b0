//! The small tables of the book: which processes live, who shares which shared heap, and the phase and the bytes of each.
//!
//! A [`ShareTable`] has one bit for each process and shared heap. The contracts see lists, of which the order of the shares
//! and of the ended processes is left open, and say of each call which tests change: no other process, share, phase or
//! number of bytes does. [`ShareTable::living`] is a number that is kept beside them. [`ShareTable::first_orphan`] gives the lowest
//! shared heap that was made, isn't absorbed and has no sharer. Only [`ShareTable::make`] takes memory.
//!
//! The crate stands on `k_types` for names, want of memory and lemmas.
#![tactic(auto)]

mod bits;
mod table;

pub use table::ShareTable;
