//! Steps in a process's own cell that need the book beside it, and the step calls by which a heap becomes the kernel's.
//!
//! [`step_own`] does every operation but `collect` that touches no other cell and that is not done inside the heap: those that
//! make an object, move a pin, add an exit item or set a maximum, accesses that are refused for the owner of the object, and a `kill`
//! that ends nobody. [`reach`] tells which cells an operation touches beside its process's own.
//!
//! A process ends by itself with [`exit`] and by another with [`kill`], and [`absorb`] is the absorption of a shared heap. Each gives
//! the kernel the heap's segment whole, with all its objects, in constant time: no object is passed, copied or changed. What lies
//! between the heap and others goes one by one: its exit items, the kernel's exit items into it, and, at the end of a process, the
//! pins of its registers and its shares. No call takes memory.
#![tactic(auto)]

mod absorbing;
mod accesses;
mod allocating;
mod charges;
mod exiting;
mod exits;
mod kill_laws;
mod laws;
mod limits;
mod reached;
mod reaching;
mod registers;
mod segments;
mod stepping;
mod unpinning;

pub use absorbing::absorb;
pub use exiting::{exit, kill};
pub use k_commit::{Book, HeapCell, is_above, publish};
pub use kill_laws::kills_step_beside;
pub use laws::{ends_are_told_once, reached_cells_are_touched};
pub use reached::Reach;
pub use reaching::reach;
pub use stepping::step_own;
