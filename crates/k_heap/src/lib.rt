//! The cell of a process: what lies behind the lock of its heap.
//!
//! A [`HeapCell`] has the heap's objects, exit items and marks, the process's registers, how many of its operations are done,
//! the bodies for its allocations to come, and its events that the journal lacks. The contracts say what each call changes of
//! the value that the laws of agreement speak of. Only [`HeapCell::make`],
//! [`HeapCell::give_body`] and [`HeapCell::grow_objects`] take memory.
#![tactic(auto)]

mod changing;
mod growing;
mod heap;
mod process;
mod reading;

pub use heap::{CellRooms, HeapCell};
pub use k_cell::ExitRoom;
