//! The cell of a shared heap: what lies behind the lock of that heap.
//!
//! A [`SharedCell`] has the objects and exit items of one shared heap, which is never collected, and the heap's phase. The
//! contracts say what each call changes of the value that the laws of agreement speak of. Only [`SharedCell::make`] and
//! [`SharedCell::grow_objects`] take memory.
#![tactic(auto)]

mod cell;
mod changing;
mod growing;
mod reading;

pub use cell::SharedCell;
pub use k_cell::ExitRoom;
