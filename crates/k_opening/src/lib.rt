//! A run before its first event, and its opening.
//!
//! [`open_still`] makes all that the run needs, and room for what a report lists of its end. [`open`] puts the cells and the book of a
//! [`Still`] behind their locks, with a queue of the processes, which gives a [`World`]; [`open_watched`] does so for a run that is watched.
#![tactic(auto)]

mod opening;
mod reporting;
mod still;
mod world;

pub use k_locks::{
    Book, EndRooms, LockedBook, LockedKernel, LockedProcess, LockedShared, Locks, Sample, WatchPen,
    Watcher, WorldName, empty_list, make, show_end, unlock_all,
};
pub use k_outcome::{Heaps, Outcome, Process, outcome_of};
pub use k_still::FirstCells;
pub use opening::{MOST_WORKERS, open, open_watched};
pub use still::{Still, open_still};
pub use world::World;
