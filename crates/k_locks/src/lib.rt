//! What the locks of a run keep, and how heaps are put behind them and taken back.
//!
//! Each process's heap, the kernel's, each shared heap and the book stand behind a lock of their own ([`Locks`]). A lock tells nothing of
//! its value but the value's type; so the types of all values behind the locks are named by the run's trace and by the table of its
//! journal ([`WorldName`]). Whoever takes a value from behind its lock has what stands of it, and has to give it back so.
#![tactic(auto)]

mod locked;
mod locks;
mod ordering;
mod placing;
mod rooms;
mod worlds;

pub use k_process::{Book, KernelCell, Process, SharedCell};
pub use k_watch::{Sample, WatchPen, Watcher, make, show, show_end};
pub use locked::{LockedBook, LockedKernel, LockedProcess, LockedShared};
pub use locks::{LockRooms, Locks, lock_all, lock_rooms, unlock_all};
pub use ordering::{
    BeforeBook, BeforeShared, HoldsKernel, HoldsNone, HoldsProcess, HoldsShared, lock_book,
    lock_kernel, lock_process, lock_shared, lock_two, try_kernel,
};
pub use rooms::{EndRooms, empty_list, end_rooms};
pub use worlds::WorldName;
