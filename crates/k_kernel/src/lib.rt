//! The cell of the kernel: what lies behind the lock of the kernel's heap.
//!
//! A [`KernelCell`] has the objects, exit items and marks of the kernel's heap, which takes in whole the segments of processes
//! that ended and of shared heaps that were absorbed. The contracts say what each call changes of the value that the laws of
//! agreement speak of. Only [`KernelCell::make`] and [`KernelCell::grow_objects`] take memory.
#![tactic(auto)]

mod changing;
mod growing;
mod kernel;
mod reading;

pub use k_cell::ExitRoom;
pub use kernel::KernelCell;
