//! Collections of a host's heaps from their beginning to their end, absorptions of shared heaps, and the ends of processes.
//!
//! A collection begins, is marked and ends by calls of their own ([`try_begin`], [`try_mark`], [`try_end`]; of the kernel's heap
//! [`try_begin_kernel`], [`try_mark_kernel`], [`try_end_kernel`]), so that others of its kind and operations may come between.
//! [`try_settle`] and [`try_settle_kernel`] end whatever is open. [`try_exit`] ends a process, [`try_kill`] does the `kill` of another
//! one, and [`try_absorb`] ends a shared heap that nobody shares. As in `k_calls`, what a step asks is tested first, and an error names
//! what is lacking.
//!
//! [`try_collect`] and [`try_collect_kernel`] are whole collections: one call tests all that is asked, and begins, marks and ends.
#![tactic(auto)]

mod collecting;
mod killing;
mod known;
mod starting;
mod whole;

pub use k_calls::{
    Came, Guest, HostError, Parts, Reach, Rooms, Terms, are_fit, are_larger, grow_parts,
    make_parts, operate_with, try_inside, try_own, try_publish, try_with_kernel, try_with_shared,
};
pub use killing::try_kill;
pub use starting::{
    try_absorb, try_begin, try_begin_kernel, try_end, try_end_kernel, try_exit, try_mark,
    try_mark_kernel, try_settle, try_settle_kernel,
};
pub use whole::{try_collect, try_collect_kernel};
