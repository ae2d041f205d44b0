//! One operation of a process, done with the cells that it touches and the book.
//!
//! [`do_inside`] does what needs the process's own heap alone and leaves its event unpublished; [`publish_all`] appends such events to
//! the journal. All else needs the book: [`do_alone`], [`do_with_kernel`] and [`do_with_shared`] do an operation by a step,
//! [`do_exit`] ends the process, [`do_kill`] another one, and a collection is begun, marked, swept and ended by four calls, so that the book is free while the
//! heap is marked and swept. [`do_collect`] and [`do_collect_kernel`] join the four, and [`do_next`] does any operation from its
//! beginning to its end.
//! Each keeps what the locks ask of cells and book, and tells which events it adds.
#![tactic(auto)]

mod absorbing;
mod collecting;
mod exiting;
mod killing;
mod known;
mod stepping;

pub use absorbing::{absorb_orphan, absorb_orphans, do_collect_kernel};
pub use collecting::{
    begin_collection, begin_kernel_collection, do_collect, end_collection, end_kernel_collection,
    mark_collection, mark_kernel_collection, sweep_collection, sweep_kernel_collection,
};
pub use exiting::do_exit;
pub use k_collect::{
    begin_heap, begin_kernel, close_kernel, end_heap, end_heap_listing, end_kernel,
    end_kernel_listing, mark_heap, mark_kernel, meet_heap, meet_kernel, meet_shared, settle_heap,
    settle_kernel,
};
pub use k_own::{Reach, absorb, exit, kill, publish, reach, step_own};
pub use k_pair::{step_kernel, step_shared};
pub use k_process::{Heaps, Process, local, next};
pub use killing::do_kill;
pub use stepping::{do_alone, do_inside, do_next, do_with_kernel, do_with_shared, publish_all};
