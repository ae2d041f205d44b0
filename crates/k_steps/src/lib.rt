//! The step calls: each is lent just the cells that its event touches and the book, appends one event, and keeps agreement.
//!
//! [`reach`] tells which cells an operation touches beside its process's own, and so which call does it: [`step_own`],
//! [`step_kernel`], [`step_shared`], or [`kill`] where it ends another process. The end of a process by itself is [`exit`], and the
//! absorption of a shared heap that nobody shares is [`absorb`]. Collections begin with [`begin_heap`], [`begin_kernel`] and [`close_kernel`], and end with [`end_heap`] and
//! [`end_kernel`]; between the two a cell is marked alone. It can be swept alone too, and then its collection ends with
//! [`end_swept_heap`] or [`end_swept_kernel`]. [`publish`] appends what a process did inside its heap, and [`settle_heap`] and
//! [`settle_kernel`] end what is still open.
//!
//! A call meets the journal first, so that each cell speaks of all of it, then changes cells and book, and then appends the event,
//! touches its cells and meets again. No call takes memory.
#![tactic(auto)]

pub use k_collect::{
    begin_heap, begin_kernel, close_kernel, end_heap, end_heap_listing, end_kernel,
    end_kernel_listing, end_swept_heap, end_swept_kernel, mark_heap, mark_kernel, meet_heap,
    meet_kernel, meet_shared, settle_heap, settle_kernel, sweep_heap, sweep_kernel,
};
pub use k_own::{
    Reach, absorb, ends_are_told_once, exit, kill, publish, reach, reached_cells_are_touched,
    step_own,
};
pub use k_pair::{step_kernel, step_shared};
