//! A run before its first event: all heaps and the book that a trace needs, made with all memory that its steps will take.
//!
//! [`first_cells`] makes them of a trace that was read; its contract promises that each agrees with the trace, that the journal is
//! empty, and that nothing of a process is unpublished. [`stores_in`], [`all_stores`] and [`shared_rooms`] tell how many exit items
//! the heaps of a trace may have to hold.
#![tactic(auto)]

mod beginning;
mod first;
mod prepared;
mod rooms;

pub use first::{FirstCells, first_cells};
pub use rooms::{all_stores, shared_rooms, stores_in};
