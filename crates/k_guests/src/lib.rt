//! The parts of a host, made for a setup and for what its processes may do: there is no trace.
//!
//! [`Terms`] say for what a host is made, and [`make_parts`] makes its [`Parts`]: a [`Guest`] for each process, the cells of the
//! kernel and of the shared heaps, and the book, with all memory that they will need. The words of this crate say what these parts keep
//! between the calls of a host: each agrees with the trace of the setup in which no process has an operation, is of the journal's
//! table, and has as much room as the terms say. The kernel's heap has room besides for what comes to it when the processes end.
#![tactic(auto)]

mod growing;
mod guest;
mod laws;
mod making;
mod rooms;
mod segments;
mod terms;

pub use growing::{GuestRoom, Larger, are_larger, grow_parts};
pub use guest::Guest;
pub use laws::{objects_come_and_go, what_is_kept_back_is_enough};
pub use making::{Parts, are_fit, make_parts};
pub use rooms::Rooms;
pub use terms::Terms;
