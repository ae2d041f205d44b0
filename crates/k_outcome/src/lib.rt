//! The end of a run, as a report shows it.
//!
//! An [`Outcome`] has the cells, the book and the setup of a run that is over. It shows the machine's state after the journal: each
//! call looks something up in a cell or in the book, and its contract says that the answer is the machine's. So the report of an
//! outcome is that of the journal. What a report lists in order, the targets of exit items, is sorted once, in rooms that were
//! made before the run: the end of a run takes no memory.
#![tactic(auto)]

mod cells;
mod charging;
mod laws;
mod listing;
mod outcome;
mod rooms;
mod viewing;
mod walking;

pub use k_process::{Heaps, Process, next};
pub use laws::the_report_is_that_of_the_trace;
pub use outcome::{Outcome, outcome_of};
pub use rooms::ReportRooms;
