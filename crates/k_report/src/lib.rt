//! The writing of a report, line by line.
//!
//! A `View` shows the trace, the history and the last state of a run. [`report`] writes the text
//! that the definitions give for what the view shows: all of it, or, after a fault of the sink, a
//! front of it. The parts of a report that show a state are in [`parts`]. Each line goes to the
//! sink as one piece, and no memory is taken.
//!
//! Below stand `k_text` with what a report says and with the view, `k_types` with the machine,
//! `k_words` and `k_trace` with the words and names of the texts, and `k_io` with sinks.
#![tactic(auto)]

mod charges;
mod events;
mod exits;
mod faults;
mod graph;
mod heading;
pub mod parts;
mod reporting;
mod roots;
mod shares;
mod words;

pub use reporting::report;
