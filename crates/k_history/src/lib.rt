//! The reading of a report: its history, the first line that is wrong, and what a good report is.
//!
//! [`read_event`] and [`read_history`] read events exactly as the definitions say. A [`MatchSink`] compares what is
//! written to it with a report that was given.
//!
//! Below stand `k_types` with the machine, `k_words` and `k_trace` with the words and names of the texts, `k_text` with
//! what a report says, `k_reports` with what is read of its lines, and `k_io` with sinks.
#![tactic(auto)]

mod errors;
mod events;
mod faults;
mod histories;
mod laws;
mod matching;
mod replies;
mod words;
mod worked;

pub use errors::HistoryError;
pub use events::{heap_named, read_event};
pub use histories::read_history;
pub use laws::{
    differences_are_counted_by_lines, events_are_read_as_spelled, known_events_can_be_spelled,
    reports_are_good_or_refused, reports_are_good_or_refused_at_one_line,
    reports_tell_their_history,
};
pub use matching::MatchSink;
pub use replies::read_name;
pub use worked::{
    faults_are_read, histories_are_read, names_are_read, other_events_are_read,
    other_lines_are_none,
};
