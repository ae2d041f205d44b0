//! Checks a report against its trace.
//!
//! [`check_report`] reads the events of a report line by line, lets the plain machine walk along them, and compares the whole
//! report with that of the history. Its contract promises that a report is good exactly where it is the report of a history that
//! is legal and complete for the trace, and otherwise names its first wrong line. Below stand the reading of `k_history`, the
//! verdicts of `k_reports`, the machine of `k_plain` and the view of `k_solo`.
#![tactic(auto)]

mod checking;
mod lines;
mod verdicts;
mod walking;

pub use checking::check_report;
pub use verdicts::Verdict;
