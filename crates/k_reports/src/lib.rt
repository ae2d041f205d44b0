//! What a report tells, for every trace: the line of each event, what is read of lines, and the history that a report's bytes are.
//!
//! Each law is the contract of a public function with an empty body. Below stands `k_laws`, which says what a legal history names and
//! how large its numbers can be. The functions that read reports, and what a good report is, stand above (`k_history`).
#![tactic(auto)]

mod laws;

pub use laws::{histories_can_be_spelled, reports_tell_their_history};
