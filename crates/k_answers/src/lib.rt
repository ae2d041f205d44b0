//! What the program answers: its commands, its texts, and the commands that run nothing, which check a report or audit a snapshot.
//!
//! The contract of the program's top call is stated here, and shown of each command from what the command tells. Its statuses are in
//! `k_status`. The commands that run a trace are in `k_run` and `k_top`, and the top call itself is in `k_top`.
#![tactic(auto)]

mod auditing;
mod checking;
mod commands;
mod parting;
mod samples;
mod texts;
mod translating;

pub use auditing::audit_file;
pub use checking::check_file;
pub use commands::{Command, command_of};
pub use k_audit::snapshot;
pub use k_big::{big_trace, summary};
pub use k_work::{WorkTable, work_of, write_work};
pub use samples::write_samples;
pub use texts::write_usage;
pub use translating::translation_of;
