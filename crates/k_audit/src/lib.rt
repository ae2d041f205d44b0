//! Snapshots, which show a state without the history that led there, and the audit of one.
//!
//! [`snapshot`] writes the text that the definitions give for the state of a view: all of it, or, after a fault of the sink, a front of
//! it. It takes no memory. [`audit`] reads a snapshot over the header of a trace and answers whether what it says is sound, or which line
//! or point is the first that is wrong. Below stand the definitions of `k_types`, the view of `k_text`, the parts of a report of
//! `k_report`, the words of `k_words`, `k_trace` and `k_history`, and the lists of `k_state`.
#![tactic(auto)]

mod auditing;
mod charging;
mod claims;
mod errors;
mod holding;
mod items;
mod laws;
mod objects;
mod places;
mod points;
mod reader;
mod reading;
mod remains;
mod sums;
mod verdicts;
mod words;
mod writing;

pub use auditing::audit;
pub use laws::{
    barrier_audit_row, every_sharer_pays_audit_row, every_sharer_pays_snapshot_row,
    last_lines_audit_row, snapshots_of_sound_states_are_sound, sound_texts_say_sound_states,
    two_are_gone_row, verdicts_are_one, written_texts_are_those_of_snapshots,
};
pub use verdicts::Verdict;
pub use writing::snapshot;
