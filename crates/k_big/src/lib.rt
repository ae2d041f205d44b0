//! The workload `big`: its trace, its summary, and the word that says how large it is.
//!
//! Eight processes, each on a limit of its own, make chains of objects, put some of them into the directory, and collect.
//! [`big_trace`] makes the trace of this, and [`summary`] writes what a run of it comes to, counted from the journal and the final
//! state. Below stand `k_trace` with traces, `k_text` with the view of a run, `k_words` and `k_io`.
#![tactic(auto)]

mod counting;
mod declaring;
mod laws;
mod making;
mod operating;
mod summing;
mod words;
mod worked;

pub use laws::{big_traces_keep_the_rules, charges_are_small, summaries_read_the_setup_alone};
pub use making::big_trace;
pub use summing::summary;
pub use words::{MOST_OBJECTS, objects_of};
pub use worked::{smallest_summary_row, smallest_trace_row, words_are_read};
