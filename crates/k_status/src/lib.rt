//! How a call of a program of this repository ends: its status, the trace that its source gave, or why it gave none, and the text that was
//! written.
//!
//! What a status tells of the words, the source and the text is stated here once, for all commands that read a trace, with which texts are
//! reports of a trace. The commands stand above, in `k_run` and `k_answers`.
#![tactic(auto)]

mod arguments;
mod reading;
mod run_error;
mod status;
mod telling;

pub use arguments::words_after_name;
pub use reading::trace_of;
pub use run_error::RunError;
pub use status::{Status, exit_code, want_of_memory};
pub use telling::{after_writing, write_bad_trace};
