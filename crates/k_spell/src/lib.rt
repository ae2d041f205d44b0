//! The spelling of a trace: its one text.
//!
//! [`trace_text`] spells a trace as the definition of a trace's text says, and such a text, where it is short enough to be read,
//! is judged to be that trace. The lines of its parts are lent, for a trace whose operations stand elsewhere, and [`is_spelled`] tells
//! which operations a line can have. Below stand `k_trace`, with traces and what spells them, `k_words`, with lines that are being made,
//! and `k_report` for lemmas on lines.
#![tactic(auto)]

mod declared;
mod laws;
mod lines;
mod operations;
mod spelled;
mod texts;

pub use declared::{add_heading, add_limits, add_procs, add_shared, add_types};
pub use laws::texts_are_read_as_their_trace;
pub use lines::push_operation;
pub use spelled::is_spelled;
pub use texts::trace_text;
