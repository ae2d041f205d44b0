//! Traces, read from their bytes.
//!
//! [`read_trace`] reads bytes in one pass, line by line, and gives the trace that they spell, or the
//! number of the first bad line with the lowest reason that applies to it. A [`Reader`] takes one
//! line after the other. The laws say that the judgement of bytes and the spelling of traces, which
//! are defined apart in `k_trace`, are the same: bytes are judged to be a trace exactly where they
//! spell it. Below stand `k_trace` with traces and all definitions, and `k_words`.
#![tactic(auto)]

mod forms;
mod laws;
mod operations;
mod reader;
mod reading;
mod rooms;
mod version;

pub use forms::read_op;
pub use laws::judged_as_spelled;
pub use operations::Operations;
pub use reader::Reader;
pub use reading::read_trace;
pub use version::{FIRST_VERSION, SECOND_VERSION};
