//! Traces as text.
//!
//! A [`Trace`] is what a text of a trace says: a setup, the declared names, the operations of each
//! process and their order in the file. Its spelling is defined as a function of it, with each
//! line's words, and independently of that the judgement of bytes, line by line, with the reason
//! of the first bad line. Here are the names, and the words of an operation as they are written;
//! `k_reader` reads a trace from its bytes. Below stand `k_types`, whose machine a trace is run on,
//! and `k_words`.
#![tactic(auto)]

mod errors;
mod names;
mod place;
mod reasons;
mod spelling;
mod trace;

pub use errors::{LineError, TraceError};
pub use names::Names;
pub use place::Place;
pub use reasons::Reason;
pub use spelling::{push_op, push_register};
pub use trace::Trace;
