//! Runs of whole traces over the plain machine, on the caller's thread.
//!
//! [`solo`] does the operations of a trace in the order of the file over the plain machine of `k_plain`; its contract promises
//! the machine's history of the file and the state after it. The program needs none of it: it is for comparison, as in tests.
#![tactic(auto)]

mod running;
mod taking;

pub use running::solo;
