//! What is shown of a run of the plain machine.
//!
//! [`PlainEnd`] shows a state and the events that led to it for printing, as the view of `k_text` asks.
#![tactic(auto)]

mod ending;
mod shown;
mod targets;
mod viewing;

pub use ending::PlainEnd;
