//! A sink that gathers what is written to it, and hands it on in larger pieces.
//!
//! A [`Gathered`] stands before another sink. What is written to it stays in a buffer of a fixed size, which is handed on where the next
//! piece does not fit behind what is there; so many short lines become few writes. [`Gathered::hand_on`] hands on what is left at the
//! end. No call takes memory. Its contracts say what the sink behind took, also where one of its writes fails: nothing is lost, and nothing
//! is written twice.
//!
//! What a call that is lent a gathering sink says of it does not tell to which sink it hands on. So the type says it: it is named by that
//! sink ([`SinkName`]). The crate stands on `k_io`, for sinks.
#![tactic(auto)]

mod buffer;
mod gathered;
mod names;
mod passing;

pub use gathered::Gathered;
pub use names::SinkName;
