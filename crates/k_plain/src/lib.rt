//! The plain machine: the machine of `k_types` over plain lists, one event at a time, on the caller's thread.
//!
//! [`PlainState`] is a sound state of the machine with the setup of its trace. [`PlainState::operate`] does any operation that is
//! possible with the machine's reply; [`plain_step`] takes any step that the machine has, and none that it has not. Below stand
//! the definitions of `k_types`, the laws of soundness, the lists of `k_state`, the replies of `k_reply` and the collections of
//! `k_scan`.
#![tactic(auto)]

mod answering;
mod complete;
mod counting;
mod effects;
mod operating;
mod state;
mod stepping;

pub use complete::{is_complete, is_quiet};
pub use state::{PlainState, plain_step};
