//! What the one-thread machine answers, and what it can do now: its state read alone.
//!
//! [`first_fault`] and [`reply_to`] give the fault and the reply of any operation, as the definitions of `k_types` say them;
//! [`may_be_done`], [`may_be_absorbed`] and [`may_close`] say whether a step is possible. Nothing is changed and no memory is
//! taken. Below stand the plain lists of `k_state`.
#![tactic(auto)]

mod access;
mod fields;
mod firsts;
mod governing;
mod heaps;
mod possible;
mod ranges;
mod replies;

pub use fields::{field_at, field_count, number_in, reference};
pub use possible::{all_ended, is_orphan, may_be_absorbed, may_be_done, may_close, no_orphan};
pub use ranges::is_in_range;
pub use replies::{DIRECTORY, answer, first_fault, loaded_reference, reply_to, root_of};
