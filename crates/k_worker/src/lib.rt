//! What a worker of a run does: a turn of a process under the locks that it needs.
//!
//! [`turn_behind`] has the process behind a lock do its next operation and a stretch of more, and [`done_behind`] says how many it has
//! done. Both are lent the token of a worker that holds no lock ([`HoldsNone`]), by which `k_locks` gives locks in their order alone.
#![tactic(auto)]

mod collecting;
mod marking;
mod stepping;
mod stretching;
mod turning;
mod turns;

pub use k_locks::HoldsNone;
pub use stepping::told;
pub use turning::{done_behind, turn_behind};
