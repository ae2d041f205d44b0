//! Gates for tests of runs. They hold a process at a place of its run until another one has come somewhere, or count what a run tells.
//!
//! A [`Gate`](k_io::Gate) promises nothing, and no result rests on it; so these have no contracts. A gate that holds a process gives up after
//! so many turns and keeps in mind that it did: whoever made it asks afterwards whether all was met.
//!
//! The crate stands on `k_io` alone, and the tests of two crates stand on it: those of `k_runs` and of the program.
#![tactic(auto)]

mod counting;
mod holding;
mod meanwhile;
mod turns;

pub use counting::Counts;
pub use holding::{Stop, Stops, wait_for};
pub use meanwhile::{meanwhile_of_a_step, meanwhile_of_marking, meanwhile_of_watching};
pub use turns::{FifthComes, OPERATIONS_OF_A_TURN};
