//! All processes of a run on one thread: what is left is done, the run is closed, and each cell meets the journal.
#![tactic(auto)]

mod closing;
mod ending;
mod placed;
mod replaying;

pub use closing::close_all;
pub use ending::{complete_all, end_all, meet_all};
pub use replaying::replay;
