//! The chronicle of a host: the trace of what it has done, and its report, which `kaffe check` accepts.
//!
//! [`chronicle`] reads the journal of a host whose journal keeps all its events, and prints it by `k_print`; [`texts`] gives both texts at once.
//! What a process did inside its heap and has not published is in neither: `Keeper::publish` publishes it.
#![tactic(auto)]

mod errors;
mod telling;

pub use errors::ChronicleError;
pub use k_keeper::{Freed, GrowError, Host, HostError, Keeper, OpenError, Rooms, Taken, Twin};
pub use k_print::{PrintError, Printed, Texts};
pub use telling::{chronicle, texts};
