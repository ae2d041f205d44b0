//! Heaps that are driven operation by operation, with no trace: a host of processes over the step calls.
//!
//! A [`Host`] has the cells and the book of a setup, with a guest for each process. What a process does is made up as it goes:
//! [`Host::operate`] does an operation inside the process's heap where it needs that heap alone, and else publishes and calls the
//! step of the cells that it touches. A `kill` may end another process. Collections begin, are marked and end by calls of their own.
//! What a step asks beyond what the host keeps, such as room in the journal, is tested when it is called: a test that fails is an
//! error, which names what is lacking, and nothing has changed.
//!
//! [`charges_are_the_machines`] is a law: what [`Host::charge`] tells that a process is charged is what the machine charges it.
//!
//! A whole collection writes the names of what it freed into a list, [`Freed`].
//!
//! [`Host::grow`] gives a host larger rooms while it lives.
//!
//! [`next_from`] reads the next event that a caller takes out of the journal, and [`charge_by`] what a process is charged, over the parts of
//! a host.
//!
//! [`Host::into_parts`] takes a host apart, for calls over its parts.
//!
//! A [`Twin`] is the machine on one thread beside a host, which takes the events that the host answers.
#![tactic(auto)]

mod asking;
mod collections;
mod errors;
mod growing;
mod host;
mod killing;
mod laws;
mod looking;
mod parting;
mod places;
mod taking;
mod twin;

pub use asking::charge_by;
pub use errors::{GrowError, OpenError};
pub use host::Host;
pub use k_ends::{HostError, Rooms, Terms};
pub use k_mark::Freed;
pub use laws::charges_are_the_machines;
pub use taking::{Taken, next_from};
pub use twin::Twin;
