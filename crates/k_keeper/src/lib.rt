//! A host whose processes can always be ended, and whose heaps can be collected once more when no room is left for operations.
//!
//! A [`Keeper`] lends its host for questions and has whole calls alone: an operation, a collection of a heap, one of the kernel's with
//! all absorptions that it waits for, an absorption, and the end of a process. Each tests all that it asks before it begins, and leaves
//! no collection open. The room for events that is kept for the ends of processes is not counted in [`Keeper::left`]: so
//! [`Keeper::kill`] asks for none. [`Keeper::grow`] gives the host larger rooms.
#![tactic(auto)]

mod absorbing;
mod alive;
mod keeper;
mod publishing;
mod rooms;

pub use k_host::{Freed, GrowError, Host, HostError, OpenError, Rooms, Taken, Twin};
pub use keeper::Keeper;
