//! A process of a run: its heap's cell with the operations that the trace has for it; what it does inside its own heap, with that
//! heap's cell alone; all heaps of a run; and what keeps standing between its steps.
//!
//! [`bodies`] makes for each process a new body for each object that one of its operations makes, in their order, so that no memory
//! is asked for while they run.
#![tactic(auto)]

mod doing;
mod heaps;
mod keeping;
mod laws;
mod local_steps;
mod made;
mod process;
mod rooms;
mod standing;

pub use doing::local;
pub use heaps::Heaps;
pub use k_commit::{Book, HeapCell, KernelCell, SharedCell};
pub use keeping::{
    next_operations_can_be_local, steps_keep_what_the_locks_ask, tails_can_be_published,
};
pub use laws::local_operations_are_the_machines;
pub use local_steps::local_operations_keep_agreement;
pub use made::bodies;
pub use process::{Process, next};
pub use rooms::{operations_leave_room, shared_heaps_have_room};
pub use standing::kept_values_can_operate;
