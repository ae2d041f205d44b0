//! What the cells of a process's heap, of the kernel's and of a shared one have in common: the objects in their segments, the
//! exit items, the marks of a collection, and the note of the journal.
#![tactic(auto)]

mod carrying;
mod growing;
mod holding;
mod looking;
mod rooms;
mod rooting;
mod writing;

pub use holding::Holdings;
pub use k_agree::Note;
pub use k_mark::{Body, ExitRoom, Listener, Segment, Stored, Swept};
pub use rooms::HoldingRooms;
