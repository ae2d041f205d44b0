//! The state of the one-thread machine over plain lists, with the setup of its trace.
//!
//! [`PlainLists`] holds what the machine's state of `k_types` holds, and its contracts speak of that state alone: each reader
//! gives what the definition of its name says of the state, and each change leaves what its definition says. Its invariant is
//! the shape of the lists, not the soundness of the state, which whoever uses it proves. Objects stand in the order of their
//! names and are found by halving; beside them stands the total of the bytes of each segment. Exit items stand as they were
//! added and are found by the hash of their targets. Where a size is tested, all uses are summed afresh from those totals: once
//! over the shares, the processes and the limits, from the last limit to the first.
#![tactic(auto)]

mod accounts;
mod creation;
mod exits;
mod items;
mod keeping;
mod limits;
mod links;
mod lists;
mod names;
mod objects;
mod opening;
mod ordered;
mod owners;
mod readers;
mod registers;
mod rooms;
mod segments;
mod stills;
mod turning;
mod updates;
mod writing;

pub use items::{ExitItem, Scan, Share};
pub use lists::PlainLists;
pub use names::{is_before, is_same_heap, is_same_name, kind_of};
pub use objects::{FieldValue, PlainObject};
pub use rooms::{room_is_ample_at_first, room_is_left};
pub use stills::StillState;
