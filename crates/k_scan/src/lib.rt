//! Collections, absorptions and ends of processes on the plain machine.
//!
//! The readers say what a collection of a heap begins with ([`roots`]) and the numbers with which it ends ([`ending`]); the changes leave what the machine's definitions say, or nothing where memory is wanting: all
//! memory is taken before the first change. Roots are marked from the exit items and registers that lead to them. An exit
//! item of the heap is marked where a reached object refers to its target. What is reached is found by a list of work over the objects, and is the machine's
//! closure. [`ending`] and [`end_collection_by`] ask for room for one step, [`absorb`] and [`end_of_process`] for a heap and a
//! process of the trace; nothing else is asked.
#![tactic(auto)]

mod changes;
mod collecting;
mod holding;
mod leading;
mod marking;
mod reaching;
mod referring;
mod rooting;
mod surviving;
mod waiting;

pub use changes::{absorb, begin, close, end_of_process};
pub use collecting::{end_collection, end_collection_by, ending};
pub use k_state::{FieldValue, PlainLists, PlainObject, is_same_heap};
pub use rooting::roots;
