//! Marking and sweeping the segments of one heap.
//!
//! After [`clear`], any calls of [`root`] and [`mark`] the marked objects are exactly those that the
//! roots reach by references inside the area, and the marked exit items exactly the foreign targets
//! of marked objects. The counter that `mark` takes has risen by the number of marked objects and of
//! their reference fields. [`mark_kept`] marks the same and does not trace what an earlier collection kept, where
//! that is reached still. [`sweep`] frees exactly the objects that aren't marked, and adds up how
//! many they were and what they took. [`sweep_telling`] also tells a [`Listener`] their names, each once: [`Freed`] keeps
//! them. No call but `Freed::make` takes memory.
//!
//! The crate stands on `k_space` for segments, on `k_exit` for exit items and on the laws of the machine. Laws tie what is
//! reached here, by steps along references, to the closure by which the machine has it, and say what placing, writing, marking
//! and sweeping change in the part of the machine's state that an area shows.
#![tactic(auto)]

mod changes;
mod keeping;
mod laws;
mod listening;
mod lists;
mod marking;
mod names;
mod objects;
mod parts;
mod steps;
mod sweeping;
mod sweeps;
mod third_node;

pub use changes::{
    marks_leave_the_objects, numbers_alone_decide, placing_puts_the_object_in_its_place,
    segments_are_fewer_than_numbers, segments_join_and_leave, sweeping_leaves_the_marked_objects,
    the_bytes_are_those_of_the_segments, writing_is_that_of_the_machine,
};
pub use k_exit::{ExitRoom, ExitTable};
pub use k_laws::{CellPhase, Link, Name, NoMemory, Seg, TypeId};
pub use k_space::{Area, Body, Bound, Segment, Stored};
pub use keeping::mark_kept;
pub use laws::{marked_is_the_closure, reached_is_the_closure};
pub use listening::{Freed, Listener, Nobody};
pub use lists::{lists_are_empty_without_marks, lists_name_what_is_there};
pub use marking::{clear, mark, mark_uncounted, root};
pub use names::{names_find_what_changes_left, roots_are_gray_and_stay_so};
pub use objects::{
    areas_have_their_objects, marking_sees_the_objects, segments_change_their_objects,
};
pub use parts::{
    a_sweep_is_the_collection_of_the_part, areas_change_as_parts_do,
    foreign_references_are_told_by_objects, marks_name_what_the_part_reaches,
};
pub use steps::Steps;
pub use sweeping::{Swept, sweep, sweep_telling};
pub use sweeps::sums_of_a_sweep_are_bounded;
pub use third_node::third_node_is_freed;
