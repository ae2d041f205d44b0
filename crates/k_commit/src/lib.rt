//! How a step begins and ends: cells meet the journal, and an operation that has changed cells and book is counted and appended.
//!
//! A step call is lent the cells that its event touches and the book. It lets each cell meet the journal ([`meet_heap`],
//! [`meet_kernel`], [`meet_shared`]), changes cells and book, and commits: [`commit_heap`] counts an operation in the process's
//! own cell, appends its event, and lets the cell touch and meet the journal again, so that cell and book agree. Any other event is
//! appended by a call for the cells that it touches, which lets these do so. [`set_register`] moves a pin with its register,
//! [`charge_process`] charges a process, and [`resize_limit`] sets a maximum. [`publish`] appends what a process did inside its heap.
//! No call takes memory.
//!
//! The laws give the conditions of the calls of cells and book that no step asks of its caller: counts and bytes fit their numbers.
#![tactic(auto)]

mod appending;
mod charging;
mod committing;
mod laws;
mod limits;
mod meeting;
mod publishing;
mod registers;

pub use appending::{
    append_heap, append_heap_and_kernel, append_heap_and_shared, append_heaps_and_kernel,
    append_kernel, append_shared_and_kernel,
};
pub use charging::charge_process;
pub use committing::commit_heap;
pub use k_book::Book;
pub use k_heap::HeapCell;
pub use k_kernel::KernelCell;
pub use k_shared::SharedCell;
pub use laws::{bytes_fit, cells_that_met_have_met, counts_fit, steps_began_before_the_meeting};
pub use limits::{is_above, is_below, resize_limit};
pub use meeting::{meet_heap, meet_kernel, meet_shared};
pub use publishing::publish;
pub use registers::set_register;
