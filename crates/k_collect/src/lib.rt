//! Collections of a process's heap and of the kernel's, as steps: begun with exactly the machine's roots, marked, and ended with
//! the machine's numbers.
//!
//! [`begin_heap`], [`begin_kernel`] and [`close_kernel`] make the roots gray, and append the event that
//! begins the collection. Marking is the cell's own work, under the lock of its heap alone ([`mark_heap`], [`mark_kernel`]), and so
//! is the sweep ([`sweep_heap`], [`sweep_kernel`]). [`end_swept_heap`] and [`end_swept_kernel`] leave the exit items that are not
//! needed, drop shares without a way and credit what went, and append the end; [`end_heap`] and [`end_kernel`] sweep first,
//! and [`end_heap_listing`] and [`end_kernel_listing`] also list the names of the objects that go.
//! [`settle_heap`] and [`settle_kernel`] end what is still open. No call takes memory.
#![tactic(auto)]

mod beginning;
mod ending;
mod graying;
mod leaving;
mod marking;
mod settling;
mod sweeping;
mod unsharing;
mod walking;

pub use beginning::{begin_heap, begin_kernel, close_kernel};
pub use ending::{
    end_heap, end_heap_listing, end_kernel, end_kernel_listing, end_swept_heap, end_swept_kernel,
};
pub use k_commit::{meet_heap, meet_kernel, meet_shared};
pub use marking::{mark_heap, mark_kernel};
pub use settling::{settle_heap, settle_kernel};
pub use sweeping::{sweep_heap, sweep_kernel};
