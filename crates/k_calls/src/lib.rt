//! Operations of a host's processes, each tested before it is done.
//!
//! [`operate_with`] does an operation inside the process's heap where it needs that heap alone, and publishes only once no event more can
//! be unpublished. Else it publishes and calls the step of the cells that it touches. A `kill` that ends another process has a call of its own, in `k_ends`. [`try_inside`] does what needs the
//! heap alone or nothing, and [`try_publish`] publishes. The object of an allocation has its memory before the step: a body of the
//! process's supply, or a new one. What a step asks beyond what the parts of a host keep, such as room in the
//! journal, is tested first: a test that fails is a [`HostError`], which names what is lacking, and nothing has changed.
//! [`try_own`], [`try_with_kernel`] and [`try_with_shared`] are lent the cells one by one: each does the operation where it touches those that
//! are lent, and else tells which it touches ([`Came`]). [`operate_with`] stands on the same functions.
//! [`ready`], [`room_left`] and [`reached`] are the tests that all operations have in common. Room for what an operation adds to a heap,
//! an object or an exit item, is tested once it is known which cells it touches, so that a full table bars no other operation.
#![tactic(auto)]

mod adding;
mod apart;
mod came;
mod doing;
mod errors;
mod providing;
mod ranges;
mod readiness;
mod stepping;

pub use apart::{try_own, try_with_kernel, try_with_shared};
pub use came::Came;
pub use doing::{do_alone, reached};
pub use errors::HostError;
pub use k_guests::{Guest, Parts, Rooms, Terms, are_fit, are_larger, grow_parts, make_parts};
pub use k_operate::{
    Reach, absorb, begin_heap, begin_kernel, end_heap, end_heap_listing, end_kernel,
    end_kernel_listing, exit, kill, mark_heap, mark_kernel, publish, settle_heap, settle_kernel,
};
pub use readiness::{awake, has_events_left, is_begun, is_idle, is_marked, ready, room_left};
pub use stepping::{operate_with, try_inside, try_publish};
