//! The objects of heaps, in segments.
//!
//! A [`Segment`] is its number, its live objects by serial, how many serials were given, and its
//! room, with which its memory goes: how many objects can live at once. Serials count allocations
//! and are never used again; the slots in which objects lie are.
//! An [`Area`] is the segments of one heap, with different numbers. The contracts say what each
//! call changes, and that everything else stays. Only the calls named `make`,
//! [`Body::directory`] and [`Segment::grow`] take memory.
//!
//! Looking an object up, reading, writing and placing take constant time in the number of objects, where the
//! hash spreads their serials, and so does taking all marks away. A sweep costs in proportion to the objects that are live when it begins.
//!
//! The crate stands on `k_types` for names and types of objects, want of memory, and lemmas.
#![tactic(auto)]

mod area;
mod body;
mod bound;
mod cells;
mod chains;
mod growing;
mod live;
mod marks;
mod segment;

pub use area::Area;
pub use body::{Body, ShortLink, Stored};
pub use bound::Bound;
pub use segment::{Gone, Segment, Visited};
