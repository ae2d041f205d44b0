//! The operations of a process that touch one cell beside its own: the kernel's, or that of a shared heap.
//!
//! [`step_kernel`] does `store`, `load`, `put` and `get` through a register that holds an object of the kernel, and `knew`.
//! [`step_shared`] does these through a register that holds an object of a shared heap that the process shares, and `share`,
//! `freeze`, `attach` and `snew`. Each is lent the process's cell, the other one and the book. It lets both cells meet the journal,
//! changes cells and book as the operation asks, and commits. No call takes memory.
//!
//! What an access does is written once, for any such cell.
#![tactic(auto)]

mod allocating;
mod attaching;
mod barring;
mod committing;
mod faults;
mod loading;
mod names;
mod numbers;
mod operating;
mod other;
mod phases;
mod remembering;
mod sharing;
mod storing;

pub use operating::{step_kernel, step_shared};
