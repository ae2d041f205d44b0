//! Lists of numbers that no two lists share, linked by index; and a fixed hash of names.
//!
//! A [`Lists`] is so many lists over the numbers below a room; a number stands in one list at most,
//! and there once. Only [`Lists::make`] takes memory. Each call but that and
//! [`Lists::move_into`] takes constant time.
//!
//! [`chain_of`] gives the number of the chain of a name, for the tables that look names up by chains. Its contract states the hash
//! whole, so that a table's chains are the same in each run.
//!
//! The crate stands on `k_types` for names and for want of memory.
#![tactic(auto)]

mod growing;
mod hash;
mod lists;

pub use hash::chain_of;
pub use lists::Lists;
