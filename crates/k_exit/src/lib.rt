//! The exit items of a heap: the objects outside it to which it may refer.
//!
//! An [`ExitTable`] is a list of distinct targets, each marked or not, and a room. The contracts say
//! what each call changes of that list. Only [`ExitTable::make`], [`ExitTable::grow`] and [`ExitRoom::make`] take
//! memory: the table's invariant keeps the room of both vectors, and no call but `grow` and `move_into` changes it.
//!
//! The items are linked by index into hash chains, so that [`ExitTable::has`], [`ExitTable::add`]
//! and [`ExitTable::mark`] take constant time where the fixed hash spreads the names. A caller that
//! takes targets until there is none passes each item once.
//!
//! The crate stands on `k_types` for names, want of memory and lemmas, and on `k_lists` for the chains.
#![tactic(auto)]

mod chains;
mod growing;
mod laws;
mod table;

pub use growing::ExitRoom;
pub use laws::targets_counted_once_are_distinct;
pub use table::ExitTable;
