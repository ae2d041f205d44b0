//! The tree of limits on memory, after the KaffeOS paper's section on memlimits; the exact arithmetic is our own.
//!
//! A hard limit reserves its whole maximum from its parent when it is made, and what is charged at it stops there. A soft
//! limit reserves nothing, and what is charged at it is charged at its parent too. The contract sees the rows and the bytes
//! charged directly at each limit, and promises that the use of a limit is the sum over the tree below it, computed afresh,
//! after any charges, credits and other maxima; and that a charge is refused exactly where the first limit on its path is full.
//!
//! The crate stands on `k_types` for numbers of limits, want of memory, and lemmas.
#![tactic(auto)]

mod error;
mod laws;
mod paths;
mod tree;

pub use error::{MakeError, ResizeRefusal};
pub use k_types::{
    Field, LimitId, LimitRow, MAXIMUM_BELOW, MOST_LIMITS, MOST_LINE_BYTES, MOST_OPERATIONS,
    MOST_PROCESSES, MOST_SHARED_HEAPS, MOST_TRACE_BYTES, MOST_TYPES, MOST_WORDS, Op, Pid, Reg,
    Setup, SharedId, TypeId, TypeTable,
};
pub use laws::{
    rows_that_fit_are_not_refused, uses_are_the_machines, uses_are_those_of_the_books_part,
};
pub use tree::LimitTree;
