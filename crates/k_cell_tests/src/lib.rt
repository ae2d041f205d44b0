//! Tests of crates below, and nothing else: nothing stands on this crate, and what it tests is proved in its own.
#![tactic(auto)]

#[cfg(test)]
mod book_tests;
#[cfg(test)]
mod heap_tests;
#[cfg(test)]
mod journal_tests;
#[cfg(test)]
mod kernel_tests;
#[cfg(test)]
mod notes;
#[cfg(test)]
mod shared_tests;
#[cfg(test)]
mod tie_tests;
#[cfg(test)]
mod turns_tests;
#[cfg(test)]
mod watch_tests;
