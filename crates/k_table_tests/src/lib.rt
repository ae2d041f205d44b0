//! Tests of crates below, and nothing else: nothing stands on this crate, and what it tests is proved in its own.
#![tactic(auto)]

#[cfg(test)]
mod entered_tests;
#[cfg(test)]
mod entry_tests;
#[cfg(test)]
mod exit_tests;
#[cfg(test)]
mod limits_tests;
#[cfg(test)]
mod lists_tests;
#[cfg(test)]
mod mark_tests;
#[cfg(test)]
mod shares_tests;
#[cfg(test)]
mod space_tests;
