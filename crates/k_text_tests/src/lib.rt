//! Tests of crates below, and nothing else: nothing stands on this crate, and what it tests is proved in its own.
#![tactic(auto)]

#[cfg(test)]
mod big_tests;
#[cfg(test)]
mod bodies_tests;
#[cfg(test)]
mod gather_tests;
#[cfg(test)]
mod io_tests;
#[cfg(test)]
mod spell_tests;
#[cfg(test)]
mod words_tests;
