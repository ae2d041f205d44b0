//! Tests of whole runs: what no contract of a run says. That threads do the work and overlap, which locks they hold meanwhile, and that they
//! leave nothing to the end; and what the end does where they did nothing. That a collection of one heap lets others go on, that work inside
//! a heap needs no book, and in which turns the processes are taken, is also seen by the program's own tests.
//!
//! The gates of `k_gates` hold a process at a place of its run until another one has come somewhere, or count what a run tells. Nothing
//! stands on this crate. What its tests want was worked out from the rules, and never taken from a run.
#![tactic(auto)]

#[cfg(test)]
mod killing;
#[cfg(test)]
mod reporting;
#[cfg(test)]
mod rows;
#[cfg(test)]
mod serving;
#[cfg(test)]
mod stretched;
#[cfg(test)]
mod unrun;
