//! Tests of the program's calls, and nothing else: nothing stands on this crate.
#![tactic(auto)]

#[cfg(test)]
mod calling;
#[cfg(test)]
mod ends;
#[cfg(test)]
mod gated;
#[cfg(test)]
mod long_runs;
#[cfg(test)]
mod ranges;
#[cfg(test)]
mod summaries;
#[cfg(test)]
mod tests;
#[cfg(test)]
mod watched;
