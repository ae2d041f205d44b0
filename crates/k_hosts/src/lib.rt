//! Tests of a host and of a keeper: operations that are made up as it goes, without a trace.
//!
//! What no contract of a host says: that its calls do succeed, in one order or another, and that their replies are those of the machine on
//! one thread. Nothing stands on this crate. What its tests want was worked out from the rules, or is what the plain machine answers.
#![tactic(auto)]

#[cfg(test)]
mod barrier;
#[cfg(test)]
mod bounds;
#[cfg(test)]
mod collections;
#[cfg(test)]
mod driving;
#[cfg(test)]
mod inside;
#[cfg(test)]
mod keeping;
#[cfg(test)]
mod killing;
#[cfg(test)]
mod made_up;
#[cfg(test)]
mod opening;
#[cfg(test)]
mod printing;
#[cfg(test)]
mod refusals;
#[cfg(test)]
mod several;
#[cfg(test)]
mod usual;
#[cfg(test)]
mod whole;
