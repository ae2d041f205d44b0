//! What all parts of a host have in common.
use k_ends::Terms;
use std::alloc::Global;

/// What all parts of a host have in common: for what the host was made, and the number by which its parts are known.
#[derive(Drop)]
pub struct Head {
    pub(crate) alloc: Global,
    pub(crate) terms: Terms,
    pub(crate) number: u64,
}
