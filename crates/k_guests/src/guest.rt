//! A process of a host.
use k_heap::HeapCell;

/// A process that a host runs: its heap's cell, and how many bodies of the supply are left in it for allocations.
#[derive(Drop)]
pub struct Guest {
    pub cell: HeapCell,
    pub bodies: u32,
}
