//! What a host is made for.
use crate::rooms::Rooms;
use k_trace::Names;
use k_types::{Setup, TypeId};

/// What a host is made for: a setup, and how much its processes can do.
#[derive(Drop)]
pub struct Terms {
    pub setup: Setup,
    /// The names of what the setup declares.
    pub names: Names,
    /// The type of the objects for which each process has a supply of bodies.
    pub ty: TypeId,
    /// How many bodies the supply of each process has: allocations of that type, refused ones too, that take no memory.
    pub bodies: u32,
    /// For how much there is room.
    pub rooms: Rooms,
}
