//! How much a cell is made for.

/// How many numbers for segments there are, how many segments the cell can have, how many objects can live in its first one at
/// once, and how many exit items there can be.
#[derive(Clone, Copy, Debug)]
pub struct HoldingRooms {
    pub bound: u32,
    pub segments: u32,
    pub objects: u32,
    pub exits: u32,
}
