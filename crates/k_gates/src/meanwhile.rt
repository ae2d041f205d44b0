//! Gates by which one process goes on while another one is held in the middle of its work.
use crate::holding::{Stop, Stops};
use k_io::GatePlace;

/// The number of the process that is held in the middle of its work.
const HELD: u32 = 0;

/// The number of the process that goes on meanwhile.
const OTHER: u32 = 1;

/// Holds the second process before its first operation until the first one's heap is to be marked, and the first one there until the
/// second has done that operation.
pub fn meanwhile_of_marking() -> Stops<3> {
    Stops::of([
        Stop::before(OTHER, 0, Some(1)),
        Stop::at(HELD, GatePlace::Marking, 2),
        Stop::before(OTHER, 1, None),
    ])
}

/// Lets the second process do its first operation, and then the first one come to a step under the book's lock; and holds the first one
/// there until the second has done its second operation.
pub fn meanwhile_of_a_step() -> Stops<4> {
    Stops::of([
        Stop::before(HELD, 0, Some(1)),
        Stop::before(OTHER, 1, Some(2)),
        Stop::at(HELD, GatePlace::InBook, 3),
        Stop::before(OTHER, 2, None),
    ])
}

/// Holds the second process before its first operation until the first one's heap is to be marked; the watcher before its first sample until
/// the second process has done that operation; and the first process there until the watcher has taken the sample.
pub fn meanwhile_of_watching() -> Stops<5> {
    Stops::of([
        Stop::before(OTHER, 0, Some(1)),
        Stop::at(HELD, GatePlace::Marking, 4),
        Stop::before(OTHER, 1, None),
        Stop::sampling(0, Some(2)),
        Stop::sampling(1, None),
    ])
}
