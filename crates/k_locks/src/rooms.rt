//! The memory with which a run is ended.
ghost use Rattle.std.specs.Prelude.{◌≡◌, ◌≤◌, IfOk, None, [], replicate, vec_capacity};
ghost use Rattle.k_locks.specs.Rooms.{AreEndRooms};

use k_io::NoMemory;
use k_process::{Process, SharedCell};
use std::alloc::Global;

/// Places for the cells at the end, all free, and lists with room for them, so that the end takes no memory.
#[derive(Drop)]
pub struct EndRooms {
    pub(crate) process_places: Vec<Option<Process>>,
    pub(crate) shared_places: Vec<Option<SharedCell>>,
    pub(crate) processes: Vec<Process>,
    pub(crate) shared: Vec<SharedCell>,
}

/// So many free places.
fn free_places<T: Drop>(alloc: Global, count: usize) -> Result<Vec<Option<T>>, NoMemory>
    ensures { IfOk result (λ places. places.items ≡ replicate count None) }
{
    let mut places = Vec::with_capacity(alloc, count)?;
    for _ in 0..count {
        places.push(None)?;
    }
    Ok(places)
}

/// An empty list with room for so many.
///
/// # Errors
///
/// `NoMemory` where there is no such room.
pub fn empty_list<T: Drop>(alloc: Global, count: usize) -> Result<Vec<T>, NoMemory>
    ensures { IfOk result (λ list. (list.items ≡ []) × (count ≤ vec_capacity list)) }
{
    Ok(Vec::with_capacity(alloc, count)?)
}

/// The rooms for so many processes and shared heaps.
///
/// # Errors
///
/// `NoMemory` where there is no such room.
pub fn end_rooms(alloc: Global, processes: usize, shared: usize) -> Result<EndRooms, NoMemory>
    ensures { IfOk result (λ rooms. AreEndRooms processes shared rooms) }
{
    Ok(EndRooms {
        process_places: free_places(alloc, processes)?,
        shared_places: free_places(alloc, shared)?,
        processes: empty_list(alloc, processes)?,
        shared: empty_list(alloc, shared)?,
    })
}
