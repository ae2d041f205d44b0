//! A run before its first event.
ghost use Rattle.std.specs.Prelude.{◌≡◌, IfOk};
ghost use Rattle.k_opening.specs.Stills.{IsOpenedStill};
ghost use Rattle.k_trace.specs.Meaning.{meaning_of};
ghost use Rattle.k_trace.specs.Rules.{IsTrace};

use crate::reporting::report_rooms;
use k_io::NoMemory;
use k_locks::Book;
use k_outcome::ReportRooms;
use k_still::{FirstCells, first_cells};
use k_trace::Trace;
use std::alloc::Global;

/// A run before its first event: all cells and the book, not yet behind locks, and room for what a report lists of the end.
#[derive(Drop)]
pub struct Still {
    pub cells: FirstCells,
    pub rooms: ReportRooms,
}

impl Still {
    /// The book. Its journal is empty before the first event.
    pub fn book(&self) -> &Book
        ensures { result.now ≡ self.now.cells.heaps.book }
    {
        &self.cells.heaps.book
    }
}

/// All that a run of the trace needs, made before it begins: each cell with room for all that the trace can put into it, the book with
/// room for all events, and room for what a report lists of the end. It passes each operation a few times, and takes memory in
/// proportion to the operations and to what they allocate.
///
/// # Errors
///
/// `NoMemory` where any of this finds no room.
pub fn open_still(alloc: Global, trace: Trace) -> Result<Still, NoMemory>
    requires { IsTrace (meaning_of trace) }
    ensures { IfOk result (λ still. IsOpenedStill (meaning_of trace) still) }
{
    let rooms = report_rooms(alloc, &trace)?;
    let cells = first_cells(alloc, trace)?;
    Ok(Still { cells, rooms })
}
