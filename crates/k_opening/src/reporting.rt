//! Room for what a report lists of the end of a run.
ghost use Rattle.std.specs.Prelude.{◌≡◌, ◌++◌, IfOk, map};
ghost use Rattle.k_laws.specs.Counts.{stores_in};
ghost use Rattle.k_outcome.specs.Listed.{AreRoomsFor};
ghost use Rattle.k_trace.specs.Meaning.{meaning_of};
ghost use Rattle.k_trace.specs.Rules.{IsTrace};

use k_io::NoMemory;
use k_outcome::ReportRooms;
use k_still::{all_stores, shared_rooms, stores_in};
use k_trace::Trace;
use std::alloc::Global;

/// Adds room for the heap of each process: for one exit item for each of its stores.
fn add_processes(alloc: Global, trace: &Trace, rooms: &mut ReportRooms) -> Result<(), NoMemory>
    requires { IsTrace (meaning_of trace.now) }
    ensures { IfOk result (λ done. rooms.new ≡ rooms.old ++ map stores_in (meaning_of trace.now).trace.operations) }
{
    for ops in &trace.ops {
        rooms.add_heap(alloc, stores_in(ops))?;
    }
    Ok(())
}

/// Adds room for each shared heap, with so many exit items.
fn add_shared(alloc: Global, exits: &[u32], rooms: &mut ReportRooms) -> Result<(), NoMemory>
    ensures { IfOk result (λ done. rooms.new ≡ rooms.old ++ exits.now) }
{
    for room in exits {
        rooms.add_heap(alloc, *room)?;
    }
    Ok(())
}

/// Room for what a report lists of any run of the trace: for each heap as many exit items as it can come to have. It passes each
/// operation a few times.
pub(crate) fn report_rooms(alloc: Global, trace: &Trace) -> Result<ReportRooms, NoMemory>
    requires { IsTrace (meaning_of trace.now) }
    ensures { IfOk result (λ rooms. AreRoomsFor (meaning_of trace.now).trace rooms) }
{
    let shared = shared_rooms(alloc, trace)?;
    let mut rooms = ReportRooms::none(alloc);
    rooms.add_heap(alloc, all_stores(trace))?;
    add_processes(alloc, trace, &mut rooms)?;
    add_shared(alloc, &shared, &mut rooms)?;
    Ok(rooms)
}
