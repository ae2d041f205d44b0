//! How much the tables of a trace's cells may have to hold.
ghost use Rattle.std.specs.Prelude.{◌≡◌, ◌+◌, ◌<◌, ◌≤◌, ◌∷◌, ◌^◌, IfOk, IfSome, length, replicate, slice_index_or};
ghost use Rattle.k_laws.specs.Counts.{is_store, stores_in};
ghost use Rattle.k_agree.specs.Rooms.{event_room, exit_room};
ghost use Rattle.k_trace.specs.Meaning.{meaning_of};
ghost use Rattle.k_trace.specs.Rules.{IsTrace};
ghost use Rattle.k_still.specs.Opening.{AreSerialRooms, AreSharedRooms, CanCount, CanRaise, counted, heap_made, raised, segment_given, with_more, with_one_more};

use k_trace::Trace;
use k_types::{NoMemory, Op};
use std::alloc::Global;

/// Whether the operation is a store.
fn is_store(op: &Op) -> bool
    ensures { result ≡ is_store op.now }
{
    matches!(*op, Op::Store { .. })
}

/// The number of stores among the operations: a process that does them leaves at most as many exit items in its heap. It passes
/// each operation once.
pub fn stores_in(ops: &[Op]) -> u32
    requires { length ops.now < 2 ^ 32 }
    ensures { result ≡ stores_in ops.now }
{
    let mut stores = 0;
    for op in ops {
        if is_store(op) {
            stores += 1;
        }
    }
    stores
}

/// The number of stores of all processes: the kernel's heap, which takes over those of ended processes, has at most as many exit
/// items. It passes each operation once.
pub fn all_stores(trace: &Trace) -> u32
    requires { IsTrace (meaning_of trace.now) }
    ensures { result ≡ exit_room (meaning_of trace.now).trace }
{
    let mut stores = 0;
    for ops in &trace.ops {
        stores += stores_in(ops);
    }
    stores
}

/// The most events that a run can have.
pub(crate) fn all_events(trace: &Trace) -> u32
    requires { IsTrace (meaning_of trace.now) }
    ensures { result ≡ event_room (meaning_of trace.now).trace }
{
    let operations = trace.order.len() as u32;
    2 * operations + trace.setup.shared + 2
}

/// The number of the segment in which the operation of the process allocates; `None` where it makes no object.
fn segment_given(op: &Op, pid: usize, procs: usize) -> Option<usize>
    requires { (pid < 2 ^ 32) × (procs < 2 ^ 32) }
    ensures { result ≡ segment_given procs pid op.now }
{
    match *op {
        Op::New { .. } => Some(pid + 1),
        Op::KNew { .. } => Some(0),
        Op::SNew { shared, .. } => Some(1 + procs + shared.0 as usize),
        _ => None,
    }
}

/// Counts one more in the segment, where there is one.
fn count_one(counts: &mut [u32], seg: Option<usize>)
    requires { IfSome seg (λ at. (at < length counts.old) × (slice_index_or counts.old at 0 + 1 < 2 ^ 32)) }
    ensures { counts.new ≡ with_one_more seg counts.old }
{
    if let Some(at) = seg {
        counts[at] += 1;
    }
}

/// Counts the allocations of a process, each in its segment.
fn count_serials(counts: &mut [u32], pid: usize, procs: usize, ops: &[Op])
    requires { CanCount procs pid ops.now counts.old }
    ensures { counts.new ≡ counted procs pid ops.now counts.old }
{
    for op in ops {
        count_one(counts, segment_given(op, pid, procs));
    }
}

/// One serial in the kernel's segment, for the directory, and none in the others.
fn first_counts(alloc: Global, others: usize) -> Result<Vec<u32>, NoMemory>
    requires { others ≤ 128 }
    ensures { IfOk result (λ v. v.items ≡ 1 ∷ replicate others 0) }
{
    let mut counts = vec![in alloc; 0; others + 1]?;
    counts[0] = 1;
    Ok(counts)
}

/// For each segment the number of serials that it may have to give. It passes each operation once.
pub(crate) fn serial_rooms(alloc: Global, trace: &Trace) -> Result<Vec<u32>, NoMemory>
    requires { IsTrace (meaning_of trace.now) }
    ensures { IfOk result (λ rooms. AreSerialRooms (meaning_of trace.now).trace rooms.items) }
{
    let procs = trace.setup.procs.len();
    let mut rooms = first_counts(alloc, procs + trace.setup.shared as usize)?;
    for pid in 0..procs {
        count_serials(&mut rooms, pid, procs, &trace.ops[pid]);
    }
    Ok(rooms)
}

/// The shared heap that the operation makes.
fn heap_made(op: &Op) -> Option<usize>
    ensures { result ≡ heap_made op.now }
{
    match *op {
        Op::Share { shared } => Some(shared.0 as usize),
        _ => None,
    }
}

/// Adds so many to the room of the shared heap, where there is one, as far as `most`.
fn raise_one(rooms: &mut [u32], most: u32, more: u32, heap: Option<usize>)
    requires { IfSome heap (λ at. (at < length rooms.old) × (slice_index_or rooms.old at 0 + more < 2 ^ 32)) }
    ensures { rooms.new ≡ with_more most more heap rooms.old }
{
    if let Some(at) = heap {
        rooms[at] = most.min(rooms[at] + more);
    }
}

/// Adds the stores of a process to the rooms of the shared heaps that it makes, as far as `most`.
fn raise_shared(rooms: &mut [u32], most: u32, stores: u32, ops: &[Op])
    requires { CanRaise most stores ops.now rooms.old }
    ensures { rooms.new ≡ raised most stores ops.now rooms.old }
{
    for op in ops {
        raise_one(rooms, most, stores, heap_made(op));
    }
}

/// For each shared heap, in the place of its number, how many exit items it may have to hold: one for each store of the processes
/// that make it, and one more. A process that makes it twice may count twice, but never more than all stores do. It passes each
/// operation three times.
///
/// # Errors
///
/// `NoMemory` where the list of rooms finds no room.
pub fn shared_rooms(alloc: Global, trace: &Trace) -> Result<Vec<u32>, NoMemory>
    requires { IsTrace (meaning_of trace.now) }
    ensures { IfOk result (λ rooms. AreSharedRooms (meaning_of trace.now).trace rooms.items) }
{
    let most = 1 + all_stores(trace);
    let mut rooms = vec![in alloc; 1u32; trace.setup.shared as usize]?;
    for ops in &trace.ops {
        raise_shared(&mut rooms, most, stores_in(ops), ops);
    }
    Ok(rooms)
}
