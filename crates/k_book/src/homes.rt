//! The owners of the segments before the first event.
ghost use Rattle.std.specs.Prelude.{◌≡◌, ◌+◌, ◌<◌, ◌^◌, ◌∷◌, [], ◌++◌, IfOk, length, map};
ghost use Rattle.k_types.specs.Numbers.{numbers_below};
ghost use Rattle.k_types.specs.Owners.{shared, user};
ghost use Rattle.k_types.specs.Trace.{trace_of};
ghost use Rattle.k_agree.specs.Opening.{homes_at_first};
ghost use Rattle.k_book.specs.Books.{HasFewSegments, pin_room_of};

use crate::tables::EnteredTables;
use k_types::{Heap, LimitId, NoMemory, Pid, REGISTERS, Setup, SharedId, push};
use std::alloc::Global;

/// Adds the heaps of so many processes.
#[tactic(auto, using(crate::proofs::Numbers::one_more))]
fn add_users(homes: &mut Vec<Heap>, procs: u32) -> Result<(), NoMemory>
    ensures { IfOk result (λ _. homes.new.items ≡ homes.old.items ++ map user (numbers_below procs)) }
{
    for p in 0..procs {
        push(homes, Heap::User(Pid(p)))?;
    }
    Ok(())
}

/// Adds so many shared heaps.
#[tactic(auto, using(crate::proofs::Numbers::one_more))]
fn add_shared(homes: &mut Vec<Heap>, heaps: u32) -> Result<(), NoMemory>
    ensures { IfOk result (λ _. homes.new.items ≡ homes.old.items ++ map shared (numbers_below heaps)) }
{
    for s in 0..heaps {
        push(homes, Heap::Shared(SharedId(s)))?;
    }
    Ok(())
}

/// The owner of each segment: the kernel, then each process, then each shared heap.
fn first_homes(alloc: Global, setup: &Setup) -> Result<Vec<Heap>, NoMemory>
    requires { HasFewSegments setup.now }
    ensures { IfOk result (λ homes. homes.items ≡ homes_at_first (trace_of setup.now [] [])) }
{
    let mut homes = Vec::new(alloc);
    push(&mut homes, Heap::Kernel)?;
    add_users(&mut homes, setup.procs.len() as u32)?;
    add_shared(&mut homes, setup.shared)?;
    Ok(homes)
}

/// The tables of entry items and pins before the first event.
#[tactic(auto, using(crate::proofs::Numbers::homes_count))]
pub(crate) fn first_tables(
    alloc: Global,
    setup: &Setup,
    exits: u32,
) -> Result<EnteredTables, NoMemory>
    requires { HasFewSegments setup.now }
    ensures { IfOk result (λ t. t ≡ record { homes = homes_at_first (trace_of setup.now [] []); entries = []; pins = []; entry_room = exits; pin_room = pin_room_of (length setup.now.procs.items) }) }
{
    let homes = first_homes(alloc, setup)?;
    let pins = u32::from(REGISTERS) * setup.procs.len() as u32 + 1;
    EnteredTables::make(alloc, &homes, exits, pins)
}

/// The limit of each process, in memory of the book's own.
pub(crate) fn first_limits(alloc: Global, setup: &Setup) -> Result<Vec<LimitId>, NoMemory>
    ensures { IfOk result (λ limits. limits.items ≡ setup.now.procs.items) }
{
    Ok(setup.procs.as_slice().to_vec(alloc)?)
}
