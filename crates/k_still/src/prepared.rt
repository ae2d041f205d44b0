//! What is made of a trace before its cells and its book.
ghost use Rattle.std.specs.Prelude.{IfOk};
ghost use Rattle.k_trace.specs.Meaning.{meaning_of};
ghost use Rattle.k_trace.specs.Rules.{IsTrace};
ghost use Rattle.k_still.specs.Opening.{IsPrepared};

use crate::rooms::{all_events, all_stores, serial_rooms, shared_rooms};
use k_process::bodies;
use k_space::Body;
use k_trace::Trace;
use k_types::NoMemory;
use std::alloc::Global;
use std::collections::VecDeque;

/// The bodies that the operations of a trace need, and how large its tables are made.
#[derive(Drop)]
pub(crate) struct Prepared {
    /// For each process the bodies for its allocations, in order.
    pub(crate) bodies: Vec<VecDeque<Body>>,
    /// For each segment how many serials it may have to give.
    pub(crate) serials: Vec<u32>,
    /// For each shared heap how many exit items it may have to hold.
    pub(crate) shared_exits: Vec<u32>,
    /// How many stores all processes do.
    pub(crate) stores: u32,
    /// The most events that a run can have.
    pub(crate) events: u32,
}

/// What is made of the trace before its cells and its book. It passes each operation a few times.
pub(crate) fn prepare(alloc: Global, trace: &Trace) -> Result<Prepared, NoMemory>
    requires { IsTrace (meaning_of trace.now) }
    ensures { IfOk result (λ prepared. IsPrepared (meaning_of trace.now).trace prepared) }
{
    Ok(Prepared {
        bodies: bodies(alloc, trace)?,
        serials: serial_rooms(alloc, trace)?,
        shared_exits: shared_rooms(alloc, trace)?,
        stores: all_stores(trace),
        events: all_events(trace),
    })
}
