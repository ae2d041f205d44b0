//! The trace.
ghost use Rattle.std.specs.Prelude.{◌≡◌, ◌≤◌, IfOk};
ghost use Rattle.k_trace.specs.Meaning.{meaning_of};
ghost use Rattle.k_trace.specs.Rules.{IsTrace};
ghost use Rattle.k_big.specs.Workload.{big_trace, most_objects};

use crate::declaring::{declared, limits_for};
use crate::operating::all_operations;
use k_io::NoMemory;
use k_trace::Trace;
use std::alloc::Global;

/// The trace where each of eight processes makes so many objects.
///
/// Time and memory go with the number of objects.
///
/// # Errors
///
/// `NoMemory` where the trace finds no room.
pub fn big_trace(alloc: Global, objects: u32) -> Result<Trace, NoMemory>
    requires { objects ≤ most_objects }
    ensures meaning { IfOk result (λ t. meaning_of t ≡ big_trace objects) }
    ensures rules { IfOk result (λ t. IsTrace (meaning_of t)) }
{
    let mut trace = declared(alloc)?;
    let (ops, order) = all_operations(alloc, objects)?;
    trace.setup.limits = limits_for(alloc, objects)?;
    trace.ops = ops;
    trace.order = order;
    Ok(trace)
}
