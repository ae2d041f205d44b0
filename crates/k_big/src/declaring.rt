//! What the trace declares.
ghost use Rattle.std.specs.Prelude.{◌≡◌, ◌≤◌, ◌∷◌, [], IfOk, replicate};
ghost use Rattle.k_trace.specs.Meaning.{meaning_of};
ghost use Rattle.k_big.specs.Workload.{declared_for, most_objects, processes, root, share};

use k_io::NoMemory;
use k_reader::read_trace;
use k_trace::{Trace, TraceError};
use k_types::{LimitId, LimitRow};
use std::alloc::Global;

/// The limits: the root, and below it one for each process, with room for all its objects.
pub(crate) fn limits_for(alloc: Global, objects: u32) -> Result<Vec<LimitRow>, NoMemory>
    requires { objects ≤ most_objects }
    ensures { IfOk result (λ rows. rows.items ≡ root objects ∷ replicate processes (share objects)) }
{
    let share = LimitRow {
        parent: Some(LimitId(0)),
        hard: true,
        max: 40 * u64::from(objects),
    };
    let mut rows = vec![in alloc; share; 9]?;
    rows[0] = LimitRow {
        parent: None,
        hard: true,
        max: 320 * u64::from(objects),
    };
    Ok(rows)
}

/// What the trace declares, with limits that have no room yet, and no operations. It is read from its text, as any trace is.
pub(crate) fn declared(alloc: Global) -> Result<Trace, NoMemory>
    ensures { IfOk result (λ t. meaning_of t ≡ declared_for 0 (replicate processes []) []) }
{
    let text = b"kaffe 1
kernel 80 8
type Node ref ref int
limit root 0
limit l0 root hard 0
limit l1 root hard 0
limit l2 root hard 0
limit l3 root hard 0
limit l4 root hard 0
limit l5 root hard 0
limit l6 root hard 0
limit l7 root hard 0
proc w0 l0
proc w1 l1
proc w2 l2
proc w3 l3
proc w4 l4
proc w5 l5
proc w6 l6
proc w7 l7
";
    match read_trace(alloc, text) {
        Ok(trace) => Ok(trace),
        Err(TraceError::NoMemory(refused)) => Err(refused),
        Err(TraceError::Bad { .. }) => unreachable!(),
    }
}
