//! The run of a whole trace on the caller's thread.
ghost use Rattle.std.specs.Prelude.{◌≡◌, ◌<◌, IfOk, List, map, option_copied, slice_get, slice_index_or};
ghost use Rattle.k_solo.specs.Runs.{IsFiled};
ghost use Rattle.k_state.specs.Setups.{setup_of};
ghost use Rattle.k_trace.specs.Meaning.{meaning_of};
ghost use Rattle.k_types.specs.FileOrder.{next_operation};
ghost use Rattle.k_types.specs.Trace.{Trace as Meant, process_count};
ghost use Rattle.k_types.specs.TraceRules.{KeepsRules};
ghost use Rattle.k_types.specs.declared.op.Op.{Op};

use crate::taking::{do_last, do_operation};
use k_plain::PlainState;
use k_solo::PlainEnd;
use k_trace::Trace;
use k_types::{NoMemory, Op, Pid};
use std::alloc::Global;

// The process's next operation; none once it has ended.
fn next_operation<'a>(state: &PlainState, ops: &'a [Vec<Op>], pid: Pid) -> Option<&'a Op>
    requires { pid.0 < process_count state.now.setup }
    ensures { (trace : Meant) → trace.operations ≡ map (λ list. list.items) ops.now →
        option_copied result ≡ next_operation trace state.now.state pid.0 }
{
    let lists = state.lists();
    if !lists.lives(pid) {
        return None;
    }
    match ops.get(pid.0 as usize) {
        Some(list) => list.get(lists.done(pid) as usize),
        None => None,
    }
}

/// Does the operations of a trace in the order of the file, on the caller's thread, with all that belongs to them: orphans are
/// absorbed before each collection of the kernel, each collection is ended at once, and where every process has ended the last
/// collection of the kernel closes the run.
///
/// The time goes with the operations, and with the objects and exit items over which collections walk. `NoMemory` comes where the
/// state or the journal finds no memory.
pub fn solo(alloc: Global, trace: &Trace) -> Result<PlainEnd, NoMemory>
    requires { KeepsRules (meaning_of trace.now).trace }
    ensures { IfOk result (λ end. IsFiled (meaning_of trace.now).trace end) }
{
    let mut state = PlainState::opening(alloc, &trace.setup)?;
    let mut events = Vec::with_capacity(alloc, trace.order.len())?;
    for pid in &trace.order {
        if let Some(op) = next_operation(&state, &trace.ops, *pid) {
            do_operation(alloc, &mut state, &mut events, *pid, op)?;
        }
    }
    do_last(alloc, &mut state, &mut events)?;
    PlainEnd::of(alloc, state, events)
}
