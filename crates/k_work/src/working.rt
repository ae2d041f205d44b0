//! The work of a journal.
ghost use Rattle.std.specs.Prelude.{◌≡◌, ◌<◌, ◌^◌, [], IfOk, length};
ghost use Rattle.k_state.specs.Setups.{AreSetupRules};
ghost use Rattle.k_types.specs.Steps.{IsLegalHistory};
ghost use Rattle.k_types.specs.Trace.{trace_of};
ghost use Rattle.k_work.specs.Crediting.{AreSmall, HasRoomForAll, with_credits};
ghost use Rattle.k_work.specs.Credits.{asker_of, credit_of, kernel_asker, work_in};
ghost use Rattle.k_work.specs.Tables.{work_of};

use crate::rows::WorkTable;
use k_io::NoMemory;
use k_plain::PlainState;
use k_text::View;
use k_types::{Event, Heap, Op, Setup};
use std::alloc::Global;

/// Who asked for the kernel's last collection, after the event: a process, or, as none, the closing.
fn kernel_asker(event: &Event, before: Option<u32>) -> Option<u32>
    ensures { result ≡ kernel_asker event.now before }
{
    match *event {
        Event::Done {
            pid,
            op: Op::KCollect,
            ..
        } => Some(pid.0),
        Event::Closing => None,
        _ => before,
    }
}

/// Who asked for the heap's last collection, where this one did for the kernel's.
fn asker_of(kernel: Option<u32>, heap: Heap) -> Option<u32>
    ensures { result ≡ asker_of kernel heap }
{
    match heap {
        Heap::Kernel => kernel,
        Heap::User(pid) => Some(pid.0),
        Heap::Shared(_) => None,
    }
}

/// The work of a collection of the heap that left the state.
fn work_in(state: &PlainState, heap: Heap) -> u64
    requires { work_in state.now.setup state.now.state heap < 2 ^ 64 }
    ensures { result ≡ work_in state.now.setup state.now.state heap }
{
    u64::from(state.objects_of(heap)) + state.refs_of(heap)
}

/// Credits the event, which left the state, where it is the end of a collection.
fn credit(table: &mut WorkTable, state: &PlainState, kernel: Option<u32>, event: &Event)
    requires { HasRoomForAll table.old (credit_of state.now.setup state.now.state kernel event.now) }
    ensures { table.new ≡ with_credits (credit_of state.now.setup state.now.state kernel event.now) table.old }
{
    if let Event::Ended { heap, .. } = *event {
        table.credit(asker_of(kernel, heap), work_in(state, heap));
    }
}

/// The work of the view's journal: how many collections of it are credited to each process and to the closing, and their work. It
/// steps the plain machine over the journal, whose steps look through lists.
///
/// `NoMemory` comes where the machine or the table finds no memory.
pub fn work_of<V: View>(alloc: Global, setup: &Setup, view: &V) -> Result<WorkTable, NoMemory>
    requires setup { AreSetupRules (trace_of setup.now [] []) }
    requires legal { IsLegalHistory (trace_of setup.now [] []) (V.events view.now) }
    requires few { length (V.events view.now) < 2 ^ 29 }
    ensures exact { IfOk result (λ t. t ≡ work_of (trace_of setup.now [] []) (V.events view.now)) }
    ensures small { IfOk result AreSmall }
{
    let mut state = PlainState::opening(alloc, setup)?;
    let mut table = WorkTable::empty(alloc, setup.procs.len())?;
    let mut kernel = None;
    for i in 0..view.events() {
        let event = view.event(i);
        state.take(alloc, event)?;
        credit(&mut table, &state, kernel, event);
        kernel = kernel_asker(event, kernel);
    }
    Ok(table)
}
