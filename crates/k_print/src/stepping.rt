//! The machine on one thread after a journal.
ghost use Rattle.std.specs.Prelude.{◌≡◌, ◌≤◌, [], IfErr, IfOk, length};
ghost use Rattle.k_print.specs.Printed.{IsJournal, IsNotPrinted, IsShown, journal_of};
ghost use Rattle.k_state.specs.Setups.{AreSetupRules};
ghost use Rattle.k_trace.specs.Named.{DeclaredNames};
ghost use Rattle.k_types.specs.Steps.{IsLegalHistory, state_after};
ghost use Rattle.k_types.specs.Trace.{trace_of};

use crate::errors::PrintError;
use crate::testing::{goes_on, tested};
use k_io::NoMemory;
use k_plain::PlainState;
use k_solo::PlainEnd;
use k_types::{Event, Setup};
use std::alloc::Global;

/// The machine after the events. `NoMemory` comes where its state finds no memory.
fn stepped(alloc: Global, setup: &Setup, events: &[Event]) -> Result<PlainState, NoMemory>
    requires rules { AreSetupRules (trace_of setup.now [] []) }
    requires legal { IsLegalHistory (trace_of setup.now [] []) events.now }
    requires few { length events.now ≤ 400066 }
    ensures setup { IfOk result (λ s. s.setup ≡ trace_of setup.now [] []) }
    ensures state { IfOk result (λ s. s.state ≡ state_after (trace_of setup.now [] []) events.now) }
{
    let mut state = PlainState::opening(alloc, setup)?;
    for event in events {
        state.take(alloc, event)?;
    }
    Ok(state)
}

/// The journal of these events, shown for printing.
pub(crate) fn shown(
    alloc: Global,
    setup: &Setup,
    events: Vec<Event>,
) -> Result<PlainEnd, PrintError>
    requires { (names : DeclaredNames) × IsJournal (journal_of names setup.now events.items) }
    ensures shown { (names : DeclaredNames) → IsJournal (journal_of names setup.now events.items) →
        IfOk result (λ end. IsShown (journal_of names setup.now events.items) end) }
    ensures why { (names : DeclaredNames) → IfErr result (λ why. IsNotPrinted (journal_of names setup.now events.items) why) }
{
    tested(&events)?;
    let state = stepped(alloc, setup, &events)?;
    goes_on(&state)?;
    Ok(PlainEnd::of(alloc, state, events)?)
}
