//! Whether a journal can be printed.
ghost use Rattle.std.specs.Prelude.{◌≡◌, ◌+◌, ◌<◌, ◌≤◌, ◌∷◌, ◌⊎◌, [], IfErr, IfOk, IsFalse, IsTrue, OnOk, length};
ghost use Rattle.k_types.specs.Bounds.{most_operations};
ghost use Rattle.k_types.specs.Complete.{all_ended};
ghost use Rattle.k_spell.specs.Spelled.{is_spelled_event};
ghost use Rattle.k_print.specs.Done.{order_of};
ghost use Rattle.k_print.specs.Printed.{CanBeTraced, IsNotPrinted, Journal};

use crate::errors::PrintError;
use k_plain::{PlainState, is_quiet};
use k_reply::all_ended;
use k_spell::is_spelled;
use k_types::{Event, MOST_OPERATIONS};

/// How many operations are done with the event, where so many were done before.
fn counted(done: usize, event: &Event) -> Result<usize, PrintError>
    requires { done ≤ most_operations }
    ensures count { IfOk result (λ n. n ≡ done + length (order_of (event.now ∷ []))) }
    ensures few { IfOk result (λ n. n ≤ most_operations) }
    ensures spelled { OnOk result (IsTrue (is_spelled_event event.now)) }
    ensures why { IfErr result (λ why. ((why ≡ PrintError.Unspelled) × IsFalse (is_spelled_event event.now))
        ⊎ ((why ≡ PrintError.TooMany) × (most_operations < done + length (order_of (event.now ∷ []))))) }
{
    let Event::Done { op, .. } = event else {
        return Ok(done);
    };
    if !is_spelled(op) {
        return Err(PrintError::Unspelled);
    }
    if done >= MOST_OPERATIONS {
        return Err(PrintError::TooMany);
    }
    Ok(done + 1)
}

/// Tells that a trace can have the operations of the events.
pub(crate) fn tested(events: &[Event]) -> Result<(), PrintError>
    ensures can { (j : Journal) → j.history ≡ events.now → OnOk result (CanBeTraced j) }
    ensures why { (j : Journal) → j.history ≡ events.now → IfErr result (λ why. IsNotPrinted j why) }
{
    let mut done = 0;
    for event in events {
        done = counted(done, event)?;
    }
    Ok(())
}

/// Tells that some process lives, and that no collection is open.
pub(crate) fn goes_on(state: &PlainState) -> Result<(), PrintError>
    ensures lives { OnOk result (IsFalse (all_ended state.now.setup state.now.state)) }
    ensures quiet { OnOk result (state.now.state.scans ≡ []) }
    ensures why { IfErr result (λ why. ((why ≡ PrintError.Over) × IsTrue (all_ended state.now.setup state.now.state))
        ⊎ ((why ≡ PrintError.Open) × (¬ (state.now.state.scans ≡ [])))) }
{
    let lists = state.lists();
    if all_ended(lists) {
        return Err(PrintError::Over);
    }
    if !is_quiet(lists) {
        return Err(PrintError::Open);
    }
    Ok(())
}
