//! The machine on one thread, which takes the events that a host answers.
ghost use Rattle.std.specs.Prelude.{◌≡◌, IfOk, IsFalse, IsTrue, OnErr, []};
ghost use Rattle.k_types.specs.Trace.{trace_of};
ghost use Rattle.k_state.specs.Setups.{AreSetupRules};
ghost use Rattle.k_host.specs.Twins.{RefusesEvent, TakesEvent, first_twin};

use k_plain::{PlainState, plain_step};
use k_types::{Event, NoMemory, Setup};
use std::alloc::Global;
use std::marker::Model;

/// The most events that a twin takes.
const MOST_EVENTS: u32 = 1_000_000;

/// The machine on one thread, with the number of events that it has taken.
#[derive(Drop)]
pub struct Twin {
    pub(crate) state: PlainState,
    pub(crate) taken: u32,
}

impl Model for Twin {
    ghost use Rattle.k_host.specs.Twins.{HasTaken, TwinValue};

    ghost Value = { TwinValue };

    ghost view = { λ t. record { machine = t.state; taken = t.taken } };

    ghost invariant = { λ t. HasTaken t.state t.taken };
}

impl Twin {
    /// The machine before the first event. `NoMemory` comes where its lists find no memory.
    pub fn make(alloc: Global, setup: &Setup) -> Result<Twin, NoMemory>
        requires { AreSetupRules (trace_of setup.now [] []) }
        ensures { IfOk result (λ twin. twin ≡ first_twin (trace_of setup.now [] [])) }
    {
        let state = PlainState::opening(alloc, setup)?;
        Ok(Twin { state, taken: 0 })
    }

    /// Takes the step of the event if the machine has it, and says whether it has: an operation with another reply is no step of the
    /// machine, nor is the end of a collection with other numbers. It takes a million events; then it says no. A no changes nothing, nor
    /// does `NoMemory`, which comes where what is made or marked finds no memory.
    pub fn take(&mut self, alloc: Global, event: &Event) -> Result<bool, NoMemory>
        ensures took { IfOk result (λ had. IsTrue had → TakesEvent self.old self.new event.now) }
        ensures refused { IfOk result (λ had. IsFalse had → RefusesEvent self.old self.new event.now) }
        ensures same { OnErr result (self.new ≡ self.old) }
    {
        if self.taken >= MOST_EVENTS {
            return Ok(false);
        }
        if !plain_step(alloc, &mut self.state, event)? {
            return Ok(false);
        }
        self.taken += 1;
        Ok(true)
    }
}
