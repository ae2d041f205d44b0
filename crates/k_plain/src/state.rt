//! Sound states, and what changes them.
ghost use Rattle.std.specs.Prelude.{◌≡◌, ◌<◌, ◌↔◌, [], IfOk, IsFalse, IsTrue, OnErr, OnOk, length};
ghost use Rattle.k_plain.specs.Owned.{objects_owned, references_in};
ghost use Rattle.k_plain.specs.Sounds.{IsSoundMachine};
ghost use Rattle.k_scan.specs.k_state.Machines.{Machine};
ghost use Rattle.k_laws.specs.Setups.{AreSetupRules};
ghost use Rattle.k_scan.specs.k_state.Rooms.{HasRoom};
ghost use Rattle.k_types.specs.Effects.{step};
ghost use Rattle.k_types.specs.FileOrder.{end_of};
ghost use Rattle.k_types.specs.Replies.{reply_to};
ghost use Rattle.k_types.specs.State.{opening};
ghost use Rattle.k_types.specs.Steps.{IsPossible};
ghost use Rattle.k_types.specs.Totals.{total};
ghost use Rattle.k_types.specs.Trace.{trace_of};
ghost use Rattle.k_types.specs.declared.event.Event.TheVariants.{Done};

use crate::counting::{objects_of, refs_of};
use crate::operating::operate;
use crate::stepping::{step_if_possible, take_step};
use k_scan::{PlainLists, ending};
use k_types::{Event, Heap, NoMemory, Op, Pid, Reply, Setup};
use std::alloc::Global;
use std::marker::Model;

/// A sound state of the machine over plain lists, with the setup of its trace.
///
/// Contracts see the setup, as the trace that has it and no operations, and the machine's state.
#[derive(Drop)]
pub struct PlainState {
    lists: PlainLists,
}

impl Model for PlainState {
    ghost use Rattle.k_plain.specs.Sounds.{IsSoundMachine};
    ghost use Rattle.k_scan.specs.k_state.Machines.{Machine};

    ghost Value = { Machine };

    ghost view = { λ s. s.lists };

    ghost invariant = { λ s. IsSoundMachine s.lists };
}

impl PlainState {
    /// The machine's opening state. `NoMemory` comes where the lists find no memory.
    pub fn opening(alloc: Global, setup: &Setup) -> Result<PlainState, NoMemory>
        requires { AreSetupRules (trace_of setup.now [] []) }
        ensures { IfOk result (λ s. s ≡ record { setup = trace_of setup.now [] []; state = opening (trace_of setup.now [] []) }) }
    {
        Ok(PlainState {
            lists: PlainLists::opening(alloc, setup)?,
        })
    }

    /// The lists of the state, to read.
    pub fn lists(&self) -> &PlainLists
        ensures same { result.now ≡ self.now }
        ensures sound { IsSoundMachine self.now }
    {
        &self.lists
    }

    /// The lists of the state.
    pub fn into_lists(self) -> PlainLists
        ensures same { result ≡ self }
        ensures sound { IsSoundMachine self }
    {
        self.lists
    }

    /// Does an operation that the machine can do now, as the machine does, and gives the machine's reply. What is refused
    /// changes the count of operations done alone. Each size that is tested is tested against sums over all processes and
    /// segments; a collection or an end walks over the lists that it changes.
    ///
    /// `NoMemory` comes where an object, an exit item, a share, a collection or an end finds no memory, and leaves the state as
    /// it was.
    pub fn operate(&mut self, alloc: Global, pid: Pid, op: &Op) -> Result<Reply, NoMemory>
        requires possible { IsPossible self.old.setup self.old.state
            (Done pid op.now (reply_to self.old.setup self.old.state pid.0 op.now)) }
        requires room { HasRoom 1 self.old.state }
        ensures setup { self.new.setup ≡ self.old.setup }
        ensures reply { IfOk result (λ said. said ≡ reply_to self.old.setup self.old.state pid.0 op.now) }
        ensures state { IfOk result (λ said. self.new.state ≡ step self.old.setup self.old.state (Done pid op.now said)) }
        ensures err { OnErr result (self.new ≡ self.old) }
    {
        operate(alloc, &mut self.lists, pid, op)
    }

    /// Takes a step that the machine has. It costs what the step changes and tests. `NoMemory` comes where what is made or
    /// marked finds no memory, and leaves the state as it was.
    pub fn take(&mut self, alloc: Global, event: &Event) -> Result<(), NoMemory>
        requires possible { IsPossible self.old.setup self.old.state event.now }
        requires room { HasRoom 1 self.old.state }
        ensures setup { self.new.setup ≡ self.old.setup }
        ensures state { OnOk result (self.new.state ≡ step self.old.setup self.old.state event.now) }
        ensures err { OnErr result (self.new ≡ self.old) }
    {
        take_step(alloc, &mut self.lists, event)
    }

    /// How many objects the heap owns. Walks over all segments.
    pub fn objects_of(&self, heap: Heap) -> u32
        ensures { result ≡ length (objects_owned self.now.setup self.now.state heap) }
    {
        objects_of(&self.lists, heap)
    }

    /// How many reference fields these have. Walks over all segments and the objects of the heap.
    pub fn refs_of(&self, heap: Heap) -> u64
        ensures { result ≡ total references_in (objects_owned self.now.setup self.now.state heap) }
    {
        refs_of(&self.lists, heap)
    }

    /// The event with which the heap's open collection ends now. Walks over the objects of the heap, all exit items and shares.
    /// `NoMemory` comes where the marks find no memory.
    pub fn end_of(&self, alloc: Global, heap: Heap) -> Result<Event, NoMemory>
        requires { HasRoom 1 self.now.state }
        ensures { IfOk result (λ event. event ≡ end_of self.now.setup self.now.state heap) }
    {
        ending(alloc, &self.lists, heap)
    }
}

/// Takes the step of the event, if the machine has it now, and says whether it has. An operation with another reply, or the end
/// of a collection with other numbers, is no step of the machine.
///
/// An end of a collection walks over the objects of the heap, all exit items and shares; the other events cost what they change
/// and the sums that they test. `NoMemory` comes where what is made or marked finds no memory, and leaves the state as it was.
pub fn plain_step(alloc: Global, state: &mut PlainState, event: &Event) -> Result<bool, NoMemory>
    requires { HasRoom 1 state.old.state }
    ensures setup { state.new.setup ≡ state.old.setup }
    ensures possible { IfOk result (λ had. IsTrue had ↔ IsPossible state.old.setup state.old.state event.now) }
    ensures stepped { IfOk result (λ had. IsTrue had → state.new.state ≡ step state.old.setup state.old.state event.now) }
    ensures same { IfOk result (λ had. IsFalse had → state.new ≡ state.old) }
    ensures err { OnErr result (state.new ≡ state.old) }
{
    step_if_possible(alloc, &mut state.lists, event)
}
