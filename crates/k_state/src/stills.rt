//! A state that is given part by part, in which nothing is done, scanned or closed.
ghost use Rattle.std.specs.Prelude.{◌≡◌, ◌<◌, ◌++◌, ◌∷◌, [], Some, ◌^◌, IfOk, OnErr, OnOk, length};
ghost use Rattle.std.specs.List.{AllByRecursion};
ghost use Rattle.k_state.specs.Machines.{AreTotals, IsPlain, Machine};
ghost use Rattle.k_state.specs.Stills.{blank};
ghost use Rattle.k_types.specs.Sound.{IsOrdered};
ghost use Rattle.k_types.specs.Trace.{process_count, segment_count, trace_of};
ghost use Rattle.k_types.specs.Updates.{set_register};

use crate::exits::Exits;
use crate::items::{ExitItem, Share};
use crate::lists::PlainLists;
use crate::objects::PlainObject;
use crate::opening::{copy_of, null_registers};
use crate::registers::Registers;
use crate::segments::Segments;
use k_types::{Name, NoMemory, Phase, Pid, Reg, Setup, push};
use std::alloc::Global;
use std::marker::Model;

/// A state that is given part by part: nothing is done, no collection is open and the last one has not begun.
///
/// Contracts see the state. What is added stands behind what was there.
#[derive(Drop)]
pub struct StillState {
    pub(crate) objects: Vec<PlainObject>,
    pub(crate) made: Vec<u32>,
    pub(crate) registers: Vec<Registers>,
    pub(crate) done: Vec<u32>,
    pub(crate) exits: Vec<ExitItem>,
    pub(crate) shares: Vec<Share>,
    pub(crate) phases: Vec<Phase>,
    pub(crate) ended: Vec<u32>,
    pub(crate) maxima: Vec<u64>,
}

impl Model for StillState {
    ghost use Rattle.std.specs.Prelude.{[], false};
    ghost use Rattle.k_types.specs.State.{State};

    ghost Value = { State };

    ghost view = { λ s. record {
      objects = s.objects.items;
      made = s.made.items;
      registers = s.registers.items;
      done = s.done.items;
      exits = s.exits.items;
      shares = s.shares.items;
      phases = s.phases.items;
      ended = s.ended.items;
      scans = [];
      closed = false;
      maxima = s.maxima.items;
    } };
}

impl StillState {
    /// Nothing is given yet; each of so many processes has null in its registers. `NoMemory` comes where the registers find no
    /// memory.
    pub fn blank(alloc: Global, procs: usize) -> Result<StillState, NoMemory>
        ensures { IfOk result (λ s. s ≡ blank procs) }
    {
        Ok(StillState {
            objects: Vec::new(alloc),
            made: Vec::new(alloc),
            registers: null_registers(alloc, procs)?,
            done: vec![in alloc; 0; procs]?,
            exits: Vec::new(alloc),
            shares: Vec::new(alloc),
            phases: Vec::new(alloc),
            ended: Vec::new(alloc),
            maxima: Vec::new(alloc),
        })
    }

    /// The objects, as they were given.
    pub fn objects(&self) -> &[PlainObject]
        ensures { result.now ≡ self.now.objects }
    {
        &self.objects
    }

    /// How many serials each segment has given.
    pub fn made(&self) -> &[u32]
        ensures { result.now ≡ self.now.made }
    {
        &self.made
    }

    /// Adds an object.
    pub fn add_object(&mut self, object: PlainObject) -> Result<(), NoMemory>
        ensures ok { OnOk result (self.new ≡ record self.old { objects = self.old.objects ++ object ∷ [] }) }
        ensures err { OnErr result (self.new ≡ self.old) }
    {
        push(&mut self.objects, object)
    }

    /// Adds how many serials the next segment has given.
    pub fn add_made(&mut self, serials: u32) -> Result<(), NoMemory>
        ensures ok { OnOk result (self.new ≡ record self.old { made = self.old.made ++ serials ∷ [] }) }
        ensures err { OnErr result (self.new ≡ self.old) }
    {
        push(&mut self.made, serials)
    }

    /// Sets a register of a process.
    #[tactic(auto, unfolding(k_types::specs::Updates::set_register))]
    pub fn set_register(&mut self, pid: Pid, r: Reg, name: Name)
        requires process { pid.0 < length self.old.registers }
        requires register { r.0 < 16 }
        ensures { self.new ≡ set_register pid.0 r.0 (Some name) self.old }
    {
        let registers = &mut self.registers[pid.0 as usize];
        registers.set(r, Some(name));
    }

    /// Adds an exit item.
    pub fn add_exit(&mut self, exit: ExitItem) -> Result<(), NoMemory>
        ensures ok { OnOk result (self.new ≡ record self.old { exits = self.old.exits ++ exit ∷ [] }) }
        ensures err { OnErr result (self.new ≡ self.old) }
    {
        push(&mut self.exits, exit)
    }

    /// Adds a share.
    pub fn add_share(&mut self, share: Share) -> Result<(), NoMemory>
        ensures ok { OnOk result (self.new ≡ record self.old { shares = self.old.shares ++ share ∷ [] }) }
        ensures err { OnErr result (self.new ≡ self.old) }
    {
        push(&mut self.shares, share)
    }

    /// Adds the phase of the next shared heap.
    pub fn add_phase(&mut self, phase: Phase) -> Result<(), NoMemory>
        ensures ok { OnOk result (self.new ≡ record self.old { phases = self.old.phases ++ phase ∷ [] }) }
        ensures err { OnErr result (self.new ≡ self.old) }
    {
        push(&mut self.phases, phase)
    }

    /// Adds a process that has ended.
    pub fn add_ended(&mut self, pid: Pid) -> Result<(), NoMemory>
        ensures ok { OnOk result (self.new ≡ record self.old { ended = self.old.ended ++ pid.0 ∷ [] }) }
        ensures err { OnErr result (self.new ≡ self.old) }
    {
        push(&mut self.ended, pid.0)
    }

    /// Adds the maximum of the next limit, in bytes.
    pub fn add_maximum(&mut self, max: u64) -> Result<(), NoMemory>
        ensures ok { OnOk result (self.new ≡ record self.old { maxima = self.old.maxima ++ max ∷ [] }) }
        ensures err { OnErr result (self.new ≡ self.old) }
    {
        push(&mut self.maxima, max)
    }
}

impl PlainLists {
    /// The machine with a copy of the setup, in the state that was given. `NoMemory` comes where the copy, the lists of the segments
    /// or the chains of the exit items find no memory.
    pub fn of(alloc: Global, setup: &Setup, state: StillState) -> Result<PlainLists, NoMemory>
        requires { IsPlain (record { setup = trace_of setup.now [] []; state = state }) }
        ensures { IfOk result (λ s. s ≡ record { setup = trace_of setup.now [] []; state = state }) }
    {
        let (setup, segments, exits) = grouped(alloc, setup, state.objects, state.exits)?;
        Ok(PlainLists {
            setup,
            segments,
            made: state.made,
            registers: state.registers,
            done: state.done,
            exits,
            shares: state.shares,
            phases: state.phases,
            ended: state.ended,
            scans: Vec::new(alloc),
            closed: false,
            maxima: state.maxima,
        })
    }
}

// A copy of the setup, with the objects in the lists of their segments and the exit items on their chains.
fn grouped(
    alloc: Global,
    setup: &Setup,
    objects: Vec<PlainObject>,
    exits: Vec<ExitItem>,
) -> Result<(Setup, Segments, Exits), NoMemory>
    requires ordered { IsOrdered objects.items }
    requires known { AllByRecursion (λ o. o.name.seg.0 < segment_count (trace_of setup.now [] [])) objects.items }
    requires few { length objects.items < 2 ^ 32 }
    requires few_exits { length exits.items < 2 ^ 32 }
    ensures setup { IfOk result (λ r. trace_of r.0 [] [] ≡ trace_of setup.now [] []) }
    ensures objects { IfOk result (λ r. r.1.objects ≡ objects.items) }
    ensures count { IfOk result (λ r. length r.1.totals ≡ segment_count (trace_of setup.now [] [])) }
    ensures totals { IfOk result (λ r. AreTotals objects.items r.1.totals) }
    ensures exits { IfOk result (λ r. r.2 ≡ exits.items) }
{
    let setup = copy_of(alloc, setup)?;
    let count = 1 + setup.procs.len() + setup.shared as usize;
    let segments = Segments::of(alloc, count, objects)?;
    let exits = Exits::of(alloc, exits)?;
    Ok((setup, segments, exits))
}
