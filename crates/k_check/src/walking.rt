//! A machine that walks along the events of a report.
ghost use Rattle.std.specs.Prelude.{◌≡◌, ◌↔◌, ◌<◌, ◌++◌, ◌∷◌, [], IfOk, OnErr, IsTrue, IsFalse, length, map, option_copied, slice_get, slice_index_or};
ghost use Rattle.k_types.specs.Complete.{IsComplete};
ghost use Rattle.k_types.specs.Steps.{done_by, state_after};
ghost use Rattle.k_types.specs.Trace.{process_count, operations_of};
ghost use Rattle.k_trace.specs.Meaning.{meaning_of};
ghost use Rattle.k_trace.specs.Rules.{IsTrace};
ghost use Rattle.k_reports.specs.Begun.{IsBegun};
ghost use Rattle.k_state.specs.Setups.{setup_of};
ghost use Rattle.k_check.specs.Turns.{IsInTurn};

use k_plain::{PlainState, is_complete, plain_step};
use k_solo::PlainEnd;
use k_trace::{Names, Trace};
use k_types::{Event, NoMemory, Op, Pid};
use std::alloc::Global;
use std::marker::Model;

/// A machine that has done the events of a history that is begun.
///
/// Contracts see the trace and the history.
#[derive(Drop)]
pub struct Walk<'a> {
    trace: &'a Trace,
    state: PlainState,
    events: Vec<Event>,
}

impl<'a> Model for Walk<'a> {
    ghost use Rattle.k_trace.specs.Meaning.{meaning_of};
    ghost use Rattle.k_check.specs.Walks.{IsWalk, Walked};

    ghost Value = { Walked };

    ghost view = { λ w. record { trace = meaning_of w.trace.now; history = w.events.items } };

    ghost invariant = { λ w. IsWalk (record { trace = meaning_of w.trace.now; history = w.events.items }) w.state };
}

// The process's operation of that number, counted from 0.
fn operation_at(ops: &[Vec<Op>], pid: Pid, done: u32) -> Option<&Op>
    ensures { option_copied result ≡ slice_get (slice_index_or (map (λ list. list.items) ops.now) pid.0 []) done }
{
    match ops.get(pid.0 as usize) {
        Some(list) => list.get(done as usize),
        None => None,
    }
}

fn is_same_op(a: Op, b: Op) -> bool
    ensures { IsTrue result ↔ a ≡ b }
{
    a == b
}

impl<'a> Walk<'a> {
    /// Begins with no event. `NoMemory` comes where the machine finds no memory.
    pub fn begin(alloc: Global, trace: &'a Trace) -> Result<Walk<'a>, NoMemory>
        requires { IsTrace (meaning_of trace.now) }
        ensures { IfOk result (λ w. w ≡ record { trace = meaning_of trace.now; history = [] }) }
    {
        let state = PlainState::opening(alloc, &trace.setup)?;
        Ok(Walk {
            trace,
            state,
            events: Vec::new(alloc),
        })
    }

    /// The names of the trace.
    pub fn names(&self) -> &Names
        ensures names { result.now ≡ self.now.trace.names }
        ensures good { IsTrace self.now.trace }
    {
        let _all = &self.events;
        &self.trace.names
    }

    // The process's next operation; none after its last one.
    fn next_operation(&self, pid: Pid) -> Option<Op>
        requires { pid.0 < process_count self.now.trace.trace }
        ensures { result ≡ slice_get (operations_of self.now.trace.trace pid.0) (length (done_by pid.0 self.now.history)) }
    {
        operation_at(&self.trace.ops, pid, self.state.lists().done(pid)).copied()
    }

    // Whether the event, if it does an operation, does the next one of its process.
    fn is_in_turn(&self, event: &Event) -> bool
        ensures { IsTrue result ↔ IsInTurn self.now.trace.trace self.now.history event.now }
    {
        match event {
            Event::Done { pid, op, .. } => {
                if pid.0 as usize >= self.state.lists().process_count() {
                    return false;
                }
                match self.next_operation(*pid) {
                    Some(next) => is_same_op(next, *op),
                    None => false,
                }
            }
            _ => true,
        }
    }

    /// Takes the event where it can come next, and says whether it can. `NoMemory` comes where the step or the list of events
    /// finds no memory. Where the event is not taken the walk stays where it is.
    pub fn take(&mut self, alloc: Global, event: &Event) -> Result<bool, NoMemory>
        ensures trace { self.new.trace ≡ self.old.trace }
        ensures next { IfOk result (λ taken. IsTrue taken ↔ IsBegun self.old.trace.trace (self.old.history ++ event.now ∷ [])) }
        ensures taken { IfOk result (λ taken. IsTrue taken → self.new.history ≡ self.old.history ++ event.now ∷ []) }
        ensures left { IfOk result (λ taken. IsFalse taken → self.new.history ≡ self.old.history) }
        ensures err { OnErr result (self.new.history ≡ self.old.history) }
    {
        if !self.is_in_turn(event) {
            return Ok(false);
        }
        self.events.reserve(1)?;
        if !plain_step(alloc, &mut self.state, event)? {
            return Ok(false);
        }
        match self.events.push(*event) {
            Ok(()) => Ok(true),
            Err(_) => unreachable!(),
        }
    }

    /// Whether the history is complete. Walks over the events for each process.
    pub fn is_complete(&self) -> bool
        ensures { IsTrue result ↔ IsComplete self.now.trace.trace self.now.history }
    {
        is_complete(&self.state, &self.trace.ops, &self.events)
    }

    /// The machine's state with the events, to be printed. `NoMemory` comes where what is sorted finds no memory.
    pub fn into_end(self, alloc: Global) -> Result<PlainEnd, NoMemory>
        ensures { IfOk result (λ end. end ≡ record {
          machine = record { setup = setup_of self.entry.trace.trace; state = state_after self.entry.trace.trace self.entry.history };
          events = self.entry.history;
        }) }
    {
        PlainEnd::of(alloc, self.state, self.events)
    }
}
