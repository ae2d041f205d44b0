//! A state with the events that led to it.
ghost use Rattle.std.specs.Prelude.{◌≡◌, ◌<◌, ◌^◌, IfOk, length};
ghost use Rattle.std.specs.List.{AllByRecursion};
ghost use Rattle.k_text.specs.Shown.{exits_of};
ghost use Rattle.k_types.specs.Known.{IsKnownEvent};
ghost use Rattle.k_types.specs.Trace.{IsHeap};
ghost use Rattle.k_solo.specs.Runs.{Run};

use crate::targets::all_targets;
use k_plain::PlainState;
use k_state::PlainLists;
use k_types::{Event, Heap, Name, NoMemory};
use std::alloc::Global;
use std::marker::Model;

/// A state and the events that led to it, so that they can be printed. Beside them stand the targets of each heap's exit items
/// in order, sorted once.
#[derive(Drop)]
pub struct PlainEnd {
    pub(crate) lists: PlainLists,
    pub(crate) events: Vec<Event>,
    pub(crate) targets: Vec<Vec<Name>>,
}

impl Model for PlainEnd {
    ghost use Rattle.std.specs.Prelude.{map};
    ghost use Rattle.k_solo.specs.Runs.{IsArranged, Run};

    ghost Value = { Run };

    ghost view = { λ e. record { machine = e.lists; events = e.events.items } };

    ghost invariant = { λ e. IsArranged (record { machine = e.lists; events = e.events.items }) (map (λ row. row.items) e.targets.items) };
}

impl PlainEnd {
    /// Joins a state and the events that led to it, and sorts the exit items. `NoMemory` comes where these find no memory.
    pub fn of(alloc: Global, state: PlainState, events: Vec<Event>) -> Result<PlainEnd, NoMemory>
        requires known { AllByRecursion (IsKnownEvent state.setup) events.items }
        requires few { length events.items < 2 ^ 32 }
        ensures { IfOk result (λ end. end ≡ record { machine = state; events = events.items }) }
    {
        let lists = state.into_lists();
        let targets = all_targets(alloc, &lists)?;
        Ok(PlainEnd {
            lists,
            events,
            targets,
        })
    }

    // The targets of the heap's exit items, by segment and serial.
    pub(crate) fn targets_of(&self, heap: Heap) -> &[Name]
        requires { IsHeap self.now.machine.setup heap }
        ensures { result.now ≡ exits_of self.now.machine.state.exits heap }
    {
        let seg = self.lists.segment_of(heap);
        let row = &self.targets[seg.0 as usize];
        row
    }
}
