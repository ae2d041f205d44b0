//! What a run leaves.
ghost use Rattle.std.specs.Prelude.{◌≡◌, ◌<◌, [], slice_index_or};
ghost use Rattle.k_types.specs.Trace.{IsHeap, Trace, segment_count, trace_of};
ghost use Rattle.k_text.specs.Shown.{in_order};
ghost use Rattle.k_process.specs.Heaps.{value_of};
ghost use Rattle.k_process.specs.Over.{cells_of};
ghost use Rattle.k_outcome.specs.Cells.{cell_at};
ghost use Rattle.k_outcome.specs.Ends.{IsEnd, last_state};
ghost use Rattle.k_outcome.specs.Listed.{CanEnd};

use crate::cells::Cells;
use crate::listing::{count_made, list_all_targets, segment_of};
use crate::rooms::ReportRooms;
use k_process::Heaps;
use k_trace::Names;
use k_types::{Heap, Name, Seg, Setup};
use std::marker::Model;

/// The end of a run: its journal, its setup, and all cells as they are then. It shows the machine's state after the journal.
pub struct Outcome {
    /// The names that the trace declares.
    pub names: Names,
    setup: Setup,
    cells: Cells,
    // How many serials each segment has given.
    made: Vec<u32>,
    // The targets of each heap's exit items in order, by the segments with which the heaps begin.
    targets: Vec<Vec<Name>>,
}

impl Drop for Outcome {
    fn drop(self) {
        let Outcome {
            names: _,
            setup: _,
            cells: _,
            made: _,
            targets: _,
        } = self;
    }
}

impl Model for Outcome {
    ghost use Rattle.k_outcome.specs.Ends.{EndValue};

    ghost Value = { EndValue };

    ghost use Rattle.std.specs.Prelude.{[], map};
    ghost use Rattle.k_types.specs.Trace.{trace_of};
    ghost use Rattle.k_outcome.specs.Listed.{IsListed};

    ghost view = { λ o. record { names = o.names; setup = trace_of o.setup [] []; cells = o.cells } };

    ghost invariant = { λ o. IsListed (record { names = o.names; setup = trace_of o.setup [] []; cells = o.cells }) o.made.items (map (λ row. row.items) o.targets.items) };
}

/// Puts the end of a run together from what the run leaves, and from the rooms that were made before it. It passes the journal
/// once, and sorts the exit items of each heap. It takes no memory.
pub fn outcome_of(names: Names, setup: Setup, heaps: Heaps, rooms: ReportRooms) -> Outcome
    ghost trace: { Trace }
    requires { CanEnd trace (trace_of setup [] []) (cells_of (value_of heaps)) rooms }
    ensures { result ≡ record { names = names; setup = trace_of setup [] []; cells = cells_of (value_of heaps) } }
{
    let cells = Cells { heaps };
    let ReportRooms {
        mut made,
        mut targets,
    } = rooms;
    count_made(&mut made, cells.book());
    list_all_targets(&mut targets, &cells, &setup);
    Outcome {
        names,
        setup,
        cells,
        made,
        targets,
    }
}

impl Outcome {
    // The cells and the book.
    pub(crate) fn cells(&self) -> &Cells
        ensures cells { result.now ≡ self.now.cells }
        ensures end { IsEnd self.now }
    {
        &self.cells
    }

    /// What the trace says before its operations.
    pub fn setup(&self) -> &Setup
        ensures setup { trace_of result.now [] [] ≡ self.now.setup }
        ensures end { IsEnd self.now }
    {
        &self.setup
    }

    // How many serials were given in the segment.
    pub(crate) fn made_in(&self, seg: Seg) -> u32
        requires { seg.0 < segment_count self.now.setup }
        ensures { result ≡ slice_index_or (last_state self.now).made seg.0 0 }
    {
        let _setup = self.setup();
        self.made[seg.0 as usize]
    }

    // The targets of the heap's exit items, by segment and serial.
    pub(crate) fn targets_of(&self, heap: Heap) -> &[Name]
        requires { IsHeap self.now.setup heap }
        ensures { result.now ≡ in_order (cell_at self.now.cells heap).exits }
    {
        let seg = segment_of(&self.setup, heap);
        let row = &self.targets[seg];
        row
    }
}
