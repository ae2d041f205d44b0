//! The cell and how it is made.
ghost use Rattle.std.specs.Prelude.{◌≡◌, ◌<◌, ◌^◌, [], IfOk};
ghost use Rattle.std.specs.Borrow.{sem};
ghost use Rattle.k_types.specs.Trace.{segment_count, trace_of};
ghost use Rattle.k_shared.specs.SharedHeaps.{opened_shared};

use k_cell::{HoldingRooms, Holdings, Note};
use k_types::{NoMemory, Phase, Seg, Setup, SharedId};
use std::alloc::Global;
use std::marker::Model;

/// One shared heap, with its phase.
pub struct SharedCell {
    pub(crate) holdings: Holdings,
    pub(crate) id: SharedId,
    // That with which the heap begins.
    pub(crate) seg: Seg,
    pub(crate) phase: Phase,
}

impl Drop for SharedCell {
    fn drop(self) {
        let SharedCell {
            holdings: _,
            id: _,
            seg: _,
            phase: _,
        } = self;
    }
}

impl Model for SharedCell {
    ghost use Rattle.k_shared.specs.SharedHeaps.{SharedRecord, shared_seen};

    ghost Value = { SharedRecord };

    ghost use Rattle.std.specs.Prelude.{◌≡◌};
    ghost use Rattle.k_types.specs.declared.names.CellPhase.TheVariants.{Idle};

    ghost view = { λ c. shared_seen c.holdings c.id c.seg c.phase };

    ghost invariant = { λ c. c.holdings.value.collection ≡ Idle };
}

impl SharedCell {
    ghost use Rattle.k_shared.specs.Lends.{lends_note};

    /// The cell of a shared heap before the first event: it has no object, and the heap is unmade. It takes the memory for so
    /// many objects that live at once, and so many exit items; `NoMemory` comes where there is none.
    pub fn make(
        alloc: Global,
        setup: &Setup,
        id: SharedId,
        objects: u32,
        exits: u32,
        note: Note,
    ) -> Result<SharedCell, NoMemory>
        requires there { id.0 < setup.now.shared }
        requires few { segment_count (trace_of setup.now [] []) < 2 ^ 32 }
        ensures { IfOk result (λ made. made ≡ opened_shared setup.now id objects exits note) }
    {
        let first = 1 + setup.procs.len() as u32;
        let seg = Seg(first + id.0);
        let rooms = HoldingRooms {
            bound: first + setup.shared,
            segments: 1,
            objects,
            exits,
        };
        let holdings = Holdings::make(alloc, seg, rooms, note)?;
        Ok(SharedCell {
            holdings,
            id,
            seg,
            phase: Phase::Unmade,
        })
    }

    /// Lends the note, which never leaves its place.
    pub fn note_mut(&mut self) -> &mut Note
        ensures* writes_back { sem 𝓛 (lends_note self.entry result) }
        ensures value { result.now ≡ self.old.note }
    {
        self.holdings.note_mut()
    }
}
