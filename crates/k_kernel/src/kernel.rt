//! The cell and how it is made.
ghost use Rattle.std.specs.Prelude.{◌≡◌, ◌<◌, ◌≤◌, ◌^◌, IfOk};
ghost use Rattle.std.specs.Borrow.{sem};
ghost use Rattle.k_kernel.specs.Kernels.{opened_kernel, segments_of};

use k_cell::{Body, HoldingRooms, Holdings, Note};
use k_types::{NoMemory, Seg, Setup};
use std::alloc::Global;
use std::marker::Model;

/// The kernel's heap.
pub struct KernelCell {
    pub(crate) holdings: Holdings,
}

impl Drop for KernelCell {
    fn drop(self) {
        let KernelCell { holdings: _ } = self;
    }
}

impl Model for KernelCell {
    ghost use Rattle.k_cell.specs.Holdings.{HoldingsValue};

    ghost Value = { HoldingsValue };

    ghost use Rattle.std.specs.Prelude.{◌≤◌};

    ghost view = { λ c. c.holdings };

    ghost invariant = { λ c. c.holdings.bound ≤ c.holdings.segment_room };
}

impl KernelCell {
    ghost use Rattle.k_kernel.specs.Lends.{lends_note};

    /// The kernel's cell before the first event, which has the directory alone. The directory is one of the `objects` that
    /// can live in the segment at once. It takes the memory for all rooms at once; `NoMemory` comes where there is none.
    pub fn make(
        alloc: Global,
        setup: &Setup,
        objects: u32,
        exits: u32,
        note: Note,
    ) -> Result<KernelCell, NoMemory>
        requires objects { 1 ≤ objects }
        requires fields { setup.now.dir_fields ≤ 16 }
        requires few { segments_of setup.now < 2 ^ 32 }
        ensures { IfOk result (λ made. made ≡ opened_kernel setup.now objects exits note) }
    {
        let bound = 1 + setup.procs.len() as u32 + setup.shared;
        let rooms = HoldingRooms {
            bound,
            segments: bound,
            objects,
            exits,
        };
        let mut holdings = Holdings::make(alloc, Seg(0), rooms, note)?;
        let directory = Body::directory(alloc, setup.dir_fields)?;
        holdings.place(Seg(0), directory);
        Ok(KernelCell { holdings })
    }

    /// Lends the note, which never leaves its place.
    pub fn note_mut(&mut self) -> &mut Note
        ensures* writes_back { sem 𝓛 (lends_note self.entry result) }
        ensures value { result.now ≡ self.old.note }
    {
        self.holdings.note_mut()
    }
}
