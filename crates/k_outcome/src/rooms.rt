//! Room for what a report lists.
ghost use Rattle.std.specs.Prelude.{◌≡◌, ◌∷◌, ◌++◌, [], IfOk};

use k_types::{Name, NoMemory};
use std::alloc::Global;
use std::marker::Model;

/// Room for what a report lists of a run, which is made before the run: a count for each segment, and for each heap the targets of
/// its exit items. Contracts see how many targets there is room for, heap by heap.
#[derive(Drop)]
pub struct ReportRooms {
    pub(crate) made: Vec<u32>,
    pub(crate) targets: Vec<Vec<Name>>,
}

impl Model for ReportRooms {
    ghost use Rattle.std.specs.Prelude.{ℕ, List};

    ghost Value = { List ℕ };

    ghost use Rattle.std.specs.Prelude.{◌≡◌, length, map, replicate, vec_capacity};
    ghost use Rattle.k_outcome.specs.Listed.{AreEmpty};

    ghost view = { λ r. map (λ row. vec_capacity row) r.targets.items };

    ghost invariant = { λ r. record {
      counts : r.made.items ≡ replicate (length r.targets.items) 0;
      empty : AreEmpty r.targets.items;
    } };
}

impl ReportRooms {
    /// Room for no heap. It takes no memory.
    pub fn none(alloc: Global) -> ReportRooms
        ensures { result ≡ [] }
    {
        ReportRooms {
            made: Vec::new(alloc),
            targets: Vec::new(alloc),
        }
    }

    /// Adds room for one more heap, with so many exit items. The heaps come in the order of their segments: the kernel's, those of
    /// the processes, the shared ones. `NoMemory` comes where there is no memory.
    pub fn add_heap(&mut self, alloc: Global, exits: u32) -> Result<(), NoMemory>
        ensures { IfOk result (λ done. self.new ≡ self.old ++ exits ∷ []) }
    {
        let row = Vec::with_capacity(alloc, exits as usize)?;
        self.made.reserve(1)?;
        self.targets.reserve(1)?;
        self.made.push_reserved(0);
        self.targets.push_reserved(row);
        Ok(())
    }
}
