//! A watcher, which takes samples.
ghost use Rattle.std.specs.Prelude.{◌≡◌, ◌≤◌, ◌∷◌, ◌++◌, []};
ghost use Rattle.k_watch.specs.Samples.{AllBelow};

use crate::cell::{Cell, CellPass, take_sample};
use crate::sample::Sample;
use std::alloc::Global;
use std::marker::Model;
use std::sync::{Arc, Wait};

/// A watcher of a cell. Contracts see which cell it is, the samples that it has taken, in order, and the least number of events
/// that a later sample can have.
#[derive(Drop)]
pub struct Watcher {
    pub(crate) cell: Arc<Cell, Global>,
    pub(crate) pass: CellPass,
}

impl Model for Watcher {
    ghost use Rattle.std.specs.Prelude.{◌≡◌};
    ghost use Rattle.std.specs.Arc.{arc_value};
    ghost use Rattle.crossbeam_utils.specs.Seq.{cell_view};
    ghost use Rattle.k_watch.specs.Steps.{taken_in};
    ghost use Rattle.k_watch.specs.Values.{WatcherValue, watcher_value};
    ghost use Rattle.k_watch.specs.declared.view.View.TheVariants.{Watching};

    ghost Value = { WatcherValue };

    ghost view = { λ w. watcher_value w.pass.table_id (taken_in (cell_view w.pass)) };

    ghost invariant = { λ w. (w.pass.table_id ≡ (arc_value w.cell).table.shared.table_id) × (cell_view w.pass ≡ Watching (taken_in (cell_view w.pass))) };
}

impl Watcher {
    /// Takes a sample of what was published last. It has no fewer events than any sample that the watcher took before, nor than
    /// the watcher was told.
    pub fn sample<R: Wait>(&mut self, rt: &R) -> Sample
        ensures taken { self.new ≡ record self.old { samples = self.old.samples ++ result ∷ []; least = result.events } }
        ensures told { self.old.least ≤ result.events }
        ensures rises { AllBelow result.events self.old.samples }
    {
        let words = take_sample(rt, &self.cell, &mut self.pass);
        Sample {
            events: words[0],
            root_use: words[1],
            living: words[2] as u32,
        }
    }
}
