//! The pen, which alone publishes.
ghost use Rattle.std.specs.Prelude.{◌≡◌, ◌<◌, ◌≤◌, ◌∷◌, ◌++◌, [], length};
ghost use Rattle.k_watch.specs.Samples.{AllAmong, newest_of};
ghost use Rattle.k_watch.specs.Numbers.{numbers_of};

use crate::cell::{
    Cell, CellPass, give_watcher, hand_over, look_at_watchers, publish_next, take_watcher,
};
use crate::counting::numbers;
use crate::sample::Sample;
use crate::watcher::Watcher;
use k_book::Book;
use std::alloc::Global;
use std::marker::Model;
use std::sync::{Arc, Wait};

/// The pen of a cell. Contracts see which cell it is, and the samples that were published, in order.
#[derive(Drop)]
pub struct WatchPen {
    pub(crate) cell: Arc<Cell, Global>,
    pub(crate) pass: CellPass,
}

impl Model for WatchPen {
    ghost use Rattle.std.specs.Prelude.{◌≡◌, []};
    ghost use Rattle.std.specs.Arc.{arc_value};
    ghost use Rattle.crossbeam_utils.specs.Seq.{cell_view};
    ghost use Rattle.k_watch.specs.Steps.{published_in};
    ghost use Rattle.k_watch.specs.Values.{PenValue};
    ghost use Rattle.k_watch.specs.declared.view.View.TheVariants.{Pen};

    ghost Value = { PenValue };

    ghost view = { λ p. record { cell = p.pass.table_id; samples = published_in (cell_view p.pass) } };

    ghost invariant = { λ p. (p.pass.table_id ≡ (arc_value p.cell).table.shared.table_id) × (cell_view p.pass ≡ Pen (published_in (cell_view p.pass)) []) };
}

impl WatchPen {
    /// Publishes the book's numbers.
    pub fn publish<R: Wait>(&mut self, rt: &R, book: &Book)
        requires root { 0 < length book.now.rows }
        requires later { newest_of self.old.samples ≤ length book.now.journal.list }
        ensures { self.new ≡ record self.old { samples = self.old.samples ++ numbers_of book.now ∷ [] } }
    {
        self.publish_sample(rt, numbers(book));
    }

    fn publish_sample<R: Wait>(&mut self, rt: &R, sample: Sample)
        requires { newest_of self.old.samples ≤ sample.events }
        ensures { self.new ≡ record self.old { samples = self.old.samples ++ sample ∷ [] } }
    {
        publish_next(rt, &self.cell, &mut self.pass, sample.to_words());
    }

    /// Tells that each sample that the watcher has taken was published. The watcher is told how many events were published,
    /// and takes no sample with fewer from then on.
    pub fn tell<R: Wait>(&mut self, rt: &R, watcher: Watcher) -> Watcher
        requires cell { watcher.cell ≡ self.old.cell }
        ensures same { self.new ≡ self.old }
        ensures told { result ≡ record watcher { least = newest_of self.old.samples } }
        ensures published { AllAmong watcher.samples self.old.samples }
    {
        let Watcher { cell, mut pass } = watcher;
        let whole = hand_over(&self.cell, &mut pass);
        take_watcher(&self.cell, &mut self.pass, whole);
        look_at_watchers(rt, &self.cell, &mut self.pass);
        let pass = give_watcher(&self.cell, &mut self.pass);
        Watcher { cell, pass }
    }
}
