//! The cell that pen and watchers share, and what is done with it: for each kind of step one call, with what the rule asks of it.
ghost use Rattle.std.specs.Prelude.{◌≡◌, []};
ghost use Rattle.crossbeam_utils.specs.Register.{Forks, Merges, Turns};
ghost use Rattle.crossbeam_utils.specs.Seq.{IsSamePass, cell_view};
ghost use Rattle.k_watch.specs.Rule.{KeepsRule};
ghost use Rattle.k_watch.specs.Steps.{IsToldOf, Looks, Opens, Publishes, Takes, after_give, after_take, watcher_given};
ghost use Rattle.k_watch.specs.declared.view.View.TheVariants.{Spent};

use crate::steps::{
    GiveWatcher, HandOver, LookAtWatchers, PublishFirst, PublishNext, SampleRule, TakeSample,
    TakeWatcher,
};
use crate::view::View;
use crossbeam_utils::atomic::seq_cell::{Pass, RuledSeqCell};
use std::sync::Wait;

/// The words of the sample that was published last.
pub(crate) type Words = [u64; 3];

pub(crate) type Cell = RuledSeqCell<Words, View, SampleRule, 3>;

pub(crate) type CellPass = Pass<Words, View>;

/// Ends the making of the cell: publishes the first sample.
pub(crate) fn publish_first<R: Wait>(rt: &R, cell: &Cell, pass: &mut CellPass, words: Words)
    requires cell { pass.old.table_id ≡ cell.now.table.shared.table_id }
    requires rule { Turns KeepsRule pass.old.id (cell_view pass.old) (λ before. words) Opens }
    ensures cell { IsSamePass pass.old pass.new }
    ensures rule { Opens (cell_view pass.old) words words (cell_view pass.new) }
{
    cell.swap_as::<PublishFirst, R>(rt, pass, words);
}

/// Publishes a sample, by the pen's pass.
pub(crate) fn publish_next<R: Wait>(rt: &R, cell: &Cell, pass: &mut CellPass, words: Words)
    requires cell { pass.old.table_id ≡ cell.now.table.shared.table_id }
    requires rule { Turns KeepsRule pass.old.id (cell_view pass.old) (λ before. words) Publishes }
    ensures cell { IsSamePass pass.old pass.new }
    ensures rule { Publishes (cell_view pass.old) words words (cell_view pass.new) }
{
    cell.swap_as::<PublishNext, R>(rt, pass, words);
}

/// Takes a sample, by a watcher's pass.
pub(crate) fn take_sample<R: Wait>(rt: &R, cell: &Cell, pass: &mut CellPass) -> Words
    requires cell { pass.old.table_id ≡ cell.now.table.shared.table_id }
    requires rule { Turns KeepsRule pass.old.id (cell_view pass.old) (λ before. before) Takes }
    ensures cell { IsSamePass pass.old pass.new }
    ensures rule { Takes (cell_view pass.old) result result (cell_view pass.new) }
{
    cell.load_as::<TakeSample, R>(rt, pass)
}

/// Tells what the rule says of the watchers that the pen has in hand.
pub(crate) fn look_at_watchers<R: Wait>(rt: &R, cell: &Cell, pass: &mut CellPass)
    requires cell { pass.old.table_id ≡ cell.now.table.shared.table_id }
    requires rule { Turns KeepsRule pass.old.id (cell_view pass.old) (λ before. before) Looks }
    ensures cell { IsSamePass pass.old pass.new }
    ensures kept { cell_view pass.new ≡ cell_view pass.old }
    ensures told { IsToldOf (cell_view pass.old) }
{
    cell.load_as::<LookAtWatchers, R>(rt, pass);
}

/// A pass with all that this one knew, which can be joined.
pub(crate) fn hand_over(cell: &Cell, pass: &mut CellPass) -> CellPass
    requires cell { pass.old.table_id ≡ cell.now.table.shared.table_id }
    requires rule { Forks KeepsRule pass.old.id (cell_view pass.old) Spent (cell_view pass.old) }
    ensures kept { IsSamePass pass.old pass.new × (cell_view pass.new ≡ Spent) }
    ensures given { (result.table_id ≡ pass.old.table_id) × (cell_view result ≡ cell_view pass.old) × (result.me.1 ≡ []) }
{
    cell.split_pass::<HandOver>(pass)
}

/// Has the pen take a watcher in hand, whose pass is spent.
pub(crate) fn take_watcher(cell: &Cell, pass: &mut CellPass, watcher: CellPass)
    requires own { (pass.old.table_id ≡ cell.now.table.shared.table_id) × (watcher.table_id ≡ pass.old.table_id) × (watcher.me.1 ≡ []) }
    requires rule { Merges KeepsRule pass.old.id (cell_view pass.old) watcher.id (cell_view watcher) (after_take (cell_view pass.old) (cell_view watcher)) Spent }
    ensures { IsSamePass pass.old pass.new × (cell_view pass.new ≡ after_take (cell_view pass.old) (cell_view watcher)) }
{
    cell.join_pass::<TakeWatcher>(pass, watcher);
}

/// The pass of the watcher that the pen took in hand last.
pub(crate) fn give_watcher(cell: &Cell, pass: &mut CellPass) -> CellPass
    requires cell { pass.old.table_id ≡ cell.now.table.shared.table_id }
    requires rule { Forks KeepsRule pass.old.id (cell_view pass.old) (after_give (cell_view pass.old)) (watcher_given (cell_view pass.old)) }
    ensures kept { IsSamePass pass.old pass.new × (cell_view pass.new ≡ after_give (cell_view pass.old)) }
    ensures given { (result.table_id ≡ pass.old.table_id) × (cell_view result ≡ watcher_given (cell_view pass.old)) }
{
    cell.split_pass::<GiveWatcher>(pass)
}
