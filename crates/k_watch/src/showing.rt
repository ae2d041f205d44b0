//! What the book's lock publishes before it is given back.
ghost use Rattle.std.specs.Prelude.{Some};
ghost use Rattle.k_types.specs.Steps.{state_after};
ghost use Rattle.k_types.specs.Trace.{Trace};
ghost use Rattle.k_types.specs.TraceRules.{KeepsRules};
ghost use Rattle.k_agree.specs.Agreement.{BookShows};
ghost use Rattle.k_book.specs.Machine.{IsBookOf};
ghost use Rattle.k_commit.specs.Standing.{BookStands};
ghost use Rattle.k_watch.specs.Shown.{HasWatched, IsShown, Showing, WasShown};

use crate::pen::WatchPen;
use crate::sample::Sample;
use crate::watcher::Watcher;
use k_book::Book;
use std::sync::Wait;

/// Publishes the numbers of the book where there is a pen.
pub fn show(rt: &impl Wait, pen: &mut Option<WatchPen>, book: &Book)
    ghost run: { Showing }
    requires stands { BookStands run.trace book.now }
    requires shown { WasShown run.watched run.trace book.now.journal.list pen.old }
    ensures { IsShown run.watched run.trace book.now.journal.list pen.new }
{
    if let Some(pen) = pen {
        pen.publish(rt, book);
    }
}

/// Publishes the numbers of the book of a run that is over, and has the watcher take one sample more.
pub fn show_end(
    rt: &impl Wait,
    mut pen: WatchPen,
    book: &Book,
    watcher: Watcher,
) -> (Watcher, Sample)
    ghost trace: { Trace }
    requires rules { KeepsRules trace }
    requires of_trace { IsBookOf trace book.now }
    requires shows { BookShows trace (state_after trace book.now.journal.list) book.now.value }
    requires shown { WasShown (Some watcher.cell) trace book.now.journal.list (Some pen) }
    ensures { HasWatched trace book.now.journal.list watcher result.0 result.1 }
{
    pen.publish(rt, book);
    let mut told = pen.tell(rt, watcher);
    let sample = told.sample(rt);
    let watcher = pen.tell(rt, told);
    (watcher, sample)
}
