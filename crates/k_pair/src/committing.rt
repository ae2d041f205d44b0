//! Operations that are done but for their count: it is raised, and the event is appended.
ghost use Rattle.k_commit.specs.Beside.{HasSteppedWith};
ghost use Rattle.k_commit.specs.Changed.{HasChangedWith};

use crate::names::StepName;
use crate::other::OtherCell;
use k_commit::{Book, HeapCell};
use k_types::{Event, Op, Reply};

/// Commits an operation that touches the other cell too, and answers its event. Constant time.
pub(crate) fn commit<O: OtherCell, S: StepName>(
    cell: &mut HeapCell,
    other: &mut O,
    book: &mut Book,
    op: Op,
    said: Reply,
) -> Event
    requires { HasChangedWith S.before cell.old (O.seen other.old) book.old op said }
    ensures { HasSteppedWith S.before.own.trace op S.before.own.cell cell.new S.before.other (O.seen other.new) S.before.own.book book.new result }
{
    cell.count_done();
    let event = Event::Done {
        pid: cell.pid(),
        op,
        reply: said,
    };
    other.append(cell, book, event);
    event
}
