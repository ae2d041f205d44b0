//! Operations on limits and processes below the process's own limit: another maximum, and a `kill` that ends nobody.
ghost use Rattle.k_commit.specs.Met.{Before};
ghost use Rattle.k_commit.specs.Stepped.{HasStepped};
ghost use Rattle.k_own.specs.Own.{IsDue};
ghost use Rattle.k_types.specs.declared.op.Op.TheVariants.{Kill, Resize};

use k_commit::{Book, HeapCell, commit_heap, is_above, resize_limit};
use k_types::{Event, Fault, LimitId, Op, Pid, Reply};

/// `kill` of a process that has ended already, which changes nothing, or whose limit is not below the process's, which is refused.
pub(crate) fn spare(cell: &mut HeapCell, book: &mut Book, target: Pid) -> Event
    ghost before: { Before }
    requires { IsDue before cell.old book.old (Kill target) }
    ensures { HasStepped before.trace (Kill target) before.cell cell.new before.book book.new result }
{
    let op = Op::Kill { target };
    if is_above(book, cell.pid(), target) {
        commit_heap(cell, book, op, Reply::Done)
    } else {
        commit_heap(cell, book, op, Reply::Refused(Fault::ProcNotBelow(target)))
    }
}

/// `resize`: the limit has another maximum; or it is refused, where it is not below the process's, more is used at it, or its parent
/// lacks what it would get more.
pub(crate) fn resize(cell: &mut HeapCell, book: &mut Book, limit: LimitId, max: u64) -> Event
    ghost before: { Before }
    requires { IsDue before cell.old book.old (Resize limit max) }
    ensures { HasStepped before.trace (Resize limit max) before.cell cell.new before.book book.new result }
{
    let said = resize_limit(book, cell.pid(), limit, max);
    commit_heap(cell, book, Op::Resize { limit, max }, said)
}
