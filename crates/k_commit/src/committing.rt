//! Operations that are done but for their count: it is raised, and the event is appended.
ghost use Rattle.k_commit.specs.Changed.{HasChanged};
ghost use Rattle.k_commit.specs.Met.{Before};
ghost use Rattle.k_commit.specs.Stepped.{HasStepped};

use crate::appending::append_heap;
use k_book::Book;
use k_heap::HeapCell;
use k_types::{Event, Op, Reply};

/// Commits an operation that touches the process's own cell alone, and answers its event. Constant time.
#[inline(always)]
pub fn commit_heap(cell: &mut HeapCell, book: &mut Book, op: Op, said: Reply) -> Event
    ghost before: { Before }
    requires { HasChanged before cell.old book.old op said }
    ensures { HasStepped before.trace op before.cell cell.new before.book book.new result }
{
    cell.count_done();
    let event = Event::Done {
        pid: cell.pid(),
        op,
        reply: said,
    };
    append_heap(cell, book, event);
    event
}
