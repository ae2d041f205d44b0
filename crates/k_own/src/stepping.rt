//! The operation, and which function does it.
ghost use Rattle.k_commit.specs.Met.{Before};
ghost use Rattle.k_commit.specs.Stepped.{HasStepped};
ghost use Rattle.k_own.specs.Own.{CanStepOwn, IsDue};
ghost use Rattle.k_types.specs.Trace.{Trace};

use crate::accesses::{load, refuse, store};
use crate::allocating::new;
use crate::limits::{resize, spare};
use crate::registers::{clear, dir, move_reference};
use k_commit::{Book, HeapCell, meet_heap};
use k_types::{Event, Op};

/// Does the operation of the process, which touches its own cell alone and is not done inside its heap, and answers the event.
/// Constant time where the hash spreads the names.
pub fn step_own(cell: &mut HeapCell, book: &mut Book, op: &Op) -> Event
    ghost trace: { Trace }
    requires { CanStepOwn trace cell.old book.old op.now }
    ensures { HasStepped trace op.now cell.old cell.new book.old book.new result }
{
    meet_heap(cell, book);
    operate(cell, book, *op)
}

/// Does the operation with a cell that has met the journal.
fn operate(cell: &mut HeapCell, book: &mut Book, op: Op) -> Event
    ghost before: { Before }
    requires { IsDue before cell.old book.old op }
    ensures { HasStepped before.trace op before.cell cell.new before.book book.new result }
{
    match op {
        Op::New { reg, ty } => new(cell, book, reg, ty),
        Op::Store { base, field, value } => store(cell, book, base, field, value),
        Op::Load { reg, base, field } => load(cell, book, reg, base, field),
        Op::Move { reg, from } => move_reference(cell, book, reg, from),
        Op::Clear { reg } => clear(cell, book, reg),
        Op::Dir { reg } => dir(cell, book, reg),
        Op::Put {
            base,
            field: _,
            number: _,
        } => refuse(cell, book, op, base),
        Op::Get { base, field: _ } => refuse(cell, book, op, base),
        Op::KNew { reg: _, ty: _ } => unreachable!(),
        Op::SNew {
            reg: _,
            shared: _,
            ty: _,
        } => unreachable!(),
        Op::Collect => unreachable!(),
        Op::KCollect => unreachable!(),
        Op::Share { shared: _ } => unreachable!(),
        Op::Freeze { shared: _, root: _ } => unreachable!(),
        Op::Attach { reg: _, shared: _ } => unreachable!(),
        Op::Exit => unreachable!(),
        Op::Kill { target } => spare(cell, book, target),
        Op::Resize { limit, max } => resize(cell, book, limit, max),
    }
}
