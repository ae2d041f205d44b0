//! Operations that set a register and do nothing else.
ghost use Rattle.k_commit.specs.Met.{Before};
ghost use Rattle.k_commit.specs.Stepped.{HasStepped};
ghost use Rattle.k_own.specs.Own.{IsDue};
ghost use Rattle.k_types.specs.declared.op.Op.TheVariants.{Clear, Dir, Move};

use k_commit::{Book, HeapCell, commit_heap, set_register};
use k_types::{Event, Name, Op, Reg, Reply, Seg, Serial};

/// `move`: the register holds what the other one holds.
pub(crate) fn move_reference(cell: &mut HeapCell, book: &mut Book, reg: Reg, from: Reg) -> Event
    ghost before: { Before }
    requires { IsDue before cell.old book.old (Move reg from) }
    ensures { HasStepped before.trace (Move reg from) before.cell cell.new before.book book.new result }
{
    let value = cell.reg(from);
    set_register(cell, book, reg, value);
    commit_heap(cell, book, Op::Move { reg, from }, Reply::Done)
}

/// `drop`: the register holds null.
pub(crate) fn clear(cell: &mut HeapCell, book: &mut Book, reg: Reg) -> Event
    ghost before: { Before }
    requires { IsDue before cell.old book.old (Clear reg) }
    ensures { HasStepped before.trace (Clear reg) before.cell cell.new before.book book.new result }
{
    set_register(cell, book, reg, None);
    commit_heap(cell, book, Op::Clear { reg }, Reply::Done)
}

/// `dir`: the register refers to the directory.
pub(crate) fn dir(cell: &mut HeapCell, book: &mut Book, reg: Reg) -> Event
    ghost before: { Before }
    requires { IsDue before cell.old book.old (Dir reg) }
    ensures { HasStepped before.trace (Dir reg) before.cell cell.new before.book book.new result }
{
    let directory = Name {
        seg: Seg(0),
        serial: Serial(1),
    };
    set_register(cell, book, reg, Some(directory.link()));
    commit_heap(cell, book, Op::Dir { reg }, Reply::Loaded(Some(directory)))
}
