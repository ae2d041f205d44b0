//! Objects that a process makes in its own heap.
ghost use Rattle.k_commit.specs.Met.{Before};
ghost use Rattle.k_commit.specs.Stepped.{HasStepped};
ghost use Rattle.k_own.specs.Own.{IsDue};
ghost use Rattle.k_types.specs.declared.op.Op.TheVariants.{New};

use k_commit::{Book, HeapCell, charge_process, commit_heap, set_register};
use k_types::{Event, Fault, Op, Reg, Reply, TypeId};

/// `new`: the register refers to a new object of the type, whose size is charged to the process; or the size does not fit.
pub(crate) fn new(cell: &mut HeapCell, book: &mut Book, reg: Reg, ty: TypeId) -> Event
    ghost before: { Before }
    requires { IsDue before cell.old book.old (New reg ty) }
    ensures { HasStepped before.trace (New reg ty) before.cell cell.new before.book book.new result }
{
    let op = Op::New { reg, ty };
    let body = cell.take_body();
    match charge_process(book, cell.pid(), body.bytes()) {
        Ok(()) => {
            let link = cell.place(body);
            set_register(cell, book, reg, Some(link));
            commit_heap(cell, book, op, Reply::Made(link.name()))
        }
        Err(limit) => commit_heap(cell, book, op, Reply::Refused(Fault::LimitFull(limit))),
    }
}
