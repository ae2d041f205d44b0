//! Numbers in fields of objects of another heap. They are written in any phase of a shared heap.
ghost use Rattle.k_commit.specs.Beside.{HasSteppedWith};
ghost use Rattle.k_pair.specs.Operating.{HaveMetFor};
ghost use Rattle.k_types.specs.declared.op.Op.TheVariants.{Get, Put};

use crate::committing::commit;
use crate::faults::read_number;
use crate::loading::object_in;
use crate::names::StepName;
use crate::other::OtherCell;
use k_commit::{Book, HeapCell};
use k_types::{Event, Op, Reg, Reply};

/// The operation `put`.
pub(crate) fn put<O: OtherCell, S: StepName>(
    cell: &mut HeapCell,
    other: &mut O,
    book: &mut Book,
    base: Reg,
    field: u32,
    number: u64,
) -> Event
    requires { HaveMetFor S.before cell.old (O.seen other.old) book.old (Put base field number) }
    ensures { HasSteppedWith S.before.own.trace (Put base field number) S.before.own.cell cell.new S.before.other (O.seen other.new) S.before.own.book book.new result }
{
    let op = Op::Put {
        base,
        field,
        number,
    };
    let at = object_in(cell, base);
    match read_number(other.field_count(at), field, other.field(at, field)) {
        Ok(_) => {
            other.write_int(at, field, number);
            commit::<O, S>(cell, other, book, op, Reply::Done)
        }
        Err(fault) => commit::<O, S>(cell, other, book, op, Reply::Refused(fault)),
    }
}

/// The operation `get`.
pub(crate) fn get<O: OtherCell, S: StepName>(
    cell: &mut HeapCell,
    other: &mut O,
    book: &mut Book,
    base: Reg,
    field: u32,
) -> Event
    requires { HaveMetFor S.before cell.old (O.seen other.old) book.old (Get base field) }
    ensures { HasSteppedWith S.before.own.trace (Get base field) S.before.own.cell cell.new S.before.other (O.seen other.new) S.before.own.book book.new result }
{
    let op = Op::Get { base, field };
    let at = object_in(cell, base);
    match read_number(other.field_count(at), field, other.field(at, field)) {
        Ok(number) => commit::<O, S>(cell, other, book, op, Reply::Value(number)),
        Err(fault) => commit::<O, S>(cell, other, book, op, Reply::Refused(fault)),
    }
}
