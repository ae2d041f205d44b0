//! Stores into objects of another heap.
ghost use Rattle.k_commit.specs.Beside.{HasSteppedWith};
ghost use Rattle.k_pair.specs.Operating.{HaveMetFor};
ghost use Rattle.k_types.specs.declared.op.Op.TheVariants.{Store};

use crate::barring::may_store;
use crate::committing::commit;
use crate::loading::object_in;
use crate::names::StepName;
use crate::other::OtherCell;
use crate::remembering::remember;
use k_commit::{Book, HeapCell};
use k_types::{Event, Op, Reg, Reply};

/// The operation `store`.
pub(crate) fn store<O: OtherCell, S: StepName>(
    cell: &mut HeapCell,
    other: &mut O,
    book: &mut Book,
    base: Reg,
    field: u32,
    value: Reg,
) -> Event
    requires { HaveMetFor S.before cell.old (O.seen other.old) book.old (Store base field value) }
    ensures { HasSteppedWith S.before.own.trace (Store base field value) S.before.own.cell cell.new S.before.other (O.seen other.new) S.before.own.book book.new result }
{
    let op = Op::Store { base, field, value };
    let at = object_in(cell, base);
    let reference = cell.reg(value);
    match may_store::<O, S>(other, book, at, field, reference) {
        Ok(()) => {
            remember::<O, S>(other, book, reference);
            other.write_ref(at, field, reference);
            commit::<O, S>(cell, other, book, op, Reply::Done)
        }
        Err(fault) => commit::<O, S>(cell, other, book, op, Reply::Refused(fault)),
    }
}
