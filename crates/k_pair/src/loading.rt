//! Loads from objects of another heap.
ghost use Rattle.std.specs.Prelude.{◌≡◌, ◌<◌, IsTrue, Some, is_some, option_map};
ghost use Rattle.k_commit.specs.Beside.{HasSteppedWith};
ghost use Rattle.k_laws.specs.PartUpdates.{held_in};
ghost use Rattle.k_pair.specs.Operating.{HaveMetFor};
ghost use Rattle.k_types.specs.Names.{name_of};
ghost use Rattle.k_types.specs.declared.op.Op.TheVariants.{Load};

use crate::committing::commit;
use crate::faults::read_reference;
use crate::names::StepName;
use crate::other::OtherCell;
use k_commit::{Book, HeapCell, set_register};
use k_types::{Event, Link, Name, Op, Reg, Reply};

/// The object that the register holds.
pub(crate) fn object_in(cell: &HeapCell, base: Reg) -> Link
    requires register { base.0 < 16 }
    requires there { IsTrue (is_some (held_in cell.now.value.process base.0)) }
    ensures { held_in cell.now.value.process base.0 ≡ Some (name_of result) }
{
    let Some(link) = cell.reg(base) else {
        unreachable!()
    };
    link
}

/// The name of the object to which the reference leads.
fn named(value: Option<Link>) -> Option<Name>
    ensures { result ≡ option_map name_of value }
{
    match value {
        Some(link) => Some(link.name()),
        None => None,
    }
}

/// The operation `load`.
pub(crate) fn load<O: OtherCell, S: StepName>(
    cell: &mut HeapCell,
    other: &mut O,
    book: &mut Book,
    reg: Reg,
    base: Reg,
    field: u32,
) -> Event
    requires { HaveMetFor S.before cell.old (O.seen other.old) book.old (Load reg base field) }
    ensures { HasSteppedWith S.before.own.trace (Load reg base field) S.before.own.cell cell.new S.before.other (O.seen other.new) S.before.own.book book.new result }
{
    let op = Op::Load { reg, base, field };
    let at = object_in(cell, base);
    match read_reference(other.field_count(at), field, other.field(at, field)) {
        Ok(value) => {
            set_register(cell, book, reg, value);
            commit::<O, S>(cell, other, book, op, Reply::Loaded(named(value)))
        }
        Err(fault) => commit::<O, S>(cell, other, book, op, Reply::Refused(fault)),
    }
}
