//! One step of a process with the kernel's cell, or with that of a shared heap.
ghost use Rattle.std.specs.Prelude.{IsFalse};
ghost use Rattle.k_commit.specs.Beside.{HasSteppedWith, HasSteppedWithKernel, HasSteppedWithShared};
ghost use Rattle.k_commit.specs.Others.{of_kernel, of_shared};
ghost use Rattle.k_pair.specs.Operating.{CanStepWithKernel, CanStepWithShared, HaveMetFor, collects_or_exits};
ghost use Rattle.k_types.specs.Trace.{Trace};

use crate::allocating::{allocate_kernel, allocate_shared};
use crate::attaching::attach;
use crate::loading::load;
use crate::names::StepName;
use crate::numbers::{get, put};
use crate::sharing::{freeze, share};
use crate::storing::store;
use k_commit::{Book, HeapCell, KernelCell, SharedCell, meet_heap, meet_kernel, meet_shared};
use k_types::{Event, Op};
use std::marker::Brand;

/// Does an operation that touches the kernel's cell beside the process's own: `store`, `load`, `put` or `get` through a register
/// that holds an object of the kernel, or `knew`. It appends its event, which it answers. The reply is `NoField` or `WrongKind`
/// by the field, and for `knew` `KernelFull` where the kernel's bytes and the object's pass the ceiling; a refused operation
/// changes nothing but the journal and the count of operations done. Constant time where the hash spreads the names, and no
/// memory.
pub fn step_kernel(cell: &mut HeapCell, kernel: &mut KernelCell, book: &mut Book, op: &Op) -> Event
    ghost trace: { Trace }
    requires { CanStepWithKernel trace cell.old kernel.old book.old op.now }
    ensures { HasSteppedWithKernel trace op.now cell.old cell.new kernel.old kernel.new book.old book.new result }
{
    meet_heap(cell, book);
    meet_kernel(kernel, book);
    operate_with_kernel::<Brand>(cell, kernel, book, op)
}

/// Does the operation once both cells have met the journal.
fn operate_with_kernel<S: StepName>(
    cell: &mut HeapCell,
    kernel: &mut KernelCell,
    book: &mut Book,
    op: &Op,
) -> Event
    requires met { HaveMetFor S.before cell.old (of_kernel kernel.old) book.old op.now }
    requires goes_on { IsFalse (collects_or_exits op.now) }
    ensures { HasSteppedWith S.before.own.trace op.now S.before.own.cell cell.new S.before.other (of_kernel kernel.new) S.before.own.book book.new result }
{
    match *op {
        Op::Store { base, field, value } => store::<KernelCell, S>(
            cell, kernel, book, base, field, value,
        ),
        Op::Load { reg, base, field } => load::<KernelCell, S>(
            cell, kernel, book, reg, base, field,
        ),
        Op::Put {
            base,
            field,
            number,
        } => put::<KernelCell, S>(cell, kernel, book, base, field, number),
        Op::Get { base, field } => get::<KernelCell, S>(cell, kernel, book, base, field),
        Op::KNew { reg, ty } => allocate_kernel::<S>(cell, kernel, book, reg, ty),
        _ => unreachable!(),
    }
}

/// Does an operation that touches the cell of the shared heap beside the process's own, and answers its event, which it appends:
/// `share`, `freeze`, `attach` or `snew` of that heap, or `store`, `load`, `put` or `get` through a register that holds an object
/// of the heap, which the process shares.
///
/// A refused operation changes nothing but the journal and the count of operations done, and `snew` takes its body all the same.
/// The fault is the first that applies: for `share` `Taken`; for `freeze` `Null`, `Segv` where the root is no object of the heap,
/// `NotPopulating`; for `attach` `NotFrozen`, and `LimitFull` where the process does not share the heap yet and its bytes do not
/// fit; for `snew` `NotPopulating`, `LimitFull`; for an access `NoField`, `WrongKind`, and for a store `Frozen`, and `Segv` where
/// the value is an object neither of the heap nor of the kernel. Numbers are written into a frozen heap too.
///
/// It takes no memory. A charge passes the limits above the process's; all else is constant time where the hash spreads the names.
pub fn step_shared(cell: &mut HeapCell, shared: &mut SharedCell, book: &mut Book, op: &Op) -> Event
    ghost trace: { Trace }
    requires { CanStepWithShared trace cell.old shared.old book.old op.now }
    ensures { HasSteppedWithShared trace op.now cell.old cell.new shared.old shared.new book.old book.new result }
{
    meet_heap(cell, book);
    meet_shared(shared, book);
    operate_with_shared::<Brand>(cell, shared, book, op)
}

/// Does the operation once both cells have met the journal.
fn operate_with_shared<S: StepName>(
    cell: &mut HeapCell,
    shared: &mut SharedCell,
    book: &mut Book,
    op: &Op,
) -> Event
    requires { HaveMetFor S.before cell.old (of_shared shared.old) book.old op.now }
    ensures { HasSteppedWith S.before.own.trace op.now S.before.own.cell cell.new S.before.other (of_shared shared.new) S.before.own.book book.new result }
{
    match *op {
        Op::Share { shared: id } => share::<S>(cell, shared, book, id),
        Op::Freeze { shared: id, root } => freeze::<S>(cell, shared, book, id, root),
        Op::Attach { reg, shared: id } => attach::<S>(cell, shared, book, reg, id),
        Op::SNew {
            reg,
            shared: id,
            ty,
        } => allocate_shared::<S>(cell, shared, book, reg, id, ty),
        Op::Store { base, field, value } => store::<SharedCell, S>(
            cell, shared, book, base, field, value,
        ),
        Op::Load { reg, base, field } => load::<SharedCell, S>(
            cell, shared, book, reg, base, field,
        ),
        Op::Put {
            base,
            field,
            number,
        } => put::<SharedCell, S>(cell, shared, book, base, field, number),
        Op::Get { base, field } => get::<SharedCell, S>(cell, shared, book, base, field),
        _ => unreachable!(),
    }
}
