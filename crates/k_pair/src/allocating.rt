//! New objects in the kernel's own segment, and in that of a shared heap.
ghost use Rattle.std.specs.Prelude.{◌≡◌, ◌<◌, ◌+◌, ◌^◌, length, nat_lt};
ghost use Rattle.k_commit.specs.Beside.{HasSteppedWith};
ghost use Rattle.k_commit.specs.Others.{of_kernel, of_shared};
ghost use Rattle.k_pair.specs.Operating.{HaveMetFor};
ghost use Rattle.k_types.specs.Owners.{object_bytes};
ghost use Rattle.k_types.specs.Totals.{total};
ghost use Rattle.k_types.specs.Types.{object_size};
ghost use Rattle.k_types.specs.declared.op.Op.TheVariants.{KNew, SNew};

use crate::committing::commit;
use crate::names::StepName;
use crate::phases::is_populating;
use k_commit::{Book, HeapCell, KernelCell, SharedCell, charge_process, set_register};
use k_space::Body;
use k_types::{Event, Fault, Op, Reg, Reply, SharedId, TypeId};

/// Whether the kernel's bytes would pass its ceiling with the object.
fn is_full(kernel: &KernelCell, book: &Book, body: &Body) -> bool
    requires { total object_bytes kernel.now.value.objects + 144 < 2 ^ 64 }
    ensures { result ≡ nat_lt book.now.ceiling (total object_bytes kernel.now.value.objects + object_size (length body.now.fields)) }
{
    kernel.bytes() + body.bytes() > book.ceiling()
}

/// The operation `knew`.
pub(crate) fn allocate_kernel<S: StepName>(
    cell: &mut HeapCell,
    kernel: &mut KernelCell,
    book: &mut Book,
    reg: Reg,
    ty: TypeId,
) -> Event
    requires { HaveMetFor S.before cell.old (of_kernel kernel.old) book.old (KNew reg ty) }
    ensures { HasSteppedWith S.before.own.trace (KNew reg ty) S.before.own.cell cell.new S.before.other (of_kernel kernel.new) S.before.own.book book.new result }
{
    let op = Op::KNew { reg, ty };
    let body = cell.take_body();
    if is_full(kernel, book, &body) {
        let said = Reply::Refused(Fault::KernelFull);
        return commit::<KernelCell, S>(cell, kernel, book, op, said);
    }
    let link = kernel.place(body);
    set_register(cell, book, reg, Some(link));
    commit::<KernelCell, S>(cell, kernel, book, op, Reply::Made(link.name()))
}

/// The operation `snew`.
pub(crate) fn allocate_shared<S: StepName>(
    cell: &mut HeapCell,
    shared: &mut SharedCell,
    book: &mut Book,
    reg: Reg,
    id: SharedId,
    ty: TypeId,
) -> Event
    requires { HaveMetFor S.before cell.old (of_shared shared.old) book.old (SNew reg id ty) }
    ensures { HasSteppedWith S.before.own.trace (SNew reg id ty) S.before.own.cell cell.new S.before.other (of_shared shared.new) S.before.own.book book.new result }
{
    let op = Op::SNew {
        reg,
        shared: id,
        ty,
    };
    let body = cell.take_body();
    if !is_populating(book.phase_of(id), cell.pid()) {
        let said = Reply::Refused(Fault::NotPopulating(id));
        return commit::<SharedCell, S>(cell, shared, book, op, said);
    }
    let bytes = body.bytes();
    match charge_process(book, cell.pid(), bytes) {
        Ok(()) => {
            book.grow_shared(id, bytes);
            let link = shared.place(body);
            set_register(cell, book, reg, Some(link));
            commit::<SharedCell, S>(cell, shared, book, op, Reply::Made(link.name()))
        }
        Err(limit) => {
            let said = Reply::Refused(Fault::LimitFull(limit));
            commit::<SharedCell, S>(cell, shared, book, op, said)
        }
    }
}
