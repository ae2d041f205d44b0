//! A frozen heap that a process comes to share.
ghost use Rattle.std.specs.Prelude.{IfErr, IfOk};
ghost use Rattle.k_commit.specs.Beside.{HasSteppedWith};
ghost use Rattle.k_commit.specs.Others.{of_shared};
ghost use Rattle.k_pair.specs.Attached.{CanAttach, CannotAttach, HasAttached};
ghost use Rattle.k_pair.specs.Operating.{HaveMetFor};
ghost use Rattle.k_types.specs.Trace.{Trace};
ghost use Rattle.k_types.specs.declared.op.Op.TheVariants.{Attach};

use crate::committing::commit;
use crate::names::StepName;
use crate::phases::frozen_root;
use k_commit::{Book, HeapCell, SharedCell, charge_process, set_register};
use k_types::{Event, Fault, LimitId, Op, Pid, Reg, Reply, SharedId};

/// The process shares the heap from now on, and is charged all its bytes, unless it does so already.
fn join(book: &mut Book, pid: Pid, id: SharedId) -> Result<(), LimitId>
    ghost trace: { Trace }
    requires { CanAttach trace book.old pid.0 id.0 }
    ensures attached { IfOk result (λ _. HasAttached trace book.old book.new pid.0 id.0) }
    ensures full { IfErr result (λ limit. CannotAttach trace book.old book.new pid.0 id.0 limit) }
{
    if book.shares(pid, id) {
        return Ok(());
    }
    charge_process(book, pid, book.bytes_of(id))?;
    book.add_share(pid, id);
    Ok(())
}

/// The operation `attach`.
pub(crate) fn attach<S: StepName>(
    cell: &mut HeapCell,
    shared: &mut SharedCell,
    book: &mut Book,
    reg: Reg,
    id: SharedId,
) -> Event
    requires { HaveMetFor S.before cell.old (of_shared shared.old) book.old (Attach reg id) }
    ensures { HasSteppedWith S.before.own.trace (Attach reg id) S.before.own.cell cell.new S.before.other (of_shared shared.new) S.before.own.book book.new result }
{
    let op = Op::Attach { reg, shared: id };
    let Some(root) = frozen_root(book.phase_of(id)) else {
        let said = Reply::Refused(Fault::NotFrozen(id));
        return commit::<SharedCell, S>(cell, shared, book, op, said);
    };
    match join(book, cell.pid(), id) {
        Ok(()) => {
            set_register(cell, book, reg, Some(root.link()));
            commit::<SharedCell, S>(cell, shared, book, op, Reply::Loaded(Some(root)))
        }
        Err(limit) => {
            let said = Reply::Refused(Fault::LimitFull(limit));
            commit::<SharedCell, S>(cell, shared, book, op, said)
        }
    }
}
