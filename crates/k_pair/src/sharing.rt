//! A shared heap that a process makes its own to populate, and one that it freezes.
ghost use Rattle.k_commit.specs.Beside.{HasSteppedWith};
ghost use Rattle.k_commit.specs.Others.{of_shared};
ghost use Rattle.k_pair.specs.Operating.{HaveMetFor};
ghost use Rattle.k_types.specs.declared.op.Op.TheVariants.{Freeze, Share};

use crate::committing::commit;
use crate::names::StepName;
use crate::phases::{is_owned_by, is_populating, is_unmade};
use k_commit::{Book, HeapCell, SharedCell};
use k_types::{Event, Fault, Op, Phase, Reg, Reply, SharedId};

/// The operation `share`.
pub(crate) fn share<S: StepName>(
    cell: &mut HeapCell,
    shared: &mut SharedCell,
    book: &mut Book,
    id: SharedId,
) -> Event
    requires { HaveMetFor S.before cell.old (of_shared shared.old) book.old (Share id) }
    ensures { HasSteppedWith S.before.own.trace (Share id) S.before.own.cell cell.new S.before.other (of_shared shared.new) S.before.own.book book.new result }
{
    let op = Op::Share { shared: id };
    if !is_unmade(book.phase_of(id)) {
        let said = Reply::Refused(Fault::Taken(id));
        return commit::<SharedCell, S>(cell, shared, book, op, said);
    }
    let pid = cell.pid();
    let phase = Phase::Populating(pid);
    shared.set_phase(phase);
    book.set_phase(id, phase);
    book.add_share(pid, id);
    commit::<SharedCell, S>(cell, shared, book, op, Reply::Done)
}

/// The operation `freeze`.
pub(crate) fn freeze<S: StepName>(
    cell: &mut HeapCell,
    shared: &mut SharedCell,
    book: &mut Book,
    id: SharedId,
    root: Reg,
) -> Event
    requires { HaveMetFor S.before cell.old (of_shared shared.old) book.old (Freeze id root) }
    ensures { HasSteppedWith S.before.own.trace (Freeze id root) S.before.own.cell cell.new S.before.other (of_shared shared.new) S.before.own.book book.new result }
{
    let op = Op::Freeze { shared: id, root };
    let Some(link) = cell.reg(root) else {
        return commit::<SharedCell, S>(cell, shared, book, op, Reply::Refused(Fault::Null));
    };
    if !is_owned_by(book, link.seg, id) {
        return commit::<SharedCell, S>(cell, shared, book, op, Reply::Refused(Fault::Segv));
    }
    if !is_populating(book.phase_of(id), cell.pid()) {
        let said = Reply::Refused(Fault::NotPopulating(id));
        return commit::<SharedCell, S>(cell, shared, book, op, said);
    }
    let phase = Phase::Frozen(link.name());
    shared.set_phase(phase);
    book.set_phase(id, phase);
    commit::<SharedCell, S>(cell, shared, book, op, Reply::Done)
}
