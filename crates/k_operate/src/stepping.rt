//! One operation of a process, with the cells that it touches and the book.
ghost use Rattle.k_operate.specs.Adding.{AddsOperation, known_to};
ghost use Rattle.k_operate.specs.Steps.{CanDoAlone, CanDoInside, CanDoNext, CanDoWithKernel, CanDoWithShared, CanStepNext, HasDoneAlone, HasDoneInside, HasDoneNext, HasDoneWithKernel, HasDoneWithShared, HasPublishedAll, PairStands};
ghost use Rattle.k_process.specs.Worlds.{WorldValue};

use crate::absorbing::do_collect_kernel;
use crate::collecting::do_collect;
use crate::exiting::do_exit;
use crate::known::{know_entries, know_exits, know_kernel_exits, know_shared_exits};
use k_own::{Reach, publish, reach, step_own};
use k_pair::{step_kernel, step_shared};
use k_process::{Book, KernelCell, Process, SharedCell, local};
use k_types::Op;

/// Does the operation inside the process's own heap, if it needs that heap alone, and says whether it did. Its event is then
/// unpublished. Constant time, and no memory.
pub fn do_inside(process: &mut Process, op: &Op) -> bool
    ghost world: { WorldValue }
    requires { CanDoInside world process.old op.now }
    ensures { HasDoneInside world op.now process.old process.new result }
{
    local(&mut process.cell, op).is_some()
}

/// Appends to the journal what the process did inside its heap, in order. The cost is in proportion to the number of these events.
pub fn publish_all(process: &mut Process, book: &mut Book)
    ghost world: { WorldValue }
    requires { PairStands world process.old book.old }
    ensures { HasPublishedAll world process.old process.new book.old book.new }
{
    publish(&mut process.cell, book);
}

/// Does an operation that touches the process's own cell alone, and appends its event. Constant time where the hash spreads the
/// names, and no memory.
pub fn do_alone(process: &mut Process, book: &mut Book, op: &Op)
    ghost world: { WorldValue }
    requires { CanDoAlone world process.old book.old op.now }
    ensures done { HasDoneAlone world op.now process.old process.new book.new }
    ensures events { AddsOperation world.trace process.old.cell.pid op.now (known_to process.old book.old) (known_to process.new book.new) }
{
    know_exits(&process.cell);
    know_entries(book);
    step_own(&mut process.cell, book, op);
}

/// Does an operation that touches the kernel's cell too, and appends its event. Constant time where the hash spreads the names, and
/// no memory.
pub fn do_with_kernel(process: &mut Process, kernel: &mut KernelCell, book: &mut Book, op: &Op)
    ghost world: { WorldValue }
    requires { CanDoWithKernel world process.old kernel.old book.old op.now }
    ensures done { HasDoneWithKernel world op.now process.old process.new kernel.new book.new }
    ensures events { AddsOperation world.trace process.old.cell.pid op.now (known_to process.old book.old) (known_to process.new book.new) }
{
    know_kernel_exits(kernel);
    know_entries(book);
    step_kernel(&mut process.cell, kernel, book, op);
}

/// Does an operation that touches a shared heap's cell too, and appends its event. Constant time where the hash spreads the names,
/// but that a charge passes the limits above the process's; no memory.
pub fn do_with_shared(process: &mut Process, shared: &mut SharedCell, book: &mut Book, op: &Op)
    ghost world: { WorldValue }
    requires { CanDoWithShared world process.old shared.old book.old op.now }
    ensures done { HasDoneWithShared world op.now process.old process.new shared.old shared.new book.new }
    ensures events { AddsOperation world.trace process.old.cell.pid op.now (known_to process.old book.old) (known_to process.new book.new) }
{
    know_shared_exits(shared);
    know_entries(book);
    step_shared(&mut process.cell, shared, book, op);
}

/// Does an operation that is ready and done by a step, with the cells that it reaches. It ends no other process.
fn do_by_step(
    process: &mut Process,
    kernel: &mut KernelCell,
    shared: &mut Vec<SharedCell>,
    book: &mut Book,
    op: &Op,
)
    ghost world: { WorldValue }
    requires { CanStepNext world process.old kernel.old shared.old.items book.old op.now }
    ensures done { HasDoneNext world op.now process.old process.new kernel.new shared.new.items book.new }
    ensures events { AddsOperation world.trace process.old.cell.pid op.now (known_to process.old book.old) (known_to process.new book.new) }
{
    match reach(&process.cell, book, op) {
        Reach::Own => do_alone(process, book, op),
        Reach::Kernel => do_with_kernel(process, kernel, book, op),
        Reach::Shared(id) => {
            let heap = &mut shared[id.0 as usize];
            do_with_shared(process, heap, book, op);
        }
        Reach::End(_) => unreachable!(),
    }
}

/// Does the process's next operation, with whatever it touches: inside its own heap, by a step, or as a collection or the end of
/// the process, from the beginning to the end. A `kill` of another process is done by `do_kill`. An operation that is refused is done too: its event tells the fault. The cost is that
/// of the call that does it, after that of `publish_all`. No memory is taken.
pub fn do_next(
    process: &mut Process,
    kernel: &mut KernelCell,
    shared: &mut Vec<SharedCell>,
    book: &mut Book,
    op: &Op,
)
    ghost world: { WorldValue }
    requires { CanDoNext world process.old kernel.old shared.old.items book.old op.now }
    ensures done { HasDoneNext world op.now process.old process.new kernel.new shared.new.items book.new }
    ensures events { AddsOperation world.trace process.old.cell.pid op.now (known_to process.old book.old) (known_to process.new book.new) }
{
    if do_inside(process, op) {
        return;
    }
    publish_all(process, book);
    match *op {
        Op::Collect => do_collect(process, book),
        Op::KCollect => do_collect_kernel(process, kernel, shared, book),
        Op::Exit => do_exit(process, kernel, book),
        _ => do_by_step(process, kernel, shared, book, op),
    }
}
