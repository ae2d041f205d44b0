//! The end of a process by another's operation.
ghost use Rattle.k_operate.specs.Adding.{AddsOperation, known_to};
ghost use Rattle.k_operate.specs.Killing.{CanEndOther, CanKillNow, HasDoneKill, known_to_both};
ghost use Rattle.k_process.specs.Worlds.{WorldValue};

use crate::known::{know_exits, know_kernel_exits};
use crate::stepping::{do_alone, publish_all};
use k_own::{Reach, kill, reach};
use k_process::{Book, KernelCell, Process};
use k_types::Op;

/// Ends the target, of which nothing is unpublished.
fn end_other(
    process: &mut Process,
    target: &mut Process,
    kernel: &mut KernelCell,
    book: &mut Book,
    op: &Op,
)
    ghost world: { WorldValue }
    requires { CanEndOther world process.old target.old kernel.old book.old op.now }
    ensures done { HasDoneKill world op.now process.old process.new target.old target.new kernel.new book.new }
    ensures events { AddsOperation world.trace process.old.cell.pid op.now (known_to process.old book.old) (known_to process.new book.new) }
{
    know_exits(&target.cell);
    know_kernel_exits(kernel);
    kill(&mut process.cell, &mut target.cell, kernel, book, op);
}

/// Does the operation `kill` of the target, another process. What either did inside its heap is published first, the own before the
/// target's; then the target ends, unless it has ended before or the kill is refused, which changes nothing of it. The cost is that of
/// the target's `exit`, after that of `publish_all` for both.
pub fn do_kill(
    process: &mut Process,
    target: &mut Process,
    kernel: &mut KernelCell,
    book: &mut Book,
    op: &Op,
)
    ghost world: { WorldValue }
    requires { CanKillNow world process.old target.old kernel.old book.old op.now }
    ensures done { HasDoneKill world op.now process.old process.new target.old target.new kernel.new book.new }
    ensures events { AddsOperation world.trace process.old.cell.pid op.now (known_to_both process.old target.old book.old) (known_to process.new book.new) }
{
    publish_all(process, book);
    publish_all(target, book);
    match reach(&process.cell, book, op) {
        Reach::End(_) => end_other(process, target, kernel, book, op),
        Reach::Own => do_alone(process, book, op),
        Reach::Kernel => unreachable!(),
        Reach::Shared(_) => unreachable!(),
    }
}
