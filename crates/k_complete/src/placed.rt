//! The next operation of one process among all. A `kill` is lent two of them.
ghost use Rattle.std.specs.Prelude.{◌≡◌, Some, slice_get};
ghost use Rattle.k_complete.specs.Placed.{CanDoAt, CanKillAt, HasDoneAt, HasKilledAt};
ghost use Rattle.k_operate.specs.k_process.declared.process.Process.{Process as ProcessValue};
ghost use Rattle.k_operate.specs.k_process.Heaps.{value_of};
ghost use Rattle.k_operate.specs.k_process.Worlds.{WorldValue};

use k_book::Book;
use k_kernel::KernelCell;
use k_operate::{Heaps, Process, do_kill, do_next};
use k_types::Op;

/// Does the `kill` of the process of the second number by that of the first. The cost is that of `do_kill`.
fn kill_at(
    processes: &mut [Process],
    at: usize,
    target: usize,
    kernel: &mut KernelCell,
    book: &mut Book,
    op: &Op,
)
    ghost world: { WorldValue }
    requires { (p : ProcessValue) × (t : ProcessValue) × CanKillAt world processes.old at target p t kernel.old book.old op.now }
    ensures { (p t : ProcessValue) → slice_get processes.old at ≡ Some p → slice_get processes.old target ≡ Some t → HasKilledAt world op.now at target p t processes.old processes.new kernel.new book.old book.new }
{
    if at < target {
        let (front, back) = processes.split_at_mut(target);
        do_kill(&mut front[at], &mut back[0], kernel, book, op);
    } else {
        let (front, back) = processes.split_at_mut(at);
        do_kill(&mut back[0], &mut front[target], kernel, book, op);
    }
}

/// Does the next operation of the process of that number, with whatever it touches, from its beginning to its end. The cost is that of
/// `do_next`, or of `do_kill` where it is the kill of another process.
pub(crate) fn do_at(heaps: &mut Heaps, at: usize, op: &Op)
    ghost world: { WorldValue }
    requires { (p : ProcessValue) × CanDoAt world (value_of heaps.old) at p op.now }
    ensures { (p : ProcessValue) → slice_get heaps.old.processes.items at ≡ Some p → HasDoneAt world op.now at p (value_of heaps.old) (value_of heaps.new) }
{
    if let Op::Kill { target } = *op {
        if target.0 as usize != at {
            kill_at(
                &mut heaps.processes,
                at,
                target.0 as usize,
                &mut heaps.kernel,
                &mut heaps.book,
                op,
            );
            return;
        }
    }
    do_next(
        &mut heaps.processes[at],
        &mut heaps.kernel,
        &mut heaps.shared,
        &mut heaps.book,
        op,
    );
}
