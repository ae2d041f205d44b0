//! The closing: the last collection of the kernel, where every process has ended.
ghost use Rattle.std.specs.Prelude.{◌≡◌};
ghost use Rattle.k_agree.specs.Settled.{all_ended_in};
ghost use Rattle.k_book.specs.Machine.{IsBookOf};
ghost use Rattle.k_complete.specs.Closing.{CanCollectLast, HasClosedAll, HasCollectedLast};
ghost use Rattle.k_operate.specs.k_process.BetweenSteps.{RestStands};
ghost use Rattle.k_operate.specs.k_process.Worlds.{WorldValue};
ghost use Rattle.k_types.specs.Trace.{Trace};

use k_book::Book;
use k_kernel::KernelCell;
use k_operate::{absorb_orphans, close_kernel, end_kernel, mark_kernel_collection};
use k_shared::SharedCell;
use k_types::Pid;

/// Whether every process has ended.
fn all_have_ended(book: &Book) -> bool
    ghost trace: { Trace }
    requires { IsBookOf trace book.now }
    ensures { result ≡ all_ended_in trace book.now.value }
{
    let count = book.procs();
    for p in 0..count {
        if book.lives(Pid(p)) {
            return false;
        }
    }
    true
}

/// Collects the kernel's heap for the last time: the closing begins the collection, which marks and ends.
fn collect_last(kernel: &mut KernelCell, book: &mut Book)
    ghost world: { WorldValue }
    requires { CanCollectLast world kernel.old book.old }
    ensures { HasCollectedLast world kernel.new book.old book.new }
{
    close_kernel(kernel, book);
    mark_kernel_collection(kernel);
    end_kernel(kernel, book);
}

/// Where every process has ended, the kernel absorbs all orphans and its heap is collected for the last time; else nothing happens.
/// The cost is that of the absorptions and of the collection, beside one look at each process. It takes no memory.
pub fn close_all(kernel: &mut KernelCell, shared: &mut Vec<SharedCell>, book: &mut Book)
    ghost world: { WorldValue }
    requires { RestStands world kernel.old shared.old.items book.old }
    ensures { HasClosedAll world kernel.new shared.new.items book.old book.new }
{
    if !all_have_ended(book) {
        return;
    }
    absorb_orphans(shared, kernel, book);
    collect_last(kernel, book);
}
