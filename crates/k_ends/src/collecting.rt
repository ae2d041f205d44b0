//! Collections of a host from their beginning to their end, absorptions, and the ends of processes.
ghost use Rattle.k_types.specs.declared.names.CellPhase.TheVariants.{Marked};
ghost use Rattle.k_ends.specs.Collecting.{CanAbsorbNow, CanBegin, CanBeginKernel, CanEnd, CanExitNow, CanGoOn, CanMarkGuest, CanMarkKernel, HasAbsorbedNow, HasBegun, HasBegunKernel, HasEnded, HasExitedNow, HasMarkedGuest, HasMarkedKernel, HasSettled, HasSettledKernel, KernelCanGoOn, KernelHasEnded};
ghost use Rattle.k_calls.specs.k_guests.Serving.{Basis, BookServes, KernelServes};
ghost use Rattle.std.specs.Prelude.{◌<◌, length};

use crate::known::{know_exits, know_kernel_exits};
use k_book::Book;
use k_calls::{
    Guest, Terms, absorb, begin_heap, begin_kernel, end_heap, end_kernel, exit, mark_heap,
    mark_kernel, publish, settle_heap, settle_kernel,
};
use k_kernel::KernelCell;
use k_shared::SharedCell;
use k_types::Event;

/// Publishes, and begins the collection of the process's heap.
pub(crate) fn do_begin(terms: &Terms, guest: &mut Guest, book: &mut Book) -> Event
    ghost basis: { Basis }
    requires { CanBegin basis guest.old book.old }
    ensures { HasBegun basis guest.old guest.new book.old book.new result }
{
    publish(&mut guest.cell, book);
    begin_heap(&mut guest.cell, book)
}

/// Marks the process's heap.
pub(crate) fn do_mark(terms: &Terms, guest: &mut Guest)
    ghost basis: { Basis }
    requires { CanMarkGuest basis guest.old }
    ensures { HasMarkedGuest basis guest.old guest.new }
{
    mark_heap(&mut guest.cell);
}

/// Publishes, and ends the collection of the process's heap, which is marked.
pub(crate) fn do_end(terms: &Terms, guest: &mut Guest, book: &mut Book) -> Event
    ghost basis: { Basis }
    requires { CanEnd basis guest.old book.old }
    ensures { HasEnded basis guest.old guest.new book.old book.new result }
{
    publish(&mut guest.cell, book);
    end_heap(&mut guest.cell, book)
}

/// Publishes, and ends what is open of the process's heap.
pub(crate) fn do_settle(terms: &Terms, guest: &mut Guest, book: &mut Book)
    ghost basis: { Basis }
    requires { CanGoOn basis guest.old book.old }
    ensures { HasSettled basis guest.old guest.new book.old book.new }
{
    settle_heap(&mut guest.cell, book);
}

/// Publishes, and begins the collection of the kernel's heap.
pub(crate) fn do_begin_kernel(
    terms: &Terms,
    guest: &mut Guest,
    kernel: &mut KernelCell,
    book: &mut Book,
) -> Event
    ghost basis: { Basis }
    requires { CanBeginKernel basis guest.old kernel.old book.old }
    ensures { HasBegunKernel basis guest.old guest.new kernel.new book.old book.new result }
{
    publish(&mut guest.cell, book);
    begin_kernel(&mut guest.cell, kernel, book)
}

/// Marks the kernel's heap.
pub(crate) fn do_mark_kernel(terms: &Terms, kernel: &mut KernelCell)
    ghost basis: { Basis }
    requires { CanMarkKernel basis kernel.old }
    ensures { HasMarkedKernel basis kernel.old kernel.new }
{
    mark_kernel(kernel);
}

/// Ends the collection of the kernel's heap, which is marked.
pub(crate) fn do_end_kernel(terms: &Terms, kernel: &mut KernelCell, book: &mut Book) -> Event
    ghost basis: { Basis }
    requires { KernelCanGoOn basis kernel.old book.old Marked }
    ensures { KernelHasEnded basis kernel.new book.old book.new result }
{
    end_kernel(kernel, book)
}

/// Ends what is open of the kernel's heap.
pub(crate) fn do_settle_kernel(terms: &Terms, kernel: &mut KernelCell, book: &mut Book)
    ghost basis: { Basis }
    requires kernel { KernelServes basis book.old.journal.table kernel.old }
    requires book { BookServes basis book.old }
    requires room { length book.old.journal.list < basis.rooms.events }
    ensures { HasSettledKernel basis kernel.old kernel.new book.old book.new }
{
    settle_kernel(kernel, book);
}

/// Publishes, and ends the process.
pub(crate) fn do_exit(
    terms: &Terms,
    guest: &mut Guest,
    kernel: &mut KernelCell,
    book: &mut Book,
) -> Event
    ghost basis: { Basis }
    requires { CanExitNow basis guest.old kernel.old book.old }
    ensures { HasExitedNow basis guest.old guest.new kernel.new book.old book.new result }
{
    publish(&mut guest.cell, book);
    know_exits(&guest.cell);
    know_kernel_exits(kernel);
    exit(&mut guest.cell, kernel, book)
}

/// Absorbs the shared heap, which is an orphan.
pub(crate) fn do_absorb(
    terms: &Terms,
    shared: &mut SharedCell,
    kernel: &mut KernelCell,
    book: &mut Book,
) -> Event
    ghost basis: { Basis }
    requires { CanAbsorbNow basis shared.old kernel.old book.old }
    ensures { HasAbsorbedNow basis shared.old shared.new kernel.new book.old book.new result }
{
    absorb(shared, kernel, book)
}
