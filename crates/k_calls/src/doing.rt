//! One operation of a process, with the cells that it touches and the book.
ghost use Rattle.std.specs.Prelude.{◌≡◌, IfNone, IfSome, IsFalse, [], is_some};
ghost use Rattle.k_agree.specs.Shown.{idle_part};
ghost use Rattle.k_laws.specs.Locals.{is_local_in};
ghost use Rattle.k_laws.specs.Touches.{other_cells_in};
ghost use Rattle.k_operate.specs.Reaching.{CanReach, cells_of};
ghost use Rattle.k_types.specs.Agree.{book_shown_by};
ghost use Rattle.k_types.specs.Distinct.{AreDistinctNames};
ghost use Rattle.k_calls.specs.Adding.{HasOwnRoom};
ghost use Rattle.k_calls.specs.Doing.{CanDoInside, CanDoWithKernel, CanDoWithShared, HasDoneAlone, HasDoneInside, HasDoneWithKernel, HasDoneWithShared, HasPublishedAll, HasRoomToPublish, IsDueWith, IsPublishedWhereFull};
ghost use Rattle.k_guests.specs.Serving.{Basis, BookServes, GuestServes, basis_of};

use k_book::Book;
use k_guests::{Guest, Terms};
use k_kernel::KernelCell;
use k_operate::{Reach, local, publish, reach, step_kernel, step_own, step_shared};
use k_shared::SharedCell;
use k_types::{Event, Op, Reply};

/// Does the operation inside the process's own heap, if it needs that heap alone.
#[inline(always)]
pub(crate) fn do_inside(terms: &Terms, guest: &mut Guest, op: &Op) -> Option<Reply>
    ghost basis: { Basis }
    requires { CanDoInside basis guest.old op.now }
    ensures some { IfSome result (λ said. HasDoneInside basis op.now guest.old guest.new said) }
    ensures none { IfNone result (guest.new ≡ guest.old) }
    ensures outside { IfNone result (IsFalse (is_local_in (idle_part guest.old.cell.value) guest.old.cell.pid.0 op.now)) }
    ensures told { is_some result ≡ is_local_in (idle_part guest.old.cell.value) guest.old.cell.pid.0 op.now }
{
    local(&mut guest.cell, op)
}

/// Publishes what the process did inside its heap.
pub(crate) fn publish_all(terms: &Terms, guest: &mut Guest, book: &mut Book)
    ghost basis: { Basis }
    requires guest { GuestServes basis book.old.journal.table guest.old }
    requires book { BookServes basis book.old }
    requires room { HasRoomToPublish basis guest.old book.old }
    ensures { HasPublishedAll basis guest.old guest.new book.old book.new }
{
    publish(&mut guest.cell, book);
}

/// Publishes what the process did inside its heap where no event more can be unpublished.
pub(crate) fn publish_where_full(terms: &Terms, guest: &mut Guest, book: &mut Book)
    requires guest { GuestServes (basis_of terms.now) book.old.journal.table guest.old }
    requires book { BookServes (basis_of terms.now) book.old }
    requires room { HasRoomToPublish (basis_of terms.now) guest.old book.old }
    ensures { IsPublishedWhereFull (basis_of terms.now) guest.old guest.new book.old book.new }
{
    if guest.cell.tail_len() >= terms.rooms.tail {
        publish_all(terms, guest, book);
    }
}

/// The cells that the operation touches beside its process's own.
pub fn reached(terms: &Terms, guest: &Guest, book: &Book, op: &Op) -> Reach
    ghost basis: { Basis }
    requires { CanReach basis.trace guest.now.cell book.now op.now }
    ensures { cells_of result ≡ other_cells_in basis.trace (book_shown_by book.now.value) (idle_part guest.now.cell.value) guest.now.cell.pid.0 op.now }
{
    reach(&guest.cell, book, op)
}

/// Tells that no exit item of the kernel's heap stands twice.
fn know_exits(kernel: &KernelCell)
    ensures { AreDistinctNames kernel.now.value.exits }
{
    kernel.exit_count();
}

/// Publishes, and does an operation that touches the process's own cell alone.
pub fn do_alone(terms: &Terms, guest: &mut Guest, book: &mut Book, op: &Op) -> Event
    ghost basis: { Basis }
    requires due { IsDueWith basis guest.old book.old op.now [] }
    requires room { HasOwnRoom basis guest.old book.old op.now }
    ensures { HasDoneAlone basis op.now guest.old guest.new book.old book.new result }
{
    publish(&mut guest.cell, book);
    step_own(&mut guest.cell, book, op)
}

/// Publishes, and does an operation that touches the kernel's cell too.
pub(crate) fn do_with_kernel(
    terms: &Terms,
    guest: &mut Guest,
    kernel: &mut KernelCell,
    book: &mut Book,
    op: &Op,
) -> Event
    ghost basis: { Basis }
    requires { CanDoWithKernel basis guest.old kernel.old book.old op.now }
    ensures { HasDoneWithKernel basis op.now guest.old guest.new kernel.new book.old book.new result }
{
    publish(&mut guest.cell, book);
    know_exits(kernel);
    step_kernel(&mut guest.cell, kernel, book, op)
}

/// Publishes, and does an operation that touches a shared heap's cell too.
pub(crate) fn do_with_shared(
    terms: &Terms,
    guest: &mut Guest,
    shared: &mut SharedCell,
    book: &mut Book,
    op: &Op,
) -> Event
    ghost basis: { Basis }
    requires { CanDoWithShared basis guest.old shared.old book.old op.now }
    ensures { HasDoneWithShared basis op.now guest.old guest.new shared.old shared.new book.old book.new result }
{
    publish(&mut guest.cell, book);
    step_shared(&mut guest.cell, shared, book, op)
}
