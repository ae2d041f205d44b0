//! The end of a process by another's operation, tested before it is done.
ghost use Rattle.std.specs.Prelude.{◌≡◌, ◌↔◌, IfErr, IfOk, IsTrue, OnOk};
ghost use Rattle.k_types.specs.declared.op.Op.TheVariants.{Kill};
ghost use Rattle.k_calls.specs.k_guests.Serving.{Basis, BookServes, GuestServes, KernelServes, basis_of};
ghost use Rattle.k_ends.specs.Killing.{CanKillNow, CanNotKill, HasKilledNow, HasRoomToKill, HasTriedToKill, IsNotReadyToEnd, IsReadyToEnd};

use crate::known::{know_exits, know_kernel_exits};
use k_book::Book;
use k_calls::{
    Guest, HostError, Reach, Terms, do_alone, is_idle, kill, publish, reached, ready, room_left,
};
use k_kernel::KernelCell;
use k_types::{Event, Op};

/// Whether the journal has room for what both processes have unpublished and one event more.
fn has_room_to_kill(terms: &Terms, guest: &Guest, target: &Guest, book: &Book) -> bool
    ensures { IsTrue result ↔ HasRoomToKill (basis_of terms.now) guest.now target.now book.now }
{
    book.len() + u64::from(guest.cell.tail_len()) + u64::from(target.cell.tail_len())
        < terms.rooms.events
}

/// Whether the target can end now by an operation of the process.
fn ready_to_end(
    terms: &Terms,
    guest: &Guest,
    target: &Guest,
    kernel: &KernelCell,
    book: &Book,
) -> Result<(), HostError>
    ensures ok { OnOk result (IsReadyToEnd (basis_of terms.now) guest.now target.now kernel.now book.now) }
    ensures why { IfErr result (λ why. IsNotReadyToEnd (basis_of terms.now) kernel.now book.now guest.now target.now why) }
{
    if !is_idle(target.cell.phase()) {
        return Err(HostError::Phase);
    }
    if !is_idle(kernel.phase()) {
        return Err(HostError::Phase);
    }
    if !has_room_to_kill(terms, guest, target, book) {
        return Err(HostError::Full);
    }
    Ok(())
}

/// Publishes what the process and the target did inside their heaps, the process's first, and ends the target.
fn do_kill(
    terms: &Terms,
    guest: &mut Guest,
    target: &mut Guest,
    kernel: &mut KernelCell,
    book: &mut Book,
    op: &Op,
) -> Event
    ghost basis: { Basis }
    requires { CanKillNow basis guest.old target.old kernel.old book.old op.now }
    ensures { HasKilledNow basis op.now guest.old guest.new target.old target.new kernel.new book.old book.new result }
{
    publish(&mut guest.cell, book);
    publish(&mut target.cell, book);
    know_exits(&target.cell);
    know_kernel_exits(kernel);
    kill(&mut guest.cell, &mut target.cell, kernel, book, op)
}

/// Does the `kill` of the target, if the process is ready for it and there is room. Where the kill is refused, or the target has ended,
/// the process's own cell alone is touched; where it ends the target, no collection of the target's heap or the kernel's may be open.
pub fn try_kill(
    terms: &Terms,
    guest: &mut Guest,
    target: &mut Guest,
    kernel: &mut KernelCell,
    book: &mut Book,
    op: &Op,
) -> Result<Event, HostError>
    requires guest { GuestServes (basis_of terms.now) book.old.journal.table guest.old }
    requires target { GuestServes (basis_of terms.now) book.old.journal.table target.old }
    requires kernel { KernelServes (basis_of terms.now) book.old.journal.table kernel.old }
    requires book { BookServes (basis_of terms.now) book.old }
    requires asks { op.now ≡ Kill target.old.cell.pid }
    ensures done { IfOk result (λ event. HasTriedToKill (basis_of terms.now) op.now guest.old guest.new target.old target.new kernel.old kernel.new book.old book.new event) }
    ensures same { IfErr result (λ why. (guest.new ≡ guest.old) × (target.new ≡ target.old) × (kernel.new ≡ kernel.old) × (book.new ≡ book.old)) }
    ensures why { IfErr result (λ why. CanNotKill (basis_of terms.now) kernel.old book.old op.now target.old guest.old why) }
{
    ready(terms, guest, op)?;
    room_left(terms, guest, book)?;
    match reached(terms, guest, book, op) {
        Reach::End(_) => {
            ready_to_end(terms, guest, target, kernel, book)?;
            Ok(do_kill(terms, guest, target, kernel, book, op))
        }
        Reach::Own => Ok(do_alone(terms, guest, book, op)),
        Reach::Kernel => unreachable!(),
        Reach::Shared(_) => unreachable!(),
    }
}
