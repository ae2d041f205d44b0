//! Calls on the collections of a host's heaps, on absorptions and on the ends of processes, each tested before it is done.
ghost use Rattle.std.specs.Prelude.{◌≡◌, ◌↔◌, IfErr, IfOk, IsTrue, OnErr, OnOk};
ghost use Rattle.k_shares.specs.Sharers.{lowest_orphan};
ghost use Rattle.k_calls.specs.k_guests.Serving.{BookServes, GuestServes, KernelServes, SharedServes, basis_of};
ghost use Rattle.k_ends.specs.Collecting.{HasAbsorbedNow, HasBegun, HasBegunKernel, HasEnded, HasExitedNow, HasMarkedGuest, HasMarkedKernel, HasSettled, HasSettledKernel, KernelHasEnded};
ghost use Rattle.k_ends.specs.Refusals.{CanNotAbsorb, CanNotBegin, CanNotBeginKernel, CanNotEnd, CanNotEndKernel, CanNotExit, CanNotMark, CanNotMarkKernel, CanNotSettle, CanNotSettleKernel};

use crate::collecting::{
    do_absorb, do_begin, do_begin_kernel, do_end, do_end_kernel, do_exit, do_mark, do_mark_kernel,
    do_settle, do_settle_kernel,
};
use k_book::Book;
use k_calls::{Guest, HostError, Terms, awake, has_events_left, is_begun, is_idle, is_marked};
use k_kernel::KernelCell;
use k_shared::SharedCell;
use k_types::{Event, SharedId};

/// Begins the collection of the process's heap, if none is open and there is room.
pub fn try_begin(terms: &Terms, guest: &mut Guest, book: &mut Book) -> Result<Event, HostError>
    requires guest { GuestServes (basis_of terms.now) book.old.journal.table guest.old }
    requires book { BookServes (basis_of terms.now) book.old }
    ensures done { IfOk result (λ event. HasBegun (basis_of terms.now) guest.old guest.new book.old book.new event) }
    ensures same { IfErr result (λ why. (guest.new ≡ guest.old) × (book.new ≡ book.old)) }
    ensures why { IfErr result (λ why. CanNotBegin (basis_of terms.now) book.old guest.old why) }
{
    awake(guest)?;
    if !has_events_left(terms, guest, book) {
        return Err(HostError::Full);
    }
    Ok(do_begin(terms, guest, book))
}

/// Marks the process's heap, if its collection has begun.
pub fn try_mark(terms: &Terms, guest: &mut Guest) -> Result<(), HostError>
    requires { GuestServes (basis_of terms.now) guest.old.cell.note.table guest.old }
    ensures done { OnOk result (HasMarkedGuest (basis_of terms.now) guest.old guest.new) }
    ensures same { OnErr result (guest.new ≡ guest.old) }
    ensures why { IfErr result (λ why. CanNotMark guest.old why) }
{
    if !is_begun(guest.cell.phase()) {
        return Err(HostError::Phase);
    }
    do_mark(terms, guest);
    Ok(())
}

/// Ends the collection of the process's heap, if it is marked and there is room.
pub fn try_end(terms: &Terms, guest: &mut Guest, book: &mut Book) -> Result<Event, HostError>
    requires guest { GuestServes (basis_of terms.now) book.old.journal.table guest.old }
    requires book { BookServes (basis_of terms.now) book.old }
    ensures done { IfOk result (λ event. HasEnded (basis_of terms.now) guest.old guest.new book.old book.new event) }
    ensures same { IfErr result (λ why. (guest.new ≡ guest.old) × (book.new ≡ book.old)) }
    ensures why { IfErr result (λ why. CanNotEnd (basis_of terms.now) book.old guest.old why) }
{
    if !guest.cell.lives() {
        return Err(HostError::Ended);
    }
    if !is_marked(guest.cell.phase()) {
        return Err(HostError::Phase);
    }
    if !has_events_left(terms, guest, book) {
        return Err(HostError::Full);
    }
    Ok(do_end(terms, guest, book))
}

/// Publishes, and ends what is open of the process's heap, if there is room.
pub fn try_settle(terms: &Terms, guest: &mut Guest, book: &mut Book) -> Result<(), HostError>
    requires guest { GuestServes (basis_of terms.now) book.old.journal.table guest.old }
    requires book { BookServes (basis_of terms.now) book.old }
    ensures done { OnOk result (HasSettled (basis_of terms.now) guest.old guest.new book.old book.new) }
    ensures same { OnErr result ((guest.new ≡ guest.old) × (book.new ≡ book.old)) }
    ensures why { IfErr result (λ why. CanNotSettle (basis_of terms.now) book.old guest.old why) }
{
    if !guest.cell.lives() {
        return Err(HostError::Ended);
    }
    if !has_events_left(terms, guest, book) {
        return Err(HostError::Full);
    }
    do_settle(terms, guest, book);
    Ok(())
}

/// Begins the collection of the kernel's heap, if none is open, no shared heap is an orphan and there is room.
pub fn try_begin_kernel(
    terms: &Terms,
    guest: &mut Guest,
    kernel: &mut KernelCell,
    book: &mut Book,
) -> Result<Event, HostError>
    requires guest { GuestServes (basis_of terms.now) book.old.journal.table guest.old }
    requires kernel { KernelServes (basis_of terms.now) book.old.journal.table kernel.old }
    requires book { BookServes (basis_of terms.now) book.old }
    ensures done { IfOk result (λ event. HasBegunKernel (basis_of terms.now) guest.old guest.new kernel.new book.old book.new event) }
    ensures same { IfErr result (λ why. (guest.new ≡ guest.old) × (kernel.new ≡ kernel.old) × (book.new ≡ book.old)) }
    ensures why { IfErr result (λ why. CanNotBeginKernel (basis_of terms.now) kernel.old book.old guest.old why) }
{
    awake(guest)?;
    if !is_idle(kernel.phase()) {
        return Err(HostError::Phase);
    }
    if book.first_orphan().is_some() {
        return Err(HostError::Orphan);
    }
    if !has_events_left(terms, guest, book) {
        return Err(HostError::Full);
    }
    Ok(do_begin_kernel(terms, guest, kernel, book))
}

/// Marks the kernel's heap, if its collection has begun.
pub fn try_mark_kernel(terms: &Terms, kernel: &mut KernelCell) -> Result<(), HostError>
    requires { KernelServes (basis_of terms.now) kernel.old.note.table kernel.old }
    ensures done { OnOk result (HasMarkedKernel (basis_of terms.now) kernel.old kernel.new) }
    ensures same { OnErr result (kernel.new ≡ kernel.old) }
    ensures why { IfErr result (λ why. CanNotMarkKernel kernel.old why) }
{
    if !is_begun(kernel.phase()) {
        return Err(HostError::Phase);
    }
    do_mark_kernel(terms, kernel);
    Ok(())
}

/// Ends the collection of the kernel's heap, if it is marked and there is room.
pub fn try_end_kernel(
    terms: &Terms,
    kernel: &mut KernelCell,
    book: &mut Book,
) -> Result<Event, HostError>
    requires kernel { KernelServes (basis_of terms.now) book.old.journal.table kernel.old }
    requires book { BookServes (basis_of terms.now) book.old }
    ensures done { IfOk result (λ event. KernelHasEnded (basis_of terms.now) kernel.new book.old book.new event) }
    ensures same { IfErr result (λ why. (kernel.new ≡ kernel.old) × (book.new ≡ book.old)) }
    ensures why { IfErr result (λ why. CanNotEndKernel (basis_of terms.now) kernel.old book.old why) }
{
    if !is_marked(kernel.phase()) {
        return Err(HostError::Phase);
    }
    if book.len() >= terms.rooms.events {
        return Err(HostError::Full);
    }
    Ok(do_end_kernel(terms, kernel, book))
}

/// Ends what is open of the kernel's heap, if there is room.
pub fn try_settle_kernel(
    terms: &Terms,
    kernel: &mut KernelCell,
    book: &mut Book,
) -> Result<(), HostError>
    requires kernel { KernelServes (basis_of terms.now) book.old.journal.table kernel.old }
    requires book { BookServes (basis_of terms.now) book.old }
    ensures done { OnOk result (HasSettledKernel (basis_of terms.now) kernel.old kernel.new book.old book.new) }
    ensures same { OnErr result ((kernel.new ≡ kernel.old) × (book.new ≡ book.old)) }
    ensures why { IfErr result (λ why. CanNotSettleKernel (basis_of terms.now) book.old why) }
{
    if book.len() >= terms.rooms.events {
        return Err(HostError::Full);
    }
    do_settle_kernel(terms, kernel, book);
    Ok(())
}

/// Ends the process, if no collection of its heap or the kernel's is open and there is room.
pub fn try_exit(
    terms: &Terms,
    guest: &mut Guest,
    kernel: &mut KernelCell,
    book: &mut Book,
) -> Result<Event, HostError>
    requires guest { GuestServes (basis_of terms.now) book.old.journal.table guest.old }
    requires kernel { KernelServes (basis_of terms.now) book.old.journal.table kernel.old }
    requires book { BookServes (basis_of terms.now) book.old }
    ensures done { IfOk result (λ event. HasExitedNow (basis_of terms.now) guest.old guest.new kernel.new book.old book.new event) }
    ensures same { IfErr result (λ why. (guest.new ≡ guest.old) × (kernel.new ≡ kernel.old) × (book.new ≡ book.old)) }
    ensures why { IfErr result (λ why. CanNotExit (basis_of terms.now) kernel.old book.old guest.old why) }
{
    awake(guest)?;
    if !is_idle(kernel.phase()) {
        return Err(HostError::Phase);
    }
    if !has_events_left(terms, guest, book) {
        return Err(HostError::Full);
    }
    Ok(do_exit(terms, guest, kernel, book))
}

/// Whether the shared heap is the orphan of the lowest number.
fn is_first_orphan(book: &Book, id: SharedId) -> bool
    ensures { IsTrue result ↔ (lowest_orphan book.now.value.phases book.now.value.shares ≡ Some id.0) }
{
    match book.first_orphan() {
        Some(first) => first.0 == id.0,
        None => false,
    }
}

/// Absorbs the shared heap, if it is the first orphan, no collection of the kernel's heap is open and there is room.
pub fn try_absorb(
    terms: &Terms,
    shared: &mut SharedCell,
    kernel: &mut KernelCell,
    book: &mut Book,
) -> Result<Event, HostError>
    requires shared { SharedServes (basis_of terms.now) book.old.journal.table shared.old }
    requires kernel { KernelServes (basis_of terms.now) book.old.journal.table kernel.old }
    requires book { BookServes (basis_of terms.now) book.old }
    ensures done { IfOk result (λ event. HasAbsorbedNow (basis_of terms.now) shared.old shared.new kernel.new book.old book.new event) }
    ensures same { IfErr result (λ why. (shared.new ≡ shared.old) × (kernel.new ≡ kernel.old) × (book.new ≡ book.old)) }
    ensures why { IfErr result (λ why. CanNotAbsorb (basis_of terms.now) kernel.old book.old shared.old.id why) }
{
    if !is_first_orphan(book, shared.id()) {
        return Err(HostError::Orphan);
    }
    if !is_idle(kernel.phase()) {
        return Err(HostError::Phase);
    }
    if book.len() >= terms.rooms.events {
        return Err(HostError::Full);
    }
    Ok(do_absorb(terms, shared, kernel, book))
}
