//! Whole collections of a host's heaps: each is tested before it begins, and then it ends too.
ghost use Rattle.std.specs.Prelude.{◌≡◌, ◌≤◌, ◌↔◌, IfErr, IfOk, IsTrue, OnErr, OnOk};
ghost use Rattle.k_calls.specs.k_guests.Objects.{objects_after};
ghost use Rattle.k_calls.specs.k_guests.Serving.{Basis, BookServes, GuestServes, KernelServes, basis_of};
ghost use Rattle.k_ends.specs.Whole.{AreFreedLast, CanCollect, CanCollectKernel, CanNotCollect, CanNotCollectKernel, HasCollected, HasCollectedKernel, HasRoomToCollect};

use k_book::Book;
use k_calls::{
    Guest, HostError, Terms, awake, begin_heap, begin_kernel, end_heap_listing, end_kernel_listing,
    is_idle, mark_heap, mark_kernel, publish,
};
use k_kernel::KernelCell;
use k_mark::Freed;
use k_types::Event;

/// Whether the journal has room for what the process has unpublished and for the two events of a collection.
fn has_room_to_collect(terms: &Terms, guest: &Guest, book: &Book) -> bool
    ensures { IsTrue result ↔ HasRoomToCollect (basis_of terms.now) guest.now book.now }
{
    book.len() + u64::from(guest.cell.tail_len()) + 2 <= terms.rooms.events
}

/// Publishes, and collects the process's heap. The list then has the names of what that freed, and no others.
fn do_collect(terms: &Terms, guest: &mut Guest, book: &mut Book, freed: &mut Freed) -> Event
    ghost basis: { Basis }
    requires { CanCollect basis guest.old book.old }
    ensures done { HasCollected basis guest.old guest.new book.old book.new result }
    ensures freed { objects_after basis.trace book.old.journal.list ≤ freed.old.room → AreFreedLast basis.trace book.new.journal.list freed.new.names }
    ensures room { freed.new.room ≡ freed.old.room }
{
    publish(&mut guest.cell, book);
    begin_heap(&mut guest.cell, book);
    mark_heap(&mut guest.cell);
    end_heap_listing(&mut guest.cell, book, freed)
}

/// Collects the process's heap, if no collection of it is open and there is room. The list then has the names of what that freed, and no
/// others, where it has room for as many as the machine has objects.
pub fn try_collect(
    terms: &Terms,
    guest: &mut Guest,
    book: &mut Book,
    freed: &mut Freed,
) -> Result<Event, HostError>
    requires guest { GuestServes (basis_of terms.now) book.old.journal.table guest.old }
    requires book { BookServes (basis_of terms.now) book.old }
    ensures done { IfOk result (λ event. HasCollected (basis_of terms.now) guest.old guest.new book.old book.new event) }
    ensures same { IfErr result (λ why. (guest.new ≡ guest.old) × (book.new ≡ book.old)) }
    ensures why { IfErr result (λ why. CanNotCollect (basis_of terms.now) book.old guest.old why) }
    ensures freed { objects_after (basis_of terms.now).trace book.old.journal.list ≤ freed.old.room → OnOk result (AreFreedLast (basis_of terms.now).trace book.new.journal.list freed.new.names) }
    ensures kept { OnErr result (freed.new ≡ freed.old) }
    ensures room { freed.new.room ≡ freed.old.room }
{
    awake(guest)?;
    if !has_room_to_collect(terms, guest, book) {
        return Err(HostError::Full);
    }
    Ok(do_collect(terms, guest, book, freed))
}

/// Publishes, and collects the kernel's heap. The list then has the names of what that freed, and no others.
fn do_collect_kernel(
    terms: &Terms,
    guest: &mut Guest,
    kernel: &mut KernelCell,
    book: &mut Book,
    freed: &mut Freed,
) -> Event
    ghost basis: { Basis }
    requires { CanCollectKernel basis guest.old kernel.old book.old }
    ensures done { HasCollectedKernel basis guest.old guest.new kernel.new book.old book.new result }
    ensures freed { objects_after basis.trace book.old.journal.list ≤ freed.old.room → AreFreedLast basis.trace book.new.journal.list freed.new.names }
    ensures room { freed.new.room ≡ freed.old.room }
{
    publish(&mut guest.cell, book);
    begin_kernel(&mut guest.cell, kernel, book);
    mark_kernel(kernel);
    end_kernel_listing(kernel, book, freed)
}

/// Collects the kernel's heap, if no collection of it or of the process's heap is open, no shared heap is an orphan and there is room. The
/// list then has the names of what that freed, and no others, where it has room for as many as the machine has objects.
pub fn try_collect_kernel(
    terms: &Terms,
    guest: &mut Guest,
    kernel: &mut KernelCell,
    book: &mut Book,
    freed: &mut Freed,
) -> Result<Event, HostError>
    requires guest { GuestServes (basis_of terms.now) book.old.journal.table guest.old }
    requires kernel { KernelServes (basis_of terms.now) book.old.journal.table kernel.old }
    requires book { BookServes (basis_of terms.now) book.old }
    ensures done { IfOk result (λ event. HasCollectedKernel (basis_of terms.now) guest.old guest.new kernel.new book.old book.new event) }
    ensures same { IfErr result (λ why. (guest.new ≡ guest.old) × (kernel.new ≡ kernel.old) × (book.new ≡ book.old)) }
    ensures why { IfErr result (λ why. CanNotCollectKernel (basis_of terms.now) kernel.old book.old guest.old why) }
    ensures freed { objects_after (basis_of terms.now).trace book.old.journal.list ≤ freed.old.room → OnOk result (AreFreedLast (basis_of terms.now).trace book.new.journal.list freed.new.names) }
    ensures kept { OnErr result (freed.new ≡ freed.old) }
    ensures room { freed.new.room ≡ freed.old.room }
{
    awake(guest)?;
    if !is_idle(kernel.phase()) {
        return Err(HostError::Phase);
    }
    if book.first_orphan().is_some() {
        return Err(HostError::Orphan);
    }
    if !has_room_to_collect(terms, guest, book) {
        return Err(HostError::Full);
    }
    Ok(do_collect_kernel(terms, guest, kernel, book, freed))
}
