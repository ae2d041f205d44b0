//! An operation that is made up, with whatever it touches, and what a process does inside its heap.
ghost use Rattle.std.specs.Prelude.{◌≡◌, ◌↔◌, ◌+◌, ◌<◌, IsTrue, length, IfErr, IfNone, IfOk, IfSome, OnErr, OnOk, is_some};
ghost use Rattle.k_agree.specs.Shown.{idle_part};
ghost use Rattle.k_laws.specs.Locals.{is_local_in};
ghost use Rattle.k_guests.specs.Serving.{BookServes, GuestServes, HasTailRoom, basis_of};
ghost use Rattle.k_calls.specs.Doing.{CanOperate, HasDoneInside, HasOperated, HasPublishedAll};
ghost use Rattle.k_calls.specs.Refusals.{CanNotDoInside, CanNotOperateAlone, CanNotPublish};

use crate::apart::{record_alone, record_with_kernel, record_with_shared, try_here};
use crate::came::Came;
use crate::doing::{do_inside, publish_all};
use crate::errors::HostError;
use crate::ranges::is_in_range;
use crate::readiness::{awake, has_count_room, has_room_to_publish};
use k_book::Book;
use k_guests::{Guest, Terms};
use k_kernel::KernelCell;
use k_operate::Reach;
use k_shared::SharedCell;
use k_types::{Event, Op, Reply};
use std::alloc::Global;

/// Whether one event more can be unpublished after the next one.
fn has_tail_left(terms: &Terms, guest: &Guest) -> bool
    ensures { IsTrue result ↔ (length guest.now.cell.value.tail + 1 < terms.now.rooms.tail) }
{
    u64::from(guest.cell.tail_len()) + 1 < u64::from(terms.rooms.tail)
}

/// Does the operation inside the process's own heap, if it needs that heap alone and there is room.
pub fn try_inside(terms: &Terms, guest: &mut Guest, op: &Op) -> Result<Option<Reply>, HostError>
    requires { GuestServes (basis_of terms.now) guest.old.cell.note.table guest.old }
    ensures done { IfOk result (λ answer. IfSome answer (λ said. HasDoneInside (basis_of terms.now) op.now guest.old guest.new said)) }
    ensures few { IfOk result (λ answer. IfSome answer (λ said. HasTailRoom (basis_of terms.now) guest.new)) }
    ensures none { IfOk result (λ answer. IfNone answer (guest.new ≡ guest.old)) }
    ensures same { IfErr result (λ why. guest.new ≡ guest.old) }
    ensures told { IfOk result (λ answer. is_some answer ≡ is_local_in (idle_part guest.old.cell.value) guest.old.cell.pid.0 op.now) }
    ensures why { IfErr result (λ why. CanNotDoInside (basis_of terms.now) op.now guest.old why) }
{
    if !is_in_range(&terms.setup, op) {
        return Err(HostError::Unknown);
    }
    awake(guest)?;
    if !has_count_room(guest) || !has_tail_left(terms, guest) {
        return Err(HostError::Full);
    }
    Ok(do_inside(terms, guest, op))
}

/// Publishes what the process did inside its heap, if there is room.
pub fn try_publish(terms: &Terms, guest: &mut Guest, book: &mut Book) -> Result<(), HostError>
    requires guest { GuestServes (basis_of terms.now) book.old.journal.table guest.old }
    requires book { BookServes (basis_of terms.now) book.old }
    ensures done { OnOk result (HasPublishedAll (basis_of terms.now) guest.old guest.new book.old book.new) }
    ensures same { OnErr result ((guest.new ≡ guest.old) × (book.new ≡ book.old)) }
    ensures why { IfErr result (λ why. CanNotPublish (basis_of terms.now) book.old guest.old why) }
{
    if !has_room_to_publish(terms, guest, book) {
        return Err(HostError::Full);
    }
    publish_all(terms, guest, book);
    Ok(())
}

/// Does the operation with whatever it touches, if it is ready and there is room, and memory for the object that it makes. What is done
/// inside the heap is published once no event more can be unpublished. A `kill` that ends another process has a call of its own, which is
/// lent that process too.
#[inline(always)]
pub fn operate_with(
    alloc: Global,
    terms: &Terms,
    guest: &mut Guest,
    kernel: &mut KernelCell,
    shared: &mut Vec<SharedCell>,
    book: &mut Book,
    op: &Op,
) -> Result<Event, HostError>
    requires can { CanOperate (basis_of terms.now) guest.old kernel.old shared.old.items book.old }
    requires few { HasTailRoom (basis_of terms.now) guest.old }
    ensures done { IfOk result (λ event. HasOperated (basis_of terms.now) op.now guest.old guest.new kernel.old kernel.new shared.old.items shared.new.items book.old book.new event) }
    ensures same { IfErr result (λ why. (guest.new ≡ guest.old) × (kernel.new ≡ kernel.old) × (shared.new.items ≡ shared.old.items) × (book.new ≡ book.old)) }
    ensures why { IfErr result (λ why. CanNotOperateAlone (basis_of terms.now) kernel.old shared.old.items book.old op.now guest.old why) }
{
    let came = try_here(terms, guest, book, op)?;
    let reach = match came {
        Came::Did(event) => return Ok(event),
        Came::Needs(reach) => reach,
    };
    match reach {
        Reach::Own => record_alone(alloc, terms, guest, book, op),
        Reach::Kernel => record_with_kernel(alloc, terms, guest, kernel, book, op),
        Reach::Shared(id) => {
            let heap = &mut shared[id.0 as usize];
            record_with_shared(alloc, terms, guest, heap, book, op)
        }
        Reach::End(_) => Err(HostError::OwnCall),
    }
}
