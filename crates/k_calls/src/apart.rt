//! An operation whose cells are lent one by one: it is done if it touches those alone, and else it is told which it touches.
ghost use Rattle.std.specs.Prelude.{◌≡◌, ◌∷◌, [], IfErr, IfOk};
ghost use Rattle.k_types.specs.declared.names.Heap.TheVariants.{Kernel, Shared};
ghost use Rattle.k_guests.specs.Serving.{BookServes, GuestServes, HasTailRoom, KernelServes, SharedServes, basis_of};
ghost use Rattle.k_calls.specs.Apart.{CanNotDoAlone, CanNotDoWithKernel, CanNotDoWithShared, CanNotTry, HasComeAlone, HasComeWithKernel, HasComeWithShared, HasTriedInside, IsRecordedWith, IsRecordedWithKernel, IsRecordedWithShared};
ghost use Rattle.k_calls.specs.Doing.{IsDue};

use crate::adding::{kernel_ready, own_room, shared_room};
use crate::came::{Came, is_kernel, is_own, is_shared};
use crate::doing::{
    do_alone, do_inside, do_with_kernel, do_with_shared, publish_where_full, reached,
};
use crate::errors::HostError;
use crate::providing::provide;
use crate::readiness::{ready, room_left};
use k_book::Book;
use k_guests::{Guest, Terms};
use k_kernel::KernelCell;
use k_shared::SharedCell;
use k_types::{Event, Op};
use std::alloc::Global;

/// Does the operation inside the process's heap where it needs that heap alone, and publishes once no event more can be unpublished. Else it
/// tells which cells the operation touches.
#[inline(always)]
pub(crate) fn try_here(
    terms: &Terms,
    guest: &mut Guest,
    book: &mut Book,
    op: &Op,
) -> Result<Came, HostError>
    requires guest { GuestServes (basis_of terms.now) book.old.journal.table guest.old }
    requires book { BookServes (basis_of terms.now) book.old }
    requires few { HasTailRoom (basis_of terms.now) guest.old }
    ensures done { IfOk result (λ came. HasTriedInside (basis_of terms.now) op.now guest.old guest.new book.old book.new came) }
    ensures same { IfErr result (λ why. (guest.new ≡ guest.old) × (book.new ≡ book.old)) }
    ensures why { IfErr result (λ why. CanNotTry (basis_of terms.now) book.old op.now guest.old why) }
{
    ready(terms, guest, op)?;
    room_left(terms, guest, book)?;
    if let Some(reply) = do_inside(terms, guest, op) {
        let pid = guest.cell.pid();
        publish_where_full(terms, guest, book);
        return Ok(Came::Did(Event::Done {
            pid,
            op: *op,
            reply,
        }));
    }
    Ok(Came::Needs(reached(terms, guest, book, op)))
}

/// Publishes, and does an operation that is due and touches the process's own cell alone, if there is room for what it adds.
pub(crate) fn record_alone(
    alloc: Global,
    terms: &Terms,
    guest: &mut Guest,
    book: &mut Book,
    op: &Op,
) -> Result<Event, HostError>
    requires { IsDue (basis_of terms.now) guest.old book.old op.now [] }
    ensures done { IfOk result (λ event. IsRecordedWith (basis_of terms.now) op.now [] guest.old guest.new book.old book.new event) }
    ensures same { IfErr result (λ why. (guest.new ≡ guest.old) × (book.new ≡ book.old)) }
    ensures why { IfErr result (λ why. CanNotDoAlone (basis_of terms.now) book.old op.now guest.old why) }
{
    own_room(terms, guest, book, op)?;
    provide(alloc, terms, guest, op)?;
    Ok(do_alone(terms, guest, book, op))
}

/// Publishes, and does an operation that is due and touches the kernel's cell too, if that is ready.
pub(crate) fn record_with_kernel(
    alloc: Global,
    terms: &Terms,
    guest: &mut Guest,
    kernel: &mut KernelCell,
    book: &mut Book,
    op: &Op,
) -> Result<Event, HostError>
    requires due { IsDue (basis_of terms.now) guest.old book.old op.now (Kernel ∷ []) }
    requires kernel { KernelServes (basis_of terms.now) book.old.journal.table kernel.old }
    ensures done { IfOk result (λ event. IsRecordedWithKernel (basis_of terms.now) op.now guest.old guest.new kernel.new book.old book.new event) }
    ensures same { IfErr result (λ why. (guest.new ≡ guest.old) × (kernel.new ≡ kernel.old) × (book.new ≡ book.old)) }
    ensures why { IfErr result (λ why. CanNotDoWithKernel (basis_of terms.now) kernel.old book.old op.now guest.old why) }
{
    kernel_ready(terms, kernel, book, op)?;
    provide(alloc, terms, guest, op)?;
    Ok(do_with_kernel(terms, guest, kernel, book, op))
}

/// Publishes, and does an operation that is due and touches the cell of this shared heap too, if there is room for what it adds.
pub(crate) fn record_with_shared(
    alloc: Global,
    terms: &Terms,
    guest: &mut Guest,
    shared: &mut SharedCell,
    book: &mut Book,
    op: &Op,
) -> Result<Event, HostError>
    requires due { IsDue (basis_of terms.now) guest.old book.old op.now (Shared shared.old.id ∷ []) }
    requires shared { SharedServes (basis_of terms.now) book.old.journal.table shared.old }
    ensures done { IfOk result (λ event. IsRecordedWithShared (basis_of terms.now) op.now guest.old guest.new shared.old shared.new book.old book.new event) }
    ensures same { IfErr result (λ why. (guest.new ≡ guest.old) × (shared.new ≡ shared.old) × (book.new ≡ book.old)) }
    ensures why { IfErr result (λ why. CanNotDoWithShared (basis_of terms.now) shared.old book.old op.now guest.old why) }
{
    shared_room(terms, shared, book, op)?;
    provide(alloc, terms, guest, op)?;
    Ok(do_with_shared(terms, guest, shared, book, op))
}

/// Does the operation where it touches the process's own cell alone, if it is ready and there is room, and memory for the object that it
/// makes. What is done inside the heap is published once no event more can be unpublished.
///
/// # Errors
///
/// Each changes nothing: those of `operate_with`, where the operation adds to the process's heap.
pub fn try_own(
    alloc: Global,
    terms: &Terms,
    guest: &mut Guest,
    book: &mut Book,
    op: &Op,
) -> Result<Came, HostError>
    requires guest { GuestServes (basis_of terms.now) book.old.journal.table guest.old }
    requires book { BookServes (basis_of terms.now) book.old }
    requires few { HasTailRoom (basis_of terms.now) guest.old }
    ensures done { IfOk result (λ came. HasComeAlone (basis_of terms.now) op.now guest.old guest.new book.old book.new came) }
    ensures same { IfErr result (λ why. (guest.new ≡ guest.old) × (book.new ≡ book.old)) }
    ensures why { IfErr result (λ why. CanNotDoAlone (basis_of terms.now) book.old op.now guest.old why) }
{
    let came = try_here(terms, guest, book, op)?;
    let reach = match came {
        Came::Did(event) => return Ok(Came::Did(event)),
        Came::Needs(reach) => reach,
    };
    if !is_own(reach) {
        return Ok(Came::Needs(reach));
    }
    let event = record_alone(alloc, terms, guest, book, op)?;
    Ok(Came::Did(event))
}

/// The same where the operation touches the kernel's cell too, whose heap is then not to be collected.
///
/// # Errors
///
/// Each changes nothing: those of `operate_with`, where the operation adds to the kernel's heap.
pub fn try_with_kernel(
    alloc: Global,
    terms: &Terms,
    guest: &mut Guest,
    kernel: &mut KernelCell,
    book: &mut Book,
    op: &Op,
) -> Result<Came, HostError>
    requires guest { GuestServes (basis_of terms.now) book.old.journal.table guest.old }
    requires kernel { KernelServes (basis_of terms.now) book.old.journal.table kernel.old }
    requires book { BookServes (basis_of terms.now) book.old }
    requires few { HasTailRoom (basis_of terms.now) guest.old }
    ensures done { IfOk result (λ came. HasComeWithKernel (basis_of terms.now) op.now guest.old guest.new kernel.old kernel.new book.old book.new came) }
    ensures same { IfErr result (λ why. (guest.new ≡ guest.old) × (kernel.new ≡ kernel.old) × (book.new ≡ book.old)) }
    ensures why { IfErr result (λ why. CanNotDoWithKernel (basis_of terms.now) kernel.old book.old op.now guest.old why) }
{
    let came = try_here(terms, guest, book, op)?;
    let reach = match came {
        Came::Did(event) => return Ok(Came::Did(event)),
        Came::Needs(reach) => reach,
    };
    if !is_kernel(reach) {
        return Ok(Came::Needs(reach));
    }
    let event = record_with_kernel(alloc, terms, guest, kernel, book, op)?;
    Ok(Came::Did(event))
}

/// The same where the operation touches the cell of this shared heap too. Where it touches that of another one, it tells which.
///
/// # Errors
///
/// Each changes nothing: those of `operate_with`, where the operation adds to the shared heap.
pub fn try_with_shared(
    alloc: Global,
    terms: &Terms,
    guest: &mut Guest,
    shared: &mut SharedCell,
    book: &mut Book,
    op: &Op,
) -> Result<Came, HostError>
    requires guest { GuestServes (basis_of terms.now) book.old.journal.table guest.old }
    requires shared { SharedServes (basis_of terms.now) book.old.journal.table shared.old }
    requires book { BookServes (basis_of terms.now) book.old }
    requires few { HasTailRoom (basis_of terms.now) guest.old }
    ensures done { IfOk result (λ came. HasComeWithShared (basis_of terms.now) op.now guest.old guest.new shared.old shared.new book.old book.new came) }
    ensures same { IfErr result (λ why. (guest.new ≡ guest.old) × (shared.new ≡ shared.old) × (book.new ≡ book.old)) }
    ensures why { IfErr result (λ why. CanNotDoWithShared (basis_of terms.now) shared.old book.old op.now guest.old why) }
{
    let came = try_here(terms, guest, book, op)?;
    let reach = match came {
        Came::Did(event) => return Ok(Came::Did(event)),
        Came::Needs(reach) => reach,
    };
    if !is_shared(reach, shared.id()) {
        return Ok(Came::Needs(reach));
    }
    let event = record_with_shared(alloc, terms, guest, shared, book, op)?;
    Ok(Came::Did(event))
}
