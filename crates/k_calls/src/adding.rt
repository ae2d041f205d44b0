//! Whether there is room for what an operation adds to a heap, tested once it is known which cells it touches.
ghost use Rattle.std.specs.Prelude.{◌≡◌, ◌↔◌, ◌*◌, IfErr, IsFalse, IsTrue, OnOk};
ghost use Rattle.k_types.specs.Owners.{is_absorbed};
ghost use Rattle.k_calls.specs.Adding.{HasCountLeft, HasEntryRoom, HasItemLeft, HasKernelItemLeft, HasKernelRoom, HasOwnRoom, HasSharedRoom, lacking};
ghost use Rattle.k_calls.specs.Doing.{IsKernelReady};
ghost use Rattle.k_calls.specs.Refusals.{IsKernelNotReady, LacksRoom};
ghost use Rattle.k_cell.specs.Holdings.{HasObjectRoom};
ghost use Rattle.k_guests.specs.Keeping.{is_absorbed_in};
ghost use Rattle.k_guests.specs.Serving.{basis_of};
ghost use Rattle.k_shared.specs.SharedHeaps.{holdings_of};

use crate::errors::HostError;
use crate::readiness::is_idle;
use k_book::Book;
use k_guests::{Guest, Terms};
use k_kernel::KernelCell;
use k_shared::SharedCell;
use k_types::{Op, Phase};

/// What a heap lacks that has no room for what the operation adds.
fn lacking(op: &Op) -> HostError
    ensures { result ≡ lacking op.now }
{
    match *op {
        Op::New { .. } | Op::KNew { .. } | Op::SNew { .. } => HostError::Objects,
        _ => HostError::Items,
    }
}

/// Whether there can be one entry item more.
fn has_entry_room(terms: &Terms, book: &Book) -> bool
    ensures { IsTrue result ↔ HasEntryRoom (basis_of terms.now) book.now }
{
    book.entry_count() < terms.rooms.entries
}

/// Whether a heap of a process, or a shared one, that has so many exit items can have one more.
fn has_item_left(terms: &Terms, exits: u32, book: &Book) -> bool
    ensures { IsTrue result ↔ HasItemLeft (basis_of terms.now) exits book.now }
{
    exits < terms.rooms.exits && has_entry_room(terms, book)
}

/// How many exit items of the kernel's heap are kept back for so many processes.
fn kept_back(exits: u32, living: u32) -> u64
    ensures value { result ≡ exits * living }
{
    u64::from(exits) * u64::from(living)
}

/// Whether the kernel's heap can have one exit item more beside those that are kept back.
fn has_kernel_item_left(terms: &Terms, kernel: &KernelCell, book: &Book) -> bool
    ensures { IsTrue result ↔ HasKernelItemLeft (basis_of terms.now) kernel.now book.now }
{
    let kept = kept_back(terms.rooms.exits, book.living());
    let all = u64::from(terms.rooms.kernel_exits);
    kept < all && u64::from(kernel.exit_count()) < all - kept && has_entry_room(terms, book)
}

/// Whether one object more can be counted.
fn has_count_left(book: &Book) -> bool
    ensures { IsTrue result ↔ HasCountLeft book.now }
{
    book.objects() < u64::from(u32::MAX)
}

/// Whether the process's heap has room for what an operation adds that touches its cell alone.
fn has_own_room(terms: &Terms, guest: &Guest, book: &Book, op: &Op) -> bool
    ensures { IsTrue result ↔ HasOwnRoom (basis_of terms.now) guest.now book.now op.now }
{
    match *op {
        Op::New { .. } => guest.cell.has_object_room() && has_count_left(book),
        Op::Store { .. } => has_item_left(terms, guest.cell.exit_count(), book),
        _ => true,
    }
}

/// Tells that the process's heap has room for what an operation adds that touches its cell alone.
pub(crate) fn own_room(terms: &Terms, guest: &Guest, book: &Book, op: &Op) -> Result<(), HostError>
    ensures ok { OnOk result (HasOwnRoom (basis_of terms.now) guest.now book.now op.now) }
    ensures why { IfErr result (λ why. LacksRoom op.now (HasOwnRoom (basis_of terms.now) guest.now book.now op.now) why) }
{
    if !has_own_room(terms, guest, book, op) {
        return Err(lacking(op));
    }
    Ok(())
}

/// Whether the kernel's heap has room for what an operation adds that touches its cell.
fn has_kernel_room(terms: &Terms, kernel: &KernelCell, book: &Book, op: &Op) -> bool
    ensures { IsTrue result ↔ HasKernelRoom (basis_of terms.now) kernel.now book.now op.now }
{
    match *op {
        Op::KNew { .. } => kernel.has_object_room() && has_count_left(book),
        Op::Store { .. } => has_kernel_item_left(terms, kernel, book),
        _ => true,
    }
}

/// Whether the kernel's heap is not collected and has room for what the operation adds, which touches its cell.
pub(crate) fn kernel_ready(
    terms: &Terms,
    kernel: &KernelCell,
    book: &Book,
    op: &Op,
) -> Result<(), HostError>
    ensures ok { OnOk result (IsKernelReady (basis_of terms.now) kernel.now book.now op.now) }
    ensures why { IfErr result (λ why. IsKernelNotReady (basis_of terms.now) kernel.now book.now op.now why) }
{
    if !is_idle(kernel.phase()) {
        return Err(HostError::Phase);
    }
    if !has_kernel_room(terms, kernel, book, op) {
        return Err(lacking(op));
    }
    Ok(())
}

/// Whether the heap is absorbed.
fn is_absorbed(phase: Phase) -> bool
    ensures { result ≡ is_absorbed phase }
{
    match phase {
        Phase::Absorbed => true,
        Phase::Unmade | Phase::Populating(_) | Phase::Frozen(_) => false,
    }
}

/// Whether the shared heap has room for one object more, or is absorbed.
fn has_shared_object_room(shared: &SharedCell) -> bool
    ensures { IsTrue result ↔ (IsFalse (is_absorbed_in shared.now.value.phase) → HasObjectRoom (holdings_of shared.now) shared.now.seg.0) }
{
    is_absorbed(shared.phase()) || shared.has_object_room()
}

/// Whether the shared heap has room for what an operation adds that touches its cell.
fn has_shared_room(terms: &Terms, shared: &SharedCell, book: &Book, op: &Op) -> bool
    ensures { IsTrue result ↔ HasSharedRoom (basis_of terms.now) shared.now book.now op.now }
{
    match *op {
        Op::SNew { .. } => has_shared_object_room(shared) && has_count_left(book),
        Op::Store { .. } => has_item_left(terms, shared.exit_count(), book),
        _ => true,
    }
}

/// Tells that the shared heap has room for what an operation adds that touches its cell.
pub(crate) fn shared_room(
    terms: &Terms,
    shared: &SharedCell,
    book: &Book,
    op: &Op,
) -> Result<(), HostError>
    ensures ok { OnOk result (HasSharedRoom (basis_of terms.now) shared.now book.now op.now) }
    ensures why { IfErr result (λ why. LacksRoom op.now (HasSharedRoom (basis_of terms.now) shared.now book.now op.now) why) }
{
    if !has_shared_room(terms, shared, book, op) {
        return Err(lacking(op));
    }
    Ok(())
}
