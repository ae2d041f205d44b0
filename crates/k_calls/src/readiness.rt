//! What an operation asks beyond what a host keeps, tested when it is called.
ghost use Rattle.std.specs.Prelude.{◌≡◌, ◌↔◌, IfErr, IsTrue, OnOk};
ghost use Rattle.k_calls.specs.Doing.{HasCountRoom, HasEventsLeft, HasRoomToPublish, IsAwake, IsReady};
ghost use Rattle.k_calls.specs.Refusals.{IsNotAwake, IsNotReady, Lacks, is_plain};
ghost use Rattle.k_guests.specs.Serving.{basis_of};

use crate::errors::HostError;
use crate::ranges::is_in_range;
use k_book::Book;
use k_guests::{Guest, Terms};
use k_types::{CellPhase, Op};

/// Whether the operation has no call of its own.
#[inline(always)]
fn is_plain(op: &Op) -> bool
    ensures { result ≡ is_plain op.now }
{
    match *op {
        Op::Collect => false,
        Op::KCollect => false,
        Op::Exit => false,
        Op::New { reg: _, ty: _ } => true,
        Op::KNew { reg: _, ty: _ } => true,
        Op::SNew {
            reg: _,
            shared: _,
            ty: _,
        } => true,
        Op::Store {
            base: _,
            field: _,
            value: _,
        } => true,
        Op::Load {
            reg: _,
            base: _,
            field: _,
        } => true,
        Op::Move { reg: _, from: _ } => true,
        Op::Clear { reg: _ } => true,
        Op::Dir { reg: _ } => true,
        Op::Put {
            base: _,
            field: _,
            number: _,
        } => true,
        Op::Get { base: _, field: _ } => true,
        Op::Share { shared: _ } => true,
        Op::Freeze { shared: _, root: _ } => true,
        Op::Attach { reg: _, shared: _ } => true,
        Op::Kill { target: _ } => true,
        Op::Resize { limit: _, max: _ } => true,
    }
}

/// Whether no collection is open.
pub fn is_idle(phase: CellPhase) -> bool
    ensures { IsTrue result ↔ (phase ≡ CellPhase.Idle) }
{
    match phase {
        CellPhase::Idle => true,
        CellPhase::Begun => false,
        CellPhase::Marked => false,
    }
}

/// Whether a collection has begun and is not marked.
pub fn is_begun(phase: CellPhase) -> bool
    ensures { IsTrue result ↔ (phase ≡ CellPhase.Begun) }
{
    match phase {
        CellPhase::Idle => false,
        CellPhase::Begun => true,
        CellPhase::Marked => false,
    }
}

/// Whether a collection is marked.
pub fn is_marked(phase: CellPhase) -> bool
    ensures { IsTrue result ↔ (phase ≡ CellPhase.Marked) }
{
    match phase {
        CellPhase::Idle => false,
        CellPhase::Begun => false,
        CellPhase::Marked => true,
    }
}

/// Whether the process lives and its heap is not collected.
pub fn awake(guest: &Guest) -> Result<(), HostError>
    ensures ok { OnOk result (IsAwake guest.now) }
    ensures why { IfErr result (λ why. IsNotAwake guest.now why) }
{
    if !guest.cell.lives() {
        return Err(HostError::Ended);
    }
    if !is_idle(guest.cell.phase()) {
        return Err(HostError::Phase);
    }
    Ok(())
}

/// Whether the journal has room for what the process has unpublished and one event more.
pub fn has_events_left(terms: &Terms, guest: &Guest, book: &Book) -> bool
    ensures { IsTrue result ↔ HasEventsLeft (basis_of terms.now) guest.now book.now }
{
    book.len() + u64::from(guest.cell.tail_len()) < terms.rooms.events
}

/// Whether the journal has room for what the process has unpublished.
pub(crate) fn has_room_to_publish(terms: &Terms, guest: &Guest, book: &Book) -> bool
    ensures { IsTrue result ↔ HasRoomToPublish (basis_of terms.now) guest.now book.now }
{
    book.len() + u64::from(guest.cell.tail_len()) <= terms.rooms.events
}

/// Tells that the journal has room for what the process has unpublished and one event more.
pub fn room_left(terms: &Terms, guest: &Guest, book: &Book) -> Result<(), HostError>
    ensures ok { OnOk result (HasEventsLeft (basis_of terms.now) guest.now book.now) }
    ensures why { IfErr result (λ why. Lacks HostError.Full (HasEventsLeft (basis_of terms.now) guest.now book.now) why) }
{
    if !has_events_left(terms, guest, book) {
        return Err(HostError::Full);
    }
    Ok(())
}

/// Whether the process can do one operation more.
pub(crate) fn has_count_room(guest: &Guest) -> bool
    ensures { IsTrue result ↔ HasCountRoom guest.now }
{
    guest.cell.done() < u64::MAX
}

/// Whether the process can try the operation now.
#[inline(always)]
pub fn ready(terms: &Terms, guest: &Guest, op: &Op) -> Result<(), HostError>
    ensures ok { OnOk result (IsReady (basis_of terms.now) guest.now op.now) }
    ensures why { IfErr result (λ why. IsNotReady (basis_of terms.now) guest.now op.now why) }
{
    if !is_in_range(&terms.setup, op) {
        return Err(HostError::Unknown);
    }
    if !is_plain(op) {
        return Err(HostError::OwnCall);
    }
    awake(guest)?;
    if !has_count_room(guest) {
        return Err(HostError::Full);
    }
    Ok(())
}
