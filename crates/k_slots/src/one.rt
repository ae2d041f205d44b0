//! What a request does where one part is lent.
ghost use Rattle.std.specs.Prelude.{◌≡◌, nat_lt, if◌then◌else◌, length, slice_get, Some, None};
ghost use Rattle.k_types.specs.Bounds.{register_count};
ghost use Rattle.k_types.specs.Limits.{max_of};
ghost use Rattle.k_embed.specs.Books.{book_limits};
ghost use Rattle.k_embed.specs.Codes.{of_found, of_told};
ghost use Rattle.k_embed.specs.Events.{of_taken};
ghost use Rattle.k_embed.specs.Limits.{use_at};
ghost use Rattle.k_embed.specs.Sharers.{lowest_orphan};
ghost use Rattle.k_parts.specs.Asked.{held_by};
ghost use Rattle.k_parts.specs.Calls.{IsTakenOut, IsTriedInside};
ghost use Rattle.k_slots.specs.Codes.{of_tried};
ghost use Rattle.k_slots.specs.Serving.{IsServedBook, IsServedByOne, IsServedGuest, IsShown, told_of_book, told_of_guest, told_of_kernel, told_of_limit, told_of_shared};

use crate::codes::{asks, mixed, of_tried};
use crate::slots::{Part, PartSlot};
use k_embed::{
    Answer, Request, lacking_host, no_call, number, of_held, of_listed, of_number, of_taken,
    operation, seen_asked, seen_came, unknown,
};
use k_parts::{AnyHost, BookPart, GuestPart, KernelPart, SharedPart};
use k_types::{LimitId, Name, Op, Reg};

/// Tries the operation inside the process's heap.
#[inline(always)]
fn try_inside(guest: &mut GuestPart<AnyHost>, op: &Op) -> Answer
    ensures { IsShown of_tried (IsTriedInside op.now guest.old guest.new) result }
{
    of_tried(guest.inside(op))
}

/// What the register holds.
#[tactic(auto, using(k_embed::proofs::Told::register_told))]
fn register(guest: &GuestPart<AnyHost>, reg: Reg) -> Option<Option<Name>>
    ensures { result ≡ (if nat_lt reg.0 register_count then Some (held_by reg.0 guest.now.guest) else None) }
{
    guest.register(reg)
}

/// The answer of a process's part to a question.
fn ask_guest(guest: &GuestPart<AnyHost>, request: &Request) -> Answer
    ensures { result ≡ of_told (told_of_guest guest.now request.now) }
{
    match request.call {
        32 => number(if guest.has_ended() { 0 } else { 1 }),
        33 => number(guest.heap_bytes()),
        37 => of_held(register(guest, Reg(request.reg))),
        38 => number(guest.done()),
        40 => number(u64::from(guest.bodies_left())),
        _ => no_call(),
    }
}

/// The answer of the kernel's part to a question.
fn ask_kernel(kernel: &KernelPart<AnyHost>, request: &Request) -> Answer
    ensures { result ≡ of_told (told_of_kernel kernel.now request.now) }
{
    match request.call {
        41 => number(kernel.heap_bytes()),
        _ => no_call(),
    }
}

/// The answer of the part of a shared heap to a question.
fn ask_shared(heap: &SharedPart<AnyHost>, request: &Request) -> Answer
    ensures { result ≡ of_told (told_of_shared heap.now request.now) }
{
    match request.call {
        33 => number(heap.heap_bytes()),
        _ => no_call(),
    }
}

/// The use of the limit.
#[tactic(auto, using(k_embed::proofs::Told::limit_told))]
fn use_of(book: &BookPart<AnyHost>, limit: LimitId) -> Option<u64>
    ensures { result ≡ told_of_limit book.now limit.0 (use_at (book_limits book.now.book) limit.0) }
{
    book.use_of(limit)
}

/// The maximum of the limit.
#[tactic(auto, using(k_embed::proofs::Told::limit_told))]
fn max_of(book: &BookPart<AnyHost>, limit: LimitId) -> Option<u64>
    ensures { result ≡ told_of_limit book.now limit.0 (max_of (book_limits book.now.book).rows limit.0) }
{
    book.max_of(limit)
}

/// The first orphan.
fn orphan(book: &BookPart<AnyHost>) -> Answer
    ensures { result ≡ of_found (lowest_orphan book.now.book.value.phases book.now.book.value.shares) }
{
    match book.first_orphan() {
        Some(id) => number(u64::from(id.0)),
        None => unknown(),
    }
}

/// The name of the object at that place of those that the last collection freed.
fn freed_name(book: &BookPart<AnyHost>, at: u32) -> Option<Name>
    ensures { result ≡ slice_get book.now.freed at }
{
    book.freed().get(at as usize).copied()
}

/// The answer of the book's part to a question.
fn ask_book(book: &BookPart<AnyHost>, request: &Request) -> Answer
    ensures { result ≡ of_told (told_of_book book.now request.now) }
{
    let limit = LimitId(request.at);
    match request.call {
        35 => of_number(use_of(book, limit)),
        36 => of_number(max_of(book, limit)),
        39 => number(book.len()),
        42 => orphan(book),
        44 => number(book.freed().len() as u64),
        45 => of_listed(freed_name(book, request.at)),
        46 => seen_asked(book.event(request.number)),
        47 => seen_came(book.event(request.number)),
        _ => no_call(),
    }
}

/// Takes the next event out, and answers its number.
fn take(book: &mut BookPart<AnyHost>) -> Answer
    ensures { IsShown of_taken (IsTakenOut book.old book.new) result }
{
    of_taken(book.take())
}

/// Takes the next event out, or answers a question.
#[tactic(auto, using(crate::proofs::Asking::done_is, crate::proofs::Asking::other_is))]
fn serve_book(book: &mut BookPart<AnyHost>, request: &Request) -> Answer
    ensures { IsServedBook book.old book.new request.now result }
{
    if asks(request, 20) {
        return take(book);
    }
    ask_book(book, request)
}

/// Does the operation inside the process's heap, or answers a question.
#[inline(always)]
fn serve_guest(guest: &mut GuestPart<AnyHost>, request: &Request) -> Answer
    ensures { IsServedGuest guest.old guest.new request.now result }
{
    match operation(request) {
        Some(op) => try_inside(guest, &op),
        None => ask_guest(guest, request),
    }
}

/// Does what the request asks of the part that lies in the place, and answers what came of it.
pub fn serve_one(one: &mut PartSlot, request: Request) -> Answer
    ensures { IsServedByOne one.old one.new request result }
{
    match &mut one.part {
        Part::Guest(guest) => serve_guest(guest, &request),
        Part::Kernel(kernel) => ask_kernel(kernel, &request),
        Part::Shared(heap) => ask_shared(heap, &request),
        Part::Book(book) => serve_book(book, &request),
        Part::Lacking { line, reason } => lacking_host(*line, *reason),
        Part::Row(_) | Part::Empty => mixed(),
    }
}
