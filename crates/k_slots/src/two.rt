//! What a request does where a process and the book are lent.
ghost use Rattle.std.specs.Prelude.{◌≡◌, Some};
ghost use Rattle.k_embed.specs.Codes.{of_told};
ghost use Rattle.k_parts.specs.Calls.{AreNamesKept, IsCollected, IsOperated, IsPublished};
ghost use Rattle.k_parts.specs.Parts.{AreToldApart};
ghost use Rattle.k_parts.specs.Told.{charge_in};
ghost use Rattle.k_slots.specs.Codes.{of_charge, of_done, of_happened, of_operated};
ghost use Rattle.k_slots.specs.Lending.{AreApart, CanLendTwo, home_of};
ghost use Rattle.k_slots.specs.Serving.{IsServedByTwo, IsServedOverBook, IsServedWithBook, IsShown, told_of_both};

use crate::codes::{asks, mixed, of_charge, of_done, of_happened, of_operated};
use crate::slots::{Part, PartSlot};
use k_embed::{Answer, Request, no_call, operation};
use k_parts::{AnyHost, BookPart, GuestPart};
use k_types::Op;

/// Does the operation where it touches the process's own cell alone.
fn operate(guest: &mut GuestPart<AnyHost>, book: &mut BookPart<AnyHost>, op: &Op) -> Answer
    requires { AreToldApart guest.old.home book.old.home }
    ensures { IsShown of_operated (IsOperated op.now guest.old guest.new book.old book.new) result }
{
    of_operated(guest.operate(book, op))
}

/// Collects the process's heap.
fn collect(guest: &mut GuestPart<AnyHost>, book: &mut BookPart<AnyHost>) -> Answer
    requires { AreToldApart guest.old.home book.old.home }
    ensures { IsShown of_happened (λ came. IsCollected guest.old guest.new book.old book.new came × AreNamesKept guest.old.home book.old book.new came) result }
{
    of_happened(guest.collect(book))
}

/// Publishes what the process did inside its heap.
fn publish(guest: &mut GuestPart<AnyHost>, book: &mut BookPart<AnyHost>) -> Answer
    requires { AreToldApart guest.old.home book.old.home }
    ensures { IsShown of_done (IsPublished guest.old guest.new book.old book.new) result }
{
    of_done(guest.publish(book))
}

/// What the process is charged.
fn charge(guest: &GuestPart<AnyHost>, book: &BookPart<AnyHost>) -> Answer
    requires { AreToldApart guest.now.home book.now.home }
    ensures { result ≡ of_charge (charge_in guest.now book.now) }
{
    of_charge(guest.charge(book))
}

/// The answer of a process's part and the book's to a question.
fn ask_both(guest: &GuestPart<AnyHost>, book: &BookPart<AnyHost>, request: &Request) -> Answer
    requires { AreToldApart guest.now.home book.now.home }
    ensures { result ≡ of_told (told_of_both guest.now book.now request.now) }
{
    match request.call {
        34 => charge(guest, book),
        _ => no_call(),
    }
}

/// Does what the request asks of a process and the book.
#[tactic(auto, using(crate::proofs::Asking::done_is, crate::proofs::Asking::other_is))]
fn serve_with_book(
    guest: &mut GuestPart<AnyHost>,
    book: &mut BookPart<AnyHost>,
    request: &Request,
) -> Answer
    requires { AreToldApart guest.old.home book.old.home }
    ensures { IsServedWithBook guest.old guest.new book.old book.new request.now result }
{
    if let Some(op) = operation(request) {
        return operate(guest, book, &op);
    }
    if asks(request, 16) {
        return collect(guest, book);
    }
    if asks(request, 21) {
        return publish(guest, book);
    }
    ask_both(guest, book, request)
}

/// The same, where a process's part lies in the place.
fn serve_over_book(place: &mut Part, book: &mut BookPart<AnyHost>, request: &Request) -> Answer
    requires { AreApart (home_of place.old) (Some book.old.home) }
    ensures { IsServedOverBook place.old place.new book.old book.new request.now result }
{
    match place {
        Part::Guest(guest) => serve_with_book(guest, book, request),
        _ => mixed(),
    }
}

/// Does what the request asks of the process's part in the first place and the book's in the second, and answers what came of it.
pub fn serve_two(one: &mut PartSlot, two: &mut PartSlot, request: Request) -> Answer
    requires { CanLendTwo one.old two.old }
    ensures { IsServedByTwo one.old one.new two.old two.new request result }
{
    match &mut two.part {
        Part::Book(book) => serve_over_book(&mut one.part, book, &request),
        _ => mixed(),
    }
}
