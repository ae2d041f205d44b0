//! What a request does where four parts are lent.
ghost use Rattle.std.specs.Prelude.{Some};
ghost use Rattle.k_parts.specs.Calls.{IsKilled};
ghost use Rattle.k_parts.specs.Parts.{AreToldApart};
ghost use Rattle.k_slots.specs.Codes.{of_happened};
ghost use Rattle.k_slots.specs.Lending.{AreApart, CanLendFour, home_of};
ghost use Rattle.k_slots.specs.Serving.{IsServedByFour, IsServedKilling, IsServedOverBoth, IsShown};

use crate::codes::{asks, mixed, of_happened};
use crate::slots::{Part, PartSlot};
use k_embed::{Answer, Request, no_call};
use k_parts::{AnyHost, BookPart, GuestPart, KernelPart};

/// Has the process kill the target.
fn kill(
    guest: &mut GuestPart<AnyHost>,
    target: &mut GuestPart<AnyHost>,
    kernel: &mut KernelPart<AnyHost>,
    book: &mut BookPart<AnyHost>,
) -> Answer
    requires target { AreToldApart guest.old.home target.old.home }
    requires kernel { AreToldApart guest.old.home kernel.old.home }
    requires book { AreToldApart guest.old.home book.old.home }
    ensures { IsShown of_happened (IsKilled guest.old guest.new target.old target.new kernel.old kernel.new book.old book.new) result }
{
    of_happened(guest.kill(target, kernel, book))
}

/// Does what the request asks of a process, another one, the kernel and the book.
#[tactic(auto, using(crate::proofs::Asking::done_is, crate::proofs::Asking::other_is))]
fn serve_killing(
    guest: &mut GuestPart<AnyHost>,
    target: &mut GuestPart<AnyHost>,
    kernel: &mut KernelPart<AnyHost>,
    book: &mut BookPart<AnyHost>,
    request: &Request,
) -> Answer
    requires target { AreToldApart guest.old.home target.old.home }
    requires kernel { AreToldApart guest.old.home kernel.old.home }
    requires book { AreToldApart guest.old.home book.old.home }
    ensures { IsServedKilling guest.old guest.new target.old target.new kernel.old kernel.new book.old book.new request.now result }
{
    if asks(request, 13) {
        return kill(guest, target, kernel, book);
    }
    no_call()
}

/// The same, where two processes' parts lie in the places beside the kernel's and the book's.
fn serve_over_both(
    place: &mut Part,
    other: &mut Part,
    kernel: &mut KernelPart<AnyHost>,
    book: &mut BookPart<AnyHost>,
    request: &Request,
) -> Answer
    requires target { AreApart (home_of place.old) (home_of other.old) }
    requires kernel { AreApart (home_of place.old) (Some kernel.old.home) }
    requires book { AreApart (home_of place.old) (Some book.old.home) }
    ensures { IsServedOverBoth place.old place.new other.old other.new kernel.old kernel.new book.old book.new request.now result }
{
    let Part::Guest(guest) = place else {
        return mixed();
    };
    match other {
        Part::Guest(target) => serve_killing(guest, target, kernel, book, request),
        _ => mixed(),
    }
}

/// Does what the request asks of the parts in the places: a process, another one that it kills, the kernel and the book. It answers what
/// came of it.
pub fn serve_four(
    one: &mut PartSlot,
    two: &mut PartSlot,
    three: &mut PartSlot,
    four: &mut PartSlot,
    request: Request,
) -> Answer
    requires { CanLendFour one.old two.old three.old four.old }
    ensures { IsServedByFour one.old one.new two.old two.new three.old three.new four.old four.new request result }
{
    let Part::Book(book) = &mut four.part else {
        return mixed();
    };
    match &mut three.part {
        Part::Kernel(kernel) => serve_over_both(
            &mut one.part,
            &mut two.part,
            kernel,
            book,
            &request,
        ),
        _ => mixed(),
    }
}
