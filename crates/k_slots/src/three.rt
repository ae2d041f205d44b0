//! What a request does where three parts are lent.
ghost use Rattle.std.specs.Prelude.{Some};
ghost use Rattle.k_parts.specs.Calls.{AreNamesKept, IsAbsorbed, IsCollectedKernel, IsExited, IsOperatedWithKernel, IsOperatedWithShared};
ghost use Rattle.k_parts.specs.Parts.{AreToldApart};
ghost use Rattle.k_slots.specs.Codes.{of_happened, of_operated};
ghost use Rattle.k_slots.specs.Lending.{AreApart, CanLendThree, home_of};
ghost use Rattle.k_slots.specs.Serving.{IsServedAbsorbing, IsServedByThree, IsServedOverKernel, IsServedOverShared, IsServedWithKernel, IsServedWithShared, IsShown};

use crate::codes::{asks, mixed, of_happened, of_operated};
use crate::slots::{Part, PartSlot};
use k_embed::{Answer, Request, no_call, operation};
use k_parts::{AnyHost, BookPart, GuestPart, KernelPart, SharedPart};
use k_types::Op;

/// Does the operation where it touches the kernel's cell too.
fn operate_with_kernel(
    guest: &mut GuestPart<AnyHost>,
    kernel: &mut KernelPart<AnyHost>,
    book: &mut BookPart<AnyHost>,
    op: &Op,
) -> Answer
    requires kernel { AreToldApart guest.old.home kernel.old.home }
    requires book { AreToldApart guest.old.home book.old.home }
    ensures { IsShown of_operated (IsOperatedWithKernel op.now guest.old guest.new kernel.old kernel.new book.old book.new) result }
{
    of_operated(guest.operate_with_kernel(kernel, book, op))
}

/// Does the operation where it touches the shared heap's cell too.
fn operate_with_shared(
    guest: &mut GuestPart<AnyHost>,
    heap: &mut SharedPart<AnyHost>,
    book: &mut BookPart<AnyHost>,
    op: &Op,
) -> Answer
    requires heap { AreToldApart guest.old.home heap.old.home }
    requires book { AreToldApart guest.old.home book.old.home }
    ensures { IsShown of_operated (IsOperatedWithShared op.now guest.old guest.new heap.old heap.new book.old book.new) result }
{
    of_operated(guest.operate_with_shared(heap, book, op))
}

/// Collects the kernel's heap, as the process.
fn collect_kernel(
    guest: &mut GuestPart<AnyHost>,
    kernel: &mut KernelPart<AnyHost>,
    book: &mut BookPart<AnyHost>,
) -> Answer
    requires kernel { AreToldApart guest.old.home kernel.old.home }
    requires book { AreToldApart guest.old.home book.old.home }
    ensures { IsShown of_happened (λ came. IsCollectedKernel guest.old guest.new kernel.old kernel.new book.old book.new came × AreNamesKept guest.old.home book.old book.new came) result }
{
    of_happened(guest.collect_kernel(kernel, book))
}

/// Ends the process.
fn exit(
    guest: &mut GuestPart<AnyHost>,
    kernel: &mut KernelPart<AnyHost>,
    book: &mut BookPart<AnyHost>,
) -> Answer
    requires kernel { AreToldApart guest.old.home kernel.old.home }
    requires book { AreToldApart guest.old.home book.old.home }
    ensures { IsShown of_happened (IsExited guest.old guest.new kernel.old kernel.new book.old book.new) result }
{
    of_happened(guest.exit(kernel, book))
}

/// Absorbs the shared heap.
fn absorb(
    heap: &mut SharedPart<AnyHost>,
    kernel: &mut KernelPart<AnyHost>,
    book: &mut BookPart<AnyHost>,
) -> Answer
    requires kernel { AreToldApart heap.old.home kernel.old.home }
    requires book { AreToldApart heap.old.home book.old.home }
    ensures { IsShown of_happened (IsAbsorbed heap.old heap.new kernel.old kernel.new book.old book.new) result }
{
    of_happened(heap.absorb(kernel, book))
}

/// Does what the request asks of a process, the kernel and the book.
#[tactic(auto, using(crate::proofs::Asking::done_is, crate::proofs::Asking::other_is))]
fn serve_with_kernel(
    guest: &mut GuestPart<AnyHost>,
    kernel: &mut KernelPart<AnyHost>,
    book: &mut BookPart<AnyHost>,
    request: &Request,
) -> Answer
    requires kernel { AreToldApart guest.old.home kernel.old.home }
    requires book { AreToldApart guest.old.home book.old.home }
    ensures { IsServedWithKernel guest.old guest.new kernel.old kernel.new book.old book.new request.now result }
{
    if let Some(op) = operation(request) {
        return operate_with_kernel(guest, kernel, book, &op);
    }
    if asks(request, 17) {
        return collect_kernel(guest, kernel, book);
    }
    if asks(request, 18) {
        return exit(guest, kernel, book);
    }
    no_call()
}

/// Does what the request asks of a process, a shared heap and the book.
fn serve_with_shared(
    guest: &mut GuestPart<AnyHost>,
    heap: &mut SharedPart<AnyHost>,
    book: &mut BookPart<AnyHost>,
    request: &Request,
) -> Answer
    requires heap { AreToldApart guest.old.home heap.old.home }
    requires book { AreToldApart guest.old.home book.old.home }
    ensures { IsServedWithShared guest.old guest.new heap.old heap.new book.old book.new request.now result }
{
    match operation(request) {
        Some(op) => operate_with_shared(guest, heap, book, &op),
        None => no_call(),
    }
}

/// Does what the request asks of a shared heap, the kernel and the book.
#[tactic(auto, using(crate::proofs::Asking::done_is, crate::proofs::Asking::other_is))]
fn serve_absorbing(
    heap: &mut SharedPart<AnyHost>,
    kernel: &mut KernelPart<AnyHost>,
    book: &mut BookPart<AnyHost>,
    request: &Request,
) -> Answer
    requires kernel { AreToldApart heap.old.home kernel.old.home }
    requires book { AreToldApart heap.old.home book.old.home }
    ensures { IsServedAbsorbing heap.old heap.new kernel.old kernel.new book.old book.new request.now result }
{
    if asks(request, 19) {
        return absorb(heap, kernel, book);
    }
    no_call()
}

/// The same, where a process's part or that of a shared heap lies in the place beside the kernel's and the book's.
fn serve_over_kernel(
    place: &mut Part,
    kernel: &mut KernelPart<AnyHost>,
    book: &mut BookPart<AnyHost>,
    request: &Request,
) -> Answer
    requires kernel { AreApart (home_of place.old) (Some kernel.old.home) }
    requires book { AreApart (home_of place.old) (Some book.old.home) }
    ensures { IsServedOverKernel place.old place.new kernel.old kernel.new book.old book.new request.now result }
{
    match place {
        Part::Guest(guest) => serve_with_kernel(guest, kernel, book, request),
        Part::Shared(heap) => serve_absorbing(heap, kernel, book, request),
        _ => mixed(),
    }
}

/// The same, where a process's part lies in the place beside that of a shared heap and the book's.
fn serve_over_shared(
    place: &mut Part,
    heap: &mut SharedPart<AnyHost>,
    book: &mut BookPart<AnyHost>,
    request: &Request,
) -> Answer
    requires heap { AreApart (home_of place.old) (Some heap.old.home) }
    requires book { AreApart (home_of place.old) (Some book.old.home) }
    ensures { IsServedOverShared place.old place.new heap.old heap.new book.old book.new request.now result }
{
    match place {
        Part::Guest(guest) => serve_with_shared(guest, heap, book, request),
        _ => mixed(),
    }
}

/// Does what the request asks of the parts in the places: a process, the kernel or a shared heap, and the book; or a shared heap, the kernel
/// and the book. It answers what came of it.
pub fn serve_three(
    one: &mut PartSlot,
    two: &mut PartSlot,
    three: &mut PartSlot,
    request: Request,
) -> Answer
    requires { CanLendThree one.old two.old three.old }
    ensures { IsServedByThree one.old one.new two.old two.new three.old three.new request result }
{
    let Part::Book(book) = &mut three.part else {
        return mixed();
    };
    match &mut two.part {
        Part::Kernel(kernel) => serve_over_kernel(&mut one.part, kernel, book, &request),
        Part::Shared(heap) => serve_over_shared(&mut one.part, heap, book, &request),
        _ => mixed(),
    }
}
