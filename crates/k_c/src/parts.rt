//! The parts of a host for C: six functions over `k_slots`, which `kaffe_parts.h` declares. C gives the memory for each part, and has it
//! back. Calls over parts that have nothing in common may be made at once.
ghost use Rattle.std.specs.Prelude.{◌≡◌};
ghost use Rattle.std.specs.Borrow.{full_share, sem};
ghost use Rattle.std.specs.Ptr.{lies_at, room_at};
ghost use prog.Memory.{capped, size};
ghost use denote.Param.{layout};
ghost use Rattle.k_slots.specs.contracts.slots.PartSlot.{the_row};
ghost use Rattle.k_slots.specs.declared.slots.PartSlot.{PartSlot};
ghost use Rattle.k_slots.specs.Lending.{CanLendFour, CanLendThree, CanLendTwo};
ghost use Rattle.k_slots.specs.Opening.{IsOpenedRow, IsTaken};
ghost use Rattle.k_slots.specs.Serving.{IsServedByFour, IsServedByOne, IsServedByThree, IsServedByTwo};

use k_embed::{Answer, Request, Rooms};
use k_slots::{PartSlot, opened_row, serve_four, serve_one, serve_three, serve_two, take_next};
use std::alloc::Global;

/// What C has of a part: its address. C never looks behind it.
#[repr(C)]
pub struct KaffePart {
    unused: u8,
}

/// How many bytes C has to give for a part, and for the row of all parts.
#[unsafe(no_mangle)]
pub extern "C" fn kaffe_part_size() -> usize
    ensures { result ≡ capped (size (layout the_row)) }
{
    size_of::<PartSlot>()
}

/// Makes a host of what the text declares, with these rooms, and leaves the row of its parts where there is room for it; or a place with
/// none, and with the line and the reason why. The parts know their host by the number.
#[unsafe(no_mangle)]
pub unsafe extern "C" fn kaffe_split(
    alloc: Global,
    text: &[u8],
    ty: u32,
    bodies: u32,
    rooms: Rooms,
    number: u64,
    freed: u32,
    at: *mut KaffePart,
)
    requires* { sem 𝓛 (room_at the_row at) }
    ensures* { ∃ₛ (λ (w : PartSlot). sem 𝓛 (lies_at the_row full_share at w) ∗ ⌜ IsOpenedRow text.now (record { 0 = ty }) bodies rooms number freed w.part ⌝) }
{
    std::ptr::write(
        at as *mut PartSlot,
        opened_row(alloc, text, ty, bodies, rooms, number, freed),
    );
}

/// Takes the next part out of the row, and leaves it where there is room for it.
#[unsafe(no_mangle)]
pub unsafe extern "C" fn kaffe_part_take(row: *mut KaffePart, at: *mut KaffePart)
    ghost g: { PartSlot }
    requires* { sem 𝓛 (lies_at the_row full_share row g) ∗ sem 𝓛 (room_at the_row at) }
    ensures* { ∃ₛ (λ (w : PartSlot × PartSlot). sem 𝓛 (lies_at the_row full_share row w.0) ∗ sem 𝓛 (lies_at the_row full_share at w.1) ∗ ⌜ IsTaken g.part w.0.part w.1.part ⌝) }
{
    let slot: &mut PartSlot = unsafe { &mut *(row as *mut PartSlot) };
    std::ptr::write(at as *mut PartSlot, take_next(slot));
}

/// Does what the request asks of the part, and answers what came of it.
#[unsafe(no_mangle)]
pub unsafe extern "C" fn kaffe_call_one(part: *mut KaffePart, request: Request) -> Answer
    ghost g: { PartSlot }
    requires* { sem 𝓛 (lies_at the_row full_share part g) }
    ensures* { ∃ₛ (λ (w : PartSlot). sem 𝓛 (lies_at the_row full_share part w) ∗ ⌜ IsServedByOne g w request result ⌝) }
{
    let first: &mut PartSlot = unsafe { &mut *(part as *mut PartSlot) };
    serve_one(first, request)
}

/// Does what the request asks of the two parts, a process's and the book's, and answers what came of it.
#[unsafe(no_mangle)]
pub unsafe extern "C" fn kaffe_call_two(
    one: *mut KaffePart,
    two: *mut KaffePart,
    request: Request,
) -> Answer
    ghost g: { PartSlot × PartSlot }
    requires* { sem 𝓛 (lies_at the_row full_share one g.0) ∗ sem 𝓛 (lies_at the_row full_share two g.1) ∗ ⌜ CanLendTwo g.0 g.1 ⌝ }
    ensures* { ∃ₛ (λ (w : PartSlot × PartSlot). sem 𝓛 (lies_at the_row full_share one w.0) ∗ sem 𝓛 (lies_at the_row full_share two w.1) ∗ ⌜ IsServedByTwo g.0 w.0 g.1 w.1 request result ⌝) }
{
    let first: &mut PartSlot = unsafe { &mut *(one as *mut PartSlot) };
    let second: &mut PartSlot = unsafe { &mut *(two as *mut PartSlot) };
    serve_two(first, second, request)
}

/// Does what the request asks of the three parts, and answers what came of it: a process's, the kernel's or a shared heap's, and the book's;
/// or a shared heap's, the kernel's and the book's.
#[unsafe(no_mangle)]
pub unsafe extern "C" fn kaffe_call_three(
    one: *mut KaffePart,
    two: *mut KaffePart,
    three: *mut KaffePart,
    request: Request,
) -> Answer
    ghost g: { PartSlot × PartSlot × PartSlot }
    requires* { sem 𝓛 (lies_at the_row full_share one g.0) ∗ sem 𝓛 (lies_at the_row full_share two g.1) ∗ sem 𝓛 (lies_at the_row full_share three g.2) ∗ ⌜ CanLendThree g.0 g.1 g.2 ⌝ }
    ensures* { ∃ₛ (λ (w : PartSlot × PartSlot × PartSlot). sem 𝓛 (lies_at the_row full_share one w.0) ∗ sem 𝓛 (lies_at the_row full_share two w.1) ∗ sem 𝓛 (lies_at the_row full_share three w.2) ∗ ⌜ IsServedByThree g.0 w.0 g.1 w.1 g.2 w.2 request result ⌝) }
{
    let first: &mut PartSlot = unsafe { &mut *(one as *mut PartSlot) };
    let second: &mut PartSlot = unsafe { &mut *(two as *mut PartSlot) };
    let third: &mut PartSlot = unsafe { &mut *(three as *mut PartSlot) };
    serve_three(first, second, third, request)
}

/// Does what the request asks of the four parts, two processes', the kernel's and the book's, and answers what came of it.
#[unsafe(no_mangle)]
pub unsafe extern "C" fn kaffe_call_four(
    one: *mut KaffePart,
    two: *mut KaffePart,
    three: *mut KaffePart,
    four: *mut KaffePart,
    request: Request,
) -> Answer
    ghost g: { PartSlot × PartSlot × PartSlot × PartSlot }
    requires* { sem 𝓛 (lies_at the_row full_share one g.0) ∗ sem 𝓛 (lies_at the_row full_share two g.1) ∗ sem 𝓛 (lies_at the_row full_share three g.2) ∗ sem 𝓛 (lies_at the_row full_share four g.3) ∗ ⌜ CanLendFour g.0 g.1 g.2 g.3 ⌝ }
    ensures* { ∃ₛ (λ (w : PartSlot × PartSlot × PartSlot × PartSlot). sem 𝓛 (lies_at the_row full_share one w.0) ∗ sem 𝓛 (lies_at the_row full_share two w.1) ∗ sem 𝓛 (lies_at the_row full_share three w.2) ∗ sem 𝓛 (lies_at the_row full_share four w.3) ∗ ⌜ IsServedByFour g.0 w.0 g.1 w.1 g.2 w.2 g.3 w.3 request result ⌝) }
{
    let first: &mut PartSlot = unsafe { &mut *(one as *mut PartSlot) };
    let second: &mut PartSlot = unsafe { &mut *(two as *mut PartSlot) };
    let third: &mut PartSlot = unsafe { &mut *(three as *mut PartSlot) };
    let fourth: &mut PartSlot = unsafe { &mut *(four as *mut PartSlot) };
    serve_four(first, second, third, fourth, request)
}

/// Lets the part go, with all its memory, and leaves the room.
#[unsafe(no_mangle)]
pub unsafe extern "C" fn kaffe_part_close(at: *mut KaffePart)
    ghost g: { PartSlot }
    requires* { sem 𝓛 (lies_at the_row full_share at g) }
    ensures* { sem 𝓛 (room_at the_row at) }
{
    let_go(std::ptr::read(at as *const PartSlot));
}

fn let_go(_slot: PartSlot) {}
