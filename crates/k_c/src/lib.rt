//! A host for C: seven functions over `k_embed`, which `kaffe.h` declares. C gives the memory for a host, and has it back. The parts of a host
//! have functions of their own.
#![tactic(auto)]

mod parts;

ghost use Rattle.std.specs.Prelude.{◌≡◌};
ghost use Rattle.std.specs.Borrow.{full_share, sem};
ghost use Rattle.std.specs.Ptr.{lies_at, room_at};
ghost use prog.Memory.{capped, size};
ghost use denote.Param.{layout};
ghost use Rattle.k_embed.specs.contracts.serving.Slot.{the_row};
ghost use Rattle.k_embed.specs.declared.serving.Slot.{Slot};
ghost use Rattle.k_embed.specs.Asked.{AreRoomsFor};
ghost use Rattle.k_embed.specs.Growing.{IsGrownIn};
ghost use Rattle.k_embed.specs.Served.{IsOpened, IsRead, IsServed};

use k_embed::{Answer, Request, Rooms, Slot, grow, opened, read, rooms_for, serve};
pub use parts::{
    KaffePart, kaffe_call_four, kaffe_call_one, kaffe_call_three, kaffe_call_two, kaffe_part_close,
    kaffe_part_size, kaffe_part_take, kaffe_split,
};
use std::alloc::Global;

/// What C has of a host: its address. C never looks behind it.
#[repr(C)]
pub struct KaffeHost {
    unused: u8,
}

/// How many bytes C has to give for a host.
#[unsafe(no_mangle)]
pub extern "C" fn kaffe_size() -> usize
    ensures { result ≡ capped (size (layout the_row)) }
{
    size_of::<Slot>()
}

/// The rooms for so many living objects in each heap of so many processes and shared heaps, where no event is kept.
#[unsafe(no_mangle)]
pub extern "C" fn kaffe_rooms_for(objects: u32, processes: u32, heaps: u32) -> Rooms
    ensures { AreRoomsFor objects processes heaps result }
{
    rooms_for(objects, processes, heaps)
}

/// Makes a host where there is room for it, of what the text declares, with these rooms; or a place with none, and with the line and the reason why.
#[unsafe(no_mangle)]
pub unsafe extern "C" fn kaffe_open(
    alloc: Global,
    text: &[u8],
    ty: u32,
    bodies: u32,
    rooms: Rooms,
    at: *mut KaffeHost,
)
    requires* { sem 𝓛 (room_at the_row at) }
    ensures* { ∃ₛ (λ (w : Slot). sem 𝓛 (lies_at the_row full_share at w) ∗ ⌜ IsOpened text.now ty bodies rooms w ⌝) }
{
    std::ptr::write(at as *mut Slot, opened(alloc, text, ty, bodies, rooms));
}

/// Does what the request asks of the host, and answers what came of it.
#[unsafe(no_mangle)]
pub unsafe extern "C" fn kaffe_call(at: *mut KaffeHost, request: Request) -> Answer
    ghost g: { Slot }
    requires* { sem 𝓛 (lies_at the_row full_share at g) }
    ensures* { ∃ₛ (λ (w : Slot). sem 𝓛 (lies_at the_row full_share at w) ∗ ⌜ IsServed g w request result ⌝) }
{
    let slot: &mut Slot = unsafe { &mut *(at as *mut Slot) };
    serve_at(slot, request)
}

/// Gives the host these rooms, if they are larger ones and there is memory, and answers how many of the last events can be read now; or why it
/// has those that it had.
#[unsafe(no_mangle)]
pub unsafe extern "C" fn kaffe_grow(at: *mut KaffeHost, rooms: Rooms) -> Answer
    ghost g: { Slot }
    requires* { sem 𝓛 (lies_at the_row full_share at g) }
    ensures* { ∃ₛ (λ (w : Slot). sem 𝓛 (lies_at the_row full_share at w) ∗ ⌜ IsGrownIn g w rooms result ⌝) }
{
    let slot: &mut Slot = unsafe { &mut *(at as *mut Slot) };
    grow_at(slot, rooms)
}

/// Copies bytes of a text that was printed last, of the trace where `text` is 0 and of the report where it is 1: from that place on as many as
/// there are and as the array has room for. It answers how many, and changes nothing of the host.
#[unsafe(no_mangle)]
pub unsafe extern "C" fn kaffe_read(
    at: *mut KaffeHost,
    text: u32,
    from: usize,
    into: &mut [u8],
) -> usize
    ghost g: { Slot }
    requires* { sem 𝓛 (lies_at the_row full_share at g) }
    ensures* { sem 𝓛 (lies_at the_row full_share at g) ∗ ⌜ IsRead g text from into.old into.new result ⌝ }
{
    let slot: &mut Slot = unsafe { &mut *(at as *mut Slot) };
    read_at(slot, text, from, into)
}

/// Lets the host go, with all its memory, and leaves the room.
#[unsafe(no_mangle)]
pub unsafe extern "C" fn kaffe_close(at: *mut KaffeHost)
    ghost g: { Slot }
    requires* { sem 𝓛 (lies_at the_row full_share at g) }
    ensures* { sem 𝓛 (room_at the_row at) }
{
    let_go(std::ptr::read(at as *const Slot));
}

fn let_go(_slot: Slot) {}

fn serve_at(slot: &mut Slot, request: Request) -> Answer
    ensures { IsServed slot.old slot.new request result }
{
    serve(slot, &request)
}

fn grow_at(slot: &mut Slot, rooms: Rooms) -> Answer
    ensures { IsGrownIn slot.old slot.new rooms result }
{
    grow(slot, rooms)
}

fn read_at(slot: &mut Slot, text: u32, from: usize, into: &mut [u8]) -> usize
    ensures { (slot.new ≡ slot.old) × IsRead slot.old text from into.old into.new result }
{
    read(slot, text, from, into)
}
