//! Larger rooms for the parts of a host.
ghost use Rattle.std.specs.Prelude.{◌≡◌, ◌↔◌, ◌+◌, ◌*◌, ◌<◌, ◌≤◌, ◌++◌, ◌^◌, [], ◌∷◌, IfOk, IsTrue, OnErr, length, map, replicate, slice_get, vec_capacity};
ghost use Rattle.k_guests.specs.Growing.{AreKept, AreLarger, AreLargerRooms, AreNoLess, CanGrow, CanMove, CanMoveGuest, CanMoveIn, HaveGrown, HaveMoved, HaveStayed, IsGuestRoom, OfEach, guest_with_tables, heap_with_tables};

use crate::guest::Guest;
use crate::making::{are_enough, are_few, has_reserve};
use crate::rooms::Rooms;
use crate::segments::{grow_objects, narrow_objects};
use crate::terms::Terms;
use k_book::{Book, EntryRoom};
use k_cell::ExitRoom;
use k_kernel::KernelCell;
use k_shared::SharedCell;
use k_types::{Event, NoMemory};
use std::alloc::Global;

/// Whether each of the rooms is no less than the old one.
fn are_no_less(old: &Rooms, rooms: &Rooms) -> bool
    ensures { IsTrue result ↔ AreNoLess old.now rooms.now }
{
    old.events <= rooms.events
        && old.kept <= rooms.kept
        && old.tail <= rooms.tail
        && old.objects <= rooms.objects
        && old.exits <= rooms.exits
        && old.kernel_exits <= rooms.kernel_exits
        && old.entries <= rooms.entries
}

/// Whether there are so many more exit items of the kernel's heap as so many processes can have more, where both are no fewer.
fn keeps_reserve(procs: usize, old: &Rooms, rooms: &Rooms) -> bool
    requires { AreNoLess old.now rooms.now }
    ensures { IsTrue result ↔ (rooms.now.exits * procs + old.now.kernel_exits ≤ rooms.now.kernel_exits + old.now.exits * procs) }
{
    has_reserve(
        procs,
        rooms.exits - old.exits,
        rooms.kernel_exits - old.kernel_exits,
    )
}

/// Whether a host of so many processes can have the rooms in place of its old ones: they are few and enough, as `are_fit` tests, each is no
/// less than the old one, and the kernel's heap has so many more exit items as all processes together. Constant time.
pub fn are_larger(procs: usize, old: &Rooms, rooms: &Rooms) -> bool
    ensures { IsTrue result ↔ AreLarger procs old.now rooms.now }
{
    are_few(rooms)
        && are_enough(procs, rooms)
        && are_no_less(old, rooms)
        && keeps_reserve(procs, old, rooms)
}

/// Memory for the tables of a process that grow.
#[derive(Drop)]
pub struct GuestRoom {
    /// For its heap's exit items.
    pub exits: ExitRoom,
    /// For its unpublished events.
    pub tail: Vec<Event>,
}

/// Memory for all tables of a host that grow, beside those that it has.
#[derive(Drop)]
pub struct Larger {
    /// For each process.
    pub guests: Vec<GuestRoom>,
    /// For the exit items of the kernel's heap.
    pub kernel: ExitRoom,
    /// For the exit items of each shared heap.
    pub heaps: Vec<ExitRoom>,
    /// For the entry items.
    pub entries: EntryRoom,
}

/// Memory for the tables of one process.
fn make_guest_room(alloc: Global, rooms: &Rooms) -> Result<GuestRoom, NoMemory>
    ensures { IfOk result (λ room. IsGuestRoom rooms.now room) }
{
    let exits = ExitRoom::make(alloc, rooms.exits)?;
    let tail = Vec::with_capacity(alloc, rooms.tail as usize)?;
    Ok(GuestRoom { exits, tail })
}

/// Memory for the tables of so many processes.
fn make_guest_rooms(alloc: Global, procs: usize, rooms: &Rooms) -> Result<Vec<GuestRoom>, NoMemory>
    ensures count { IfOk result (λ made. length made.items ≡ procs) }
    ensures each { IfOk result (λ made. OfEach (IsGuestRoom rooms.now) made.items) }
{
    let mut made = Vec::new(alloc);
    for _ in 0..procs {
        made.push(make_guest_room(alloc, rooms)?)?;
    }
    Ok(made)
}

/// Memory for the exit items of so many heaps.
fn make_exit_rooms(alloc: Global, heaps: usize, exits: u32) -> Result<Vec<ExitRoom>, NoMemory>
    ensures { IfOk result (λ made. made.items ≡ replicate heaps exits) }
{
    let mut made = Vec::new(alloc);
    for _ in 0..heaps {
        made.push(ExitRoom::make(alloc, exits)?)?;
    }
    Ok(made)
}

impl Larger {
    /// Memory for the tables of so many processes and shared heaps, of the kernel and of the book with these rooms, all of it at once.
    ///
    /// # Errors
    ///
    /// `NoMemory` where memory runs out.
    pub fn make(
        alloc: Global,
        procs: usize,
        heaps: usize,
        rooms: &Rooms,
    ) -> Result<Larger, NoMemory>
        ensures { IfOk result (λ larger. AreLargerRooms procs heaps rooms.now larger) }
    {
        let kernel = ExitRoom::make(alloc, rooms.kernel_exits)?;
        let entries = EntryRoom::make(alloc, rooms.entries)?;
        let guests = make_guest_rooms(alloc, procs, rooms)?;
        let heaps = make_exit_rooms(alloc, heaps, rooms.exits)?;
        Ok(Larger {
            guests,
            kernel,
            heaps,
            entries,
        })
    }
}

/// The process has these tables from now on.
fn move_guest(guest: &mut Guest, room: GuestRoom)
    requires { CanMoveGuest guest.old room }
    ensures { guest.new ≡ guest_with_tables room.exits (vec_capacity room.tail) guest.old }
{
    let GuestRoom { exits, tail } = room;
    let _held = guest.cell.exit_count();
    guest.cell.move_exits(exits);
    guest.cell.move_tail(tail);
}

/// The last one.
fn take_guest_room(rooms: &mut Vec<GuestRoom>) -> GuestRoom
    requires { 0 < length rooms.old.items }
    ensures { rooms.old.items ≡ rooms.new.items ++ result ∷ [] }
{
    let Some(room) = rooms.pop() else {
        unreachable!()
    };
    room
}

/// Each process has tables with these rooms from now on.
fn move_guests(guests: &mut Vec<Guest>, larger: Vec<GuestRoom>, rooms: &Rooms)
    requires count { length larger.items ≡ length guests.old.items }
    requires each { OfEach (IsGuestRoom rooms.now) larger.items }
    requires few { rooms.now.tail < 2 ^ 32 }
    requires can { OfEach (CanMoveIn rooms.now) guests.old.items }
    ensures { guests.new.items ≡ map (guest_with_tables rooms.now.exits rooms.now.tail) guests.old.items }
{
    let mut larger = larger;
    for i in 0..guests.len() {
        let room = take_guest_room(&mut larger);
        move_guest(&mut guests[i], room);
    }
}

/// The shared heap has that table from now on.
fn move_heap(heap: &mut SharedCell, exits: ExitRoom)
    requires { heap.old.exit_room ≤ exits }
    ensures { heap.new ≡ heap_with_tables exits heap.old }
{
    let _held = heap.exit_count();
    heap.move_exits(exits);
}

/// The last one.
fn take_exit_room(rooms: &mut Vec<ExitRoom>) -> ExitRoom
    requires { 0 < length rooms.old.items }
    ensures { rooms.old.items ≡ rooms.new.items ++ result ∷ [] }
{
    let Some(room) = rooms.pop() else {
        unreachable!()
    };
    room
}

/// Each shared heap has a table for so many exit items from now on.
fn move_heaps(shared: &mut Vec<SharedCell>, larger: Vec<ExitRoom>, exits: u32)
    requires larger { larger.items ≡ replicate (length shared.old.items) exits }
    requires can { OfEach (λ s. s.exit_room ≤ exits) shared.old.items }
    ensures { shared.new.items ≡ map (heap_with_tables exits) shared.old.items }
{
    let mut larger = larger;
    for i in 0..shared.len() {
        let room = take_exit_room(&mut larger);
        move_heap(&mut shared[i], room);
    }
}

/// All parts have tables with these rooms from now on, but for how many of the last events can be read.
fn move_parts(
    guests: &mut Vec<Guest>,
    kernel: &mut KernelCell,
    shared: &mut Vec<SharedCell>,
    book: &mut Book,
    rooms: &Rooms,
    larger: Larger,
)
    requires larger { AreLargerRooms (length guests.old.items) (length shared.old.items) rooms.now larger }
    requires can { CanMove rooms.now guests.old.items kernel.old shared.old.items book.old }
    ensures { HaveMoved rooms.now guests.old.items guests.new.items kernel.old kernel.new shared.old.items shared.new.items book.old book.new }
{
    let Larger {
        guests: guest_rooms,
        kernel: kernel_room,
        heaps,
        entries,
    } = larger;
    move_guests(guests, guest_rooms, rooms);
    let _held = kernel.exit_count();
    kernel.move_exits(kernel_room);
    move_heaps(shared, heaps, rooms.exits);
    book.move_entries(entries);
    book.grow_events(rooms.events);
}

/// The parts of a host have these rooms from now on, larger ones. It answers how many of the last events can be read from then on, as
/// `Journal::grow_kept` of `k_book` says. It takes all memory first: for each table that of its new room beside the old one, which it
/// gives back, and for each segment that of the objects that can live beside those that could. What moves is passed once.
///
/// # Errors
///
/// `NoMemory` where memory runs out: then nothing has changed.
pub fn grow_parts(
    alloc: Global,
    terms: &Terms,
    guests: &mut Vec<Guest>,
    kernel: &mut KernelCell,
    shared: &mut Vec<SharedCell>,
    book: &mut Book,
    rooms: &Rooms,
) -> Result<u32, NoMemory>
    requires { CanGrow terms.now rooms.now guests.old.items kernel.old shared.old.items book.old }
    ensures ok { IfOk result (λ kept. HaveGrown rooms.now kept guests.old.items guests.new.items kernel.old kernel.new shared.old.items shared.new.items book.old book.new) }
    ensures kept { IfOk result (λ kept. AreKept (length book.old.journal.list) terms.now.rooms.kept rooms.now.kept kept) }
    ensures same { OnErr result (HaveStayed guests.old.items guests.new.items kernel.old kernel.new shared.old.items shared.new.items book.old book.new) }
{
    let larger = Larger::make(alloc, guests.len(), shared.len(), rooms)?;
    grow_objects(guests, kernel, shared, terms.rooms.objects, rooms.objects)?;
    match book.grow_kept(rooms.kept) {
        Ok(kept) => {
            move_parts(guests, kernel, shared, book, rooms, larger);
            Ok(kept)
        }
        Err(refused) => {
            narrow_objects(guests, kernel, shared, terms.rooms.objects);
            Err(refused)
        }
    }
}
