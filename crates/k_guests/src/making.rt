//! How the parts of a host are made.
ghost use Rattle.std.specs.Prelude.{◌≡◌, ◌↔◌, ◌*◌, ◌<◌, ◌≤◌, ◌∷◌, IfOk, IsTrue, length, replicate};
ghost use Rattle.k_types.specs.declared.names.CellPhase.TheVariants.{Idle};
ghost use Rattle.k_space.specs.Objects.{new_body};
ghost use Rattle.k_tie.specs.Values.{blank_note, empty_journal};
ghost use Rattle.k_guests.specs.Making.{AreEnough, AreFew, AreFirstParts, AreFit, CanMake, CanMakeGuest, CanMakeGuests, CanMakeHeaps, CanMakeShared, HasMadeBook, HaveMadeGuests, IsFirstGuest};
ghost use Rattle.k_guests.specs.Serving.{GuestServes, HeapsServe, KernelServes, SharedServes, basis_of};

use crate::guest::Guest;
use crate::rooms::Rooms;
use crate::terms::Terms;
use k_book::Book;
use k_heap::{CellRooms, HeapCell};
use k_kernel::KernelCell;
use k_limits::MakeError;
use k_shared::SharedCell;
use k_space::Body;
use k_tie::{JournalSeat, Note, Tie};
use k_types::{NoMemory, Pid, SharedId};
use std::alloc::Global;
use std::collections::VecDeque;

/// One more than the most events for which a host can be asked to have room.
const EVENTS_BELOW: u64 = 1 << 55;

/// One more than the most of anything else for which a host can be asked to have room.
const ROOM_BELOW: u32 = 1 << 30;

/// The parts of a host.
#[derive(Drop)]
pub struct Parts {
    /// Each process, in the place of its number.
    pub guests: Vec<Guest>,
    /// The kernel's cell.
    pub kernel: KernelCell,
    /// The cell of each shared heap, in the place of its number.
    pub shared: Vec<SharedCell>,
    /// What stands between the heaps, with the journal.
    pub book: Book,
}

/// Whether there are fewer than 2^55 events, and each of the other rooms is below 2^30.
pub(crate) fn are_few(rooms: &Rooms) -> bool
    ensures { IsTrue result ↔ AreFew rooms.now }
{
    rooms.events < EVENTS_BELOW
        && rooms.kept < ROOM_BELOW
        && rooms.tail < ROOM_BELOW
        && rooms.objects < ROOM_BELOW
        && rooms.exits < ROOM_BELOW
        && rooms.kernel_exits < ROOM_BELOW
        && rooms.entries < ROOM_BELOW
}

/// Whether so many exit items of the kernel's heap are enough for those of all processes.
pub(crate) fn has_reserve(procs: usize, exits: u32, kernel_exits: u32) -> bool
    ensures { IsTrue result ↔ (exits * procs ≤ kernel_exits) }
{
    match (exits as usize).checked_mul(procs) {
        Some(all) => all <= kernel_exits as usize,
        None => false,
    }
}

/// Whether the rooms are enough for a host of so many processes.
pub(crate) fn are_enough(procs: usize, rooms: &Rooms) -> bool
    ensures { IsTrue result ↔ AreEnough procs rooms.now }
{
    u64::from(rooms.kept) <= rooms.events
        && 1 <= rooms.tail
        && 1 <= rooms.objects
        && has_reserve(procs, rooms.exits, rooms.kernel_exits)
}

/// Whether the setup has the type, the rooms are few, no more events are kept than there can be, there is room for an
/// unpublished event and an object, and the kernel's heap has room for the exit items of all processes.
pub fn are_fit(terms: &Terms) -> bool
    ensures { IsTrue result ↔ AreFit terms.now.setup terms.now.ty terms.now.rooms }
{
    (terms.ty.0 as usize) < terms.setup.types.len()
        && are_few(&terms.rooms)
        && are_enough(terms.setup.procs.len(), &terms.rooms)
}

/// The bodies of a process, all new ones of the type.
fn make_bodies(alloc: Global, terms: &Terms) -> Result<VecDeque<Body>, NoMemory>
    requires { terms.now.ty.0 < length terms.now.setup.types }
    ensures { IfOk result (λ made. made.items ≡ replicate terms.now.bodies (new_body terms.now.setup.types terms.now.ty)) }
{
    let mut made = VecDeque::new(alloc);
    for _ in 0..terms.bodies {
        made.push_back(Body::make(alloc, &terms.setup.types, terms.ty)?)?;
    }
    Ok(made)
}

/// The note of the next cell.
fn take_note(notes: &mut VecDeque<Note>) -> Note
    requires { 0 < length notes.old.items }
    ensures { notes.old.items ≡ result ∷ notes.new.items }
{
    let Some(note) = notes.pop_front() else {
        unreachable!()
    };
    note
}

/// A process before the first event.
fn make_guest(alloc: Global, terms: &Terms, pid: Pid, note: Note) -> Result<Guest, NoMemory>
    requires { CanMakeGuest terms.now pid note }
    ensures { IfOk result (λ g. GuestServes (basis_of terms.now) note.table g × (g.cell.pid ≡ pid) × IsFirstGuest terms.now.bodies g) }
{
    let bodies = make_bodies(alloc, terms)?;
    let rooms = CellRooms {
        objects: terms.rooms.objects,
        exits: terms.rooms.exits,
        tail: terms.rooms.tail,
    };
    let cell = HeapCell::make(alloc, &terms.setup, pid, bodies, rooms, note)?;
    Ok(Guest {
        cell,
        bodies: terms.bodies,
    })
}

/// The processes before the first event.
fn make_guests(
    alloc: Global,
    terms: &Terms,
    book: &Book,
    notes: &mut VecDeque<Note>,
) -> Result<Vec<Guest>, NoMemory>
    requires { CanMakeGuests terms.now book.now notes.old.items }
    ensures { IfOk result (λ made. HaveMadeGuests terms.now book.now.journal.table made.items notes.new.items) }
{
    let mut guests = Vec::new(alloc);
    for p in 0..book.procs() {
        let note = take_note(notes);
        guests.push(make_guest(alloc, terms, Pid(p), note)?)?;
    }
    Ok(guests)
}

/// The kernel's cell before the first event.
fn make_kernel(alloc: Global, terms: &Terms, note: Note) -> Result<KernelCell, NoMemory>
    requires can { CanMake terms.now }
    requires blank { note ≡ blank_note note.table 0 }
    ensures { IfOk result (λ k. KernelServes (basis_of terms.now) note.table k × (k.value.collection ≡ Idle)) }
{
    KernelCell::make(
        alloc,
        &terms.setup,
        terms.rooms.objects,
        terms.rooms.kernel_exits,
        note,
    )
}

/// The cell of a shared heap before the first event.
fn make_heap(alloc: Global, terms: &Terms, id: SharedId, note: Note) -> Result<SharedCell, NoMemory>
    requires { CanMakeShared terms.now id note }
    ensures { IfOk result (λ s. SharedServes (basis_of terms.now) note.table s × (s.id ≡ id)) }
{
    SharedCell::make(
        alloc,
        &terms.setup,
        id,
        terms.rooms.objects,
        terms.rooms.exits,
        note,
    )
}

/// The cells of the shared heaps before the first event.
fn make_heaps(
    alloc: Global,
    terms: &Terms,
    book: &Book,
    notes: &mut VecDeque<Note>,
) -> Result<Vec<SharedCell>, NoMemory>
    requires { CanMakeHeaps terms.now book.now notes.old.items }
    ensures { IfOk result (λ made. HeapsServe (basis_of terms.now) book.now.journal.table made.items) }
{
    let mut shared = Vec::new(alloc);
    for s in 0..book.shared_heaps() {
        let note = take_note(notes);
        shared.push(make_heap(alloc, terms, SharedId(s), note)?)?;
    }
    Ok(shared)
}

/// The book before the first event. What the setup reserves fits, so memory alone can fail it.
fn make_book(alloc: Global, terms: &Terms, tie: Tie, seat: JournalSeat) -> Result<Book, NoMemory>
    requires can { CanMake terms.now }
    requires empty { seat ≡ empty_journal tie }
    ensures { IfOk result (λ b. HasMadeBook terms.now seat b) }
{
    let Rooms {
        entries,
        events,
        kept,
        ..
    } = terms.rooms;
    match Book::make(alloc, &terms.setup, entries, events, kept, tie, seat) {
        Ok(book) => Ok(book),
        Err(MakeError::ReserveFull(_)) => unreachable!(),
        Err(MakeError::NoMemory(refused)) => Err(refused),
    }
}

/// The parts of a host for these terms, before the first event. It takes all memory that the calls on them will need, but for objects
/// beside a supply: for each process its bodies, and for each heap and the book tables with the room that the terms say.
///
/// # Errors
///
/// `NoMemory` where memory runs out.
pub fn make_parts(alloc: Global, terms: &Terms) -> Result<Parts, NoMemory>
    requires { CanMake terms.now }
    ensures { IfOk result (λ parts. AreFirstParts terms.now parts) }
{
    let cells = 1 + terms.setup.procs.len() as u32 + terms.setup.shared;
    let (tie, seat, notes) = Tie::make(alloc, cells)?;
    let book = make_book(alloc, terms, tie, seat)?;
    let mut notes = VecDeque::from_vec(notes);
    let note = take_note(&mut notes);
    let kernel = make_kernel(alloc, terms, note)?;
    let guests = make_guests(alloc, terms, &book, &mut notes)?;
    let shared = make_heaps(alloc, terms, &book, &mut notes)?;
    Ok(Parts {
        guests,
        kernel,
        shared,
        book,
    })
}
