//! All heaps of a run and its book, before the first event and on one thread.
ghost use Rattle.std.specs.Prelude.{◌≡◌, IfOk};
ghost use Rattle.k_process.specs.Keeping.{BookKeeps};
ghost use Rattle.k_trace.specs.Meaning.{meaning_of};
ghost use Rattle.k_trace.specs.Rules.{IsTrace};
ghost use Rattle.k_still.specs.Opening.{CanOpenBook, CanOpenWith, IsOpened};
ghost use Rattle.k_process.specs.Worlds.{WorldValue};

use crate::beginning::open_heaps;
use crate::prepared::{Prepared, prepare};
use k_book::Book;
use k_limits::MakeError;
use k_process::Heaps;
use k_tie::{JournalSeat, Note, Tie};
use k_trace::{Names, Trace};
use k_types::{NoMemory, Pid, Setup};
use std::alloc::Global;

/// All heaps of a run before the first event, not yet behind locks, with all memory that its steps will need.
#[derive(Drop)]
pub struct FirstCells {
    /// What the trace declares, without names.
    pub setup: Setup,
    /// The names that it declares.
    pub names: Names,
    /// The process of each operation, in the order of the trace.
    pub order: Vec<Pid>,
    /// All heaps and the book. The journal is empty.
    pub heaps: Heaps,
}

/// The book before the first event, which keeps all events. What the trace reserves fits, so memory alone can fail it.
fn open_book(
    alloc: Global,
    setup: &Setup,
    exits: u32,
    events: u32,
    tie: Tie,
    seat: JournalSeat,
) -> Result<Book, NoMemory>
    ghost world: { WorldValue }
    requires { CanOpenBook world setup.now exits events tie seat }
    ensures { IfOk result (λ made. BookKeeps world.trace world.table made × (made.journal ≡ seat)) }
{
    match Book::make(alloc, setup, exits, u64::from(events), events, tie, seat) {
        Ok(book) => Ok(book),
        Err(MakeError::ReserveFull(_)) => unreachable!(),
        Err(MakeError::NoMemory(refused)) => Err(refused),
    }
}

/// The run of a trace, with what was prepared for it, over a journal with a note for each cell.
fn open_with(
    alloc: Global,
    trace: Trace,
    prepared: Prepared,
    tie: Tie,
    seat: JournalSeat,
    notes: Vec<Note>,
) -> Result<FirstCells, NoMemory>
    ghost world: { WorldValue }
    requires { CanOpenWith world trace prepared tie seat notes.items }
    ensures { IfOk result (λ first. IsOpened (meaning_of trace) first) }
{
    let Trace {
        setup,
        names,
        ops,
        order,
    } = trace;
    let book = open_book(alloc, &setup, prepared.stores, prepared.events, tie, seat)?;
    let heaps = open_heaps(alloc, &setup, ops, prepared, notes, book)?;
    Ok(FirstCells {
        setup,
        names,
        order,
        heaps,
    })
}

/// All cells and the book that a run of the trace needs, made before it begins: the bodies of all objects that operations may
/// allocate, the journal with a note for each cell, the book, and each cell with room for all that the trace can put into it. It
/// passes each operation a few times, and takes memory in proportion to the operations and to what they allocate.
///
/// # Errors
///
/// `NoMemory` where any of this finds no room.
pub fn first_cells(alloc: Global, trace: Trace) -> Result<FirstCells, NoMemory>
    requires { IsTrace (meaning_of trace) }
    ensures { IfOk result (λ first. IsOpened (meaning_of trace) first) }
{
    let prepared = prepare(alloc, &trace)?;
    let journal = Tie::make(alloc, prepared.serials.len() as u32)?;
    let (tie, seat, notes) = journal;
    open_with(alloc, trace, prepared, tie, seat, notes)
}
