//! The parts of the book, and how it is made.
ghost use Rattle.std.specs.Prelude.{◌≡◌, ◌<◌, ◌^◌, [], None, IfOk, IfErr, length};
ghost use Rattle.k_limits.specs.Rows.{AreRows, Explains, first_refused};
ghost use Rattle.k_book.specs.Books.{HasFewSegments, opened};

use crate::homes::{first_limits, first_tables};
use crate::keeping::Journal;
use crate::tables::EnteredTables;
use k_agree::{JournalSeat, Tie};
use k_limits::{LimitTree, MakeError};
use k_shares::ShareTable;
use k_types::{LimitId, Setup};
use std::alloc::Global;
use std::marker::Model;

/// What no heap has alone: limits, entry items, pins, owners, shares, phases, and the journal. Source: KaffeOS paper, on
/// memlimits, entry items and shared heaps; that one lock stands before all of it is own.
pub struct Book {
    pub(crate) limits: LimitTree,
    pub(crate) entered: EnteredTables,
    pub(crate) table: ShareTable,
    pub(crate) journal: Journal,
    // The limit of each process.
    pub(crate) of_process: Vec<LimitId>,
    pub(crate) ceiling: u64,
    // The last collection has begun.
    pub(crate) closed: bool,
}

impl Drop for Book {
    fn drop(self) {
        let Book {
            limits: _,
            entered: _,
            table: _,
            journal: _,
            of_process: _,
            ceiling: _,
            closed: _,
        } = self;
    }
}

impl Model for Book {
    ghost use Rattle.k_book.specs.Books.{BookRecord};

    ghost Value = { BookRecord };

    ghost use Rattle.std.specs.Prelude.{◌≡◌, length};
    ghost use Rattle.k_book.specs.Books.{book_by};

    ghost view = { λ b. book_by b.limits b.entered b.table b.journal b.of_process.items b.ceiling b.closed };

    ghost invariant = { λ b. b.table.procs ≡ length b.of_process.items };
}

impl Book {
    /// The book of that setup before the first event, with room for so many exit items and so many events, of which the last ones are
    /// kept. The error is that of the tree of limits: `ReserveFull` names the first hard row whose maximum doesn't fit on its parent's
    /// path.
    pub fn make(
        alloc: Global,
        setup: &Setup,
        exits: u32,
        events: u64,
        kept: u32,
        tie: Tie,
        seat: JournalSeat,
    ) -> Result<Book, MakeError>
        requires rows { AreRows setup.now.limits.items }
        requires few_rows { length setup.now.limits.items < 2 ^ 32 }
        requires few_segments { HasFewSegments setup.now }
        requires few_events { events < 2 ^ 55 }
        requires table { seat.table ≡ tie }
        requires empty { seat.list ≡ [] }
        ensures made { IfOk result (λ b. (b ≡ opened setup.now exits events kept seat) × (first_refused setup.now.limits.items ≡ None)) }
        ensures refused { IfErr result (λ why. Explains setup.now.limits.items why) }
    {
        let limits = LimitTree::make(alloc, &setup.limits)?;
        let entered = first_tables(alloc, setup, exits)?;
        let table = ShareTable::make(alloc, setup.procs.len() as u32, setup.shared)?;
        let of_process = first_limits(alloc, setup)?;
        let journal = Journal::make(alloc, tie, seat, events, kept)?;
        Ok(Book {
            limits,
            entered,
            table,
            journal,
            of_process,
            ceiling: setup.ceiling,
            closed: false,
        })
    }
}
