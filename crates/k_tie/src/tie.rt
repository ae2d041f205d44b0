//! The table of the journal's word, and the seat and notes that are made with it.
ghost use Rattle.std.specs.Prelude.{◌≡◌, map, IfOk};
ghost use Rattle.k_types.specs.Numbers.{numbers_below};
ghost use Rattle.k_tie.specs.Values.{empty_journal, blank_note};

use crate::journal::JournalSeat;
use crate::note::Note;
use crate::steps::{GiveNote, JournalRule};
use crate::view::View;
use atomic_table::Table;
use k_types::NoMemory;
use std::alloc::Global;
use std::marker::Model;

/// The table whose word 0 is the journal's length. Contracts see which table it is: a seat, a note and a tie belong
/// together where they are of one table.
#[derive(Drop)]
pub struct Tie {
    pub(crate) table: Table<(), View, u32, JournalRule, Global>,
}

impl Model for Tie {
    ghost use Rattle.std.specs.Prelude.{◌≡◌};
    ghost use Rattle.atomic_table.specs.Seated.{TableId, table_id_coded};

    ghost Value = { TableId };

    ghost coded = { table_id_coded };

    ghost view = { λ t. t.table.shared.table_id };

    ghost invariant = { λ t. t.table.shared.table_id.words ≡ 1 };
}

impl Tie {
    /// An empty journal with every total 0, and for each of the numbers below `cells` the note of that cell, in order.
    /// This is the only call of the crate that takes memory.
    pub fn make(alloc: Global, cells: u32) -> Result<(Tie, JournalSeat, Vec<Note>), NoMemory>
        ensures journal { IfOk result (λ made. made.1 ≡ empty_journal made.0) }
        ensures notes { IfOk result (λ made. made.2.items ≡ map (blank_note made.0) (numbers_below cells)) }
    {
        let mut notes = Vec::with_capacity(alloc, cells as usize)?;
        let (table, mut seat) = Table::<(), View, u32, JournalRule, Global>::of_words(
            alloc,
            &[0],
            &cells,
        )?;
        for _ in 0..cells {
            let given = table.shared.split_seat::<GiveNote>(&mut seat);
            notes.push(Note { seat: given })?;
        }
        Ok((Tie { table }, JournalSeat { seat }, notes))
    }
}
