//! A cell's note of the journal.
use crate::view::View;
use atomic_table::Seat;
use std::marker::Model;

/// What a cell knows of the journal: the cell's number, a prefix of the journal, and a share, which is how many events of
/// the journal touch the cell. It takes no bytes. No two notes of one table have the same cell.
#[derive(Drop)]
pub struct Note {
    pub(crate) seat: Seat<(), View>,
}

impl Model for Note {
    ghost use Rattle.std.specs.Prelude.{◌≡◌, []};
    ghost use Rattle.k_tie.specs.Values.{NoteValue, note_value, note_view};

    ghost Value = { NoteValue };

    ghost view = { λ n. note_value n.seat.table_id n.seat.me.0 };

    ghost invariant = { λ n. n.seat.me ≡ (note_view (note_value n.seat.table_id n.seat.me.0), []) };
}
