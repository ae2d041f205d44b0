//! A note that meets the journal.
ghost use Rattle.k_agree.specs.Agreement.{Agrees, BookAgrees};
ghost use Rattle.k_agree.specs.Meeting.{Fits, ShowsTheJournal};
ghost use Rattle.k_tie.specs.Values.{JournalValue, NoteValue};
ghost use Rattle.k_laws.specs.k_types.Agree.{BookValue, CellValue};
ghost use Rattle.k_laws.specs.k_types.Cells.{Cell};
ghost use Rattle.k_laws.specs.k_types.Trace.{Trace};

/// A cell that agrees with its note shows the whole journal once the note fits it, in any phase of its collection and with any
/// unpublished events: nothing has touched it since.
pub fn met_cells_show_the_journal()
    ensures { (trace : Trace) (journal : JournalValue) (book : BookValue) (cell : Cell) (note : NoteValue) (value : CellValue) →
        Agrees trace cell note value → BookAgrees trace journal book → Fits journal note →
        ShowsTheJournal trace journal cell note value }
{}
