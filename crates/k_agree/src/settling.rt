//! What agrees where the run is over.
ghost use Rattle.k_agree.specs.Agreement.{Agrees, BookAgrees};
ghost use Rattle.k_agree.specs.Settled.{IsOver};
ghost use Rattle.k_tie.specs.Values.{JournalValue, NoteValue};
ghost use Rattle.k_laws.specs.k_types.Agree.{BookValue, CellValue};
ghost use Rattle.k_laws.specs.k_types.Cells.{Cell};
ghost use Rattle.k_laws.specs.k_types.Complete.{IsComplete};
ghost use Rattle.std.specs.Prelude.{◌++◌};
ghost use Rattle.k_laws.specs.k_types.Sound.{IsSound};
ghost use Rattle.k_laws.specs.k_types.Steps.{state_after};
ghost use Rattle.k_laws.specs.k_types.Trace.{Trace};
ghost use Rattle.k_laws.specs.k_types.TraceRules.{AreLimits};

/// What a cell knows under its own lock is a sound state, and so is what the book knows.
pub fn agreement_is_with_sound_states()
    ensures cells { (trace : Trace) (cell : Cell) (note : NoteValue) (value : CellValue) → AreLimits trace →
        Agrees trace cell note value → IsSound trace (state_after trace (note.list ++ value.tail)) }
    ensures book { (trace : Trace) (journal : JournalValue) (book : BookValue) → AreLimits trace →
        BookAgrees trace journal book → IsSound trace (state_after trace journal.list) }
{}

/// Where all cells are settled and the book tells no orphan, the journal is a complete history of the trace.
pub fn settled_parts_are_the_end()
    ensures { (trace : Trace) (journal : JournalValue) (book : BookValue) → AreLimits trace → IsOver trace journal book →
        IsComplete trace journal.list }
{}
