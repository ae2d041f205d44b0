//! A step that appends one event keeps cells and book in agreement.
ghost use Rattle.std.specs.Prelude.{List, length, ◌∷◌, ◌≡◌, ◌≤◌, ℕ};
ghost use Rattle.k_agree.specs.Agreement.{Agrees, BookAgrees};
ghost use Rattle.k_agree.specs.Committing.{AreDistinctCells, cell_among, CanCommit, IsCommitted, NotedCell};
ghost use Rattle.k_agree.specs.Publishing.{PublishesAll, PublishesItsOldest};
ghost use Rattle.k_tie.specs.Values.{JournalValue, NoteValue};
ghost use Rattle.k_laws.specs.k_types.Agree.{BookValue, CellValue};
ghost use Rattle.k_laws.specs.k_types.Cells.{Cell, cells_touched, touches};
ghost use Rattle.k_laws.specs.k_types.Owners.{user};
ghost use Rattle.k_laws.specs.k_types.State.{State};
ghost use Rattle.k_laws.specs.k_types.Trace.{Trace};
ghost use Rattle.k_laws.specs.k_types.declared.event.Event.{Event};
ghost use Rattle.k_laws.specs.k_types.TraceRules.{AreLimits};
ghost use Rattle.k_laws.specs.k_types.Steps.{IsPossible};

/// An event touches one cell or two, or three where a process ends another, and none twice. So a list of the cells that it touches,
/// in the order in which the machine names them, is what `touched_cells_commit` asks for.
pub fn events_touch_few_cells()
    ensures few { (trace : Trace) (st : State) (event : Event) →
        (1 ≤ length (cells_touched trace st event)) × (length (cells_touched trace st event) ≤ 3) }
    ensures distinct { (trace : Trace) (st : State) (event : Event) → AreLimits trace → IsPossible trace st event →
        AreDistinctCells (cells_touched trace st event) }
    ensures listed { (trace : Trace) (st : State) (event : Event) (cells : List Cell) → AreLimits trace → IsPossible trace st event →
        cells_touched trace st event ≡ cells →
        AreDistinctCells cells × ((c : Cell) → cell_among c cells ≡ touches trace st event c) }
{}

/// One event leads from values that agree to values that agree, where the cells that it touches and the book show what it leaves.
/// Only the totals of these cells rise, each by one, and the other cells need nothing.
pub fn touched_cells_commit()
    ensures { (trace : Trace) (journal : JournalValue) (event : Event) (touched : List NotedCell) (book : BookValue) →
        CanCommit trace journal event touched book → IsCommitted trace journal event touched book }
{}

/// A process's cell that has met the journal publishes the oldest of its unpublished events: what was done inside the heap earlier
/// is done now in the journal.
pub fn a_tail_publishes_its_oldest()
    ensures { (trace : Trace) (journal : JournalValue) (p : ℕ) (note : NoteValue) (value : CellValue) (event : Event)
        (rest : List Event) (book : BookValue) →
        Agrees trace (user p) note value → BookAgrees trace journal book → note.list ≡ journal.list →
        value.tail ≡ event ∷ rest → PublishesItsOldest trace journal p note value event rest book }
{}

/// So it publishes them all, one after the other, and then has met the longer journal with nothing unpublished.
pub fn a_tail_publishes_whole()
    ensures { (trace : Trace) (journal : JournalValue) (p : ℕ) (note : NoteValue) (value : CellValue) (book : BookValue) →
        Agrees trace (user p) note value → BookAgrees trace journal book → note.list ≡ journal.list →
        PublishesAll trace journal p note value book }
{}
