//! Values that are changed as an operation asks show the state to which it leads, and the operation can be appended.
ghost use Rattle.std.specs.Prelude.{[], ◌∷◌};
ghost use Rattle.k_agree.specs.Committing.{CanCommit};
ghost use Rattle.k_agree.specs.Moves.{CommitsAlone, CommitsBoth, HasMoved, HasMovedBoth, MovesAlone, MovesBoth, noted};
ghost use Rattle.k_tie.specs.Values.{JournalValue, NoteValue};
ghost use Rattle.k_types.specs.Agree.{BookValue, CellValue};
ghost use Rattle.k_types.specs.Cells.{Cell};
ghost use Rattle.k_types.specs.Sound.{IsSound};
ghost use Rattle.k_types.specs.State.{State};
ghost use Rattle.k_types.specs.Trace.{Trace};
ghost use Rattle.k_types.specs.TraceRules.{AreLimits};
ghost use Rattle.k_types.specs.declared.event.Event.TheVariants.{Done};
ghost use Rattle.k_types.specs.declared.event.Reply.{Reply};
ghost use Rattle.k_types.specs.declared.names.Heap.TheVariants.{User};
ghost use Rattle.k_types.specs.declared.names.Pid.{Pid};
ghost use Rattle.k_types.specs.declared.op.Op.{Op};

/// An operation that touches its process's own cell alone is possible where the cell and the book show a sound state, with the
/// reply that their parts give. Where their values are changed as it asks, they show the state to which it leads.
pub fn operations_alone_move()
    ensures { (trace : Trace) (st : State) → AreLimits trace → IsSound trace st → (pid : Pid) (op : Op) (said : Reply) (v w : CellValue)
        (b k : BookValue) → MovesAlone trace st pid op said v w b k → HasMoved trace st pid op said w k }
{}

/// The same of an operation that touches one more cell.
pub fn operations_of_two_cells_move()
    ensures { (trace : Trace) (st : State) → AreLimits trace → IsSound trace st → (pid : Pid) (op : Op) (said : Reply) (cell : Cell)
        (v w u x : CellValue) (b k : BookValue) → MovesBoth trace st pid op said cell v w u x b k → HasMovedBoth trace st pid op said cell w x k }
{}

/// So its event can be appended, where the cells have met the journal.
pub fn moved_operations_commit()
    ensures alone { (trace : Trace) (journal : JournalValue) (note : NoteValue) (pid : Pid) (op : Op) (said : Reply) (v w : CellValue)
        (b k : BookValue) → CommitsAlone trace journal note pid op said v w b k →
        CanCommit trace journal (Done pid op said) (noted (User pid) note w ∷ []) k }
    ensures both { (trace : Trace) (journal : JournalValue) (note other_note : NoteValue) (pid : Pid) (op : Op) (said : Reply)
        (cell : Cell) (v w u x : CellValue) (b k : BookValue) → CommitsBoth trace journal note other_note pid op said cell v w u x b k →
        CanCommit trace journal (Done pid op said) (noted (User pid) note w ∷ noted cell other_note x ∷ []) k }
{}
