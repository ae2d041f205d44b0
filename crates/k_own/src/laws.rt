//! What is reached is what is touched.
ghost use Rattle.std.specs.Prelude.{◌≡◌, ◌∷◌, ℕ, IsFalse};
ghost use Rattle.k_agree.specs.Agreement.{BookAgrees};
ghost use Rattle.k_commit.specs.k_book.Books.{BookRecord};
ghost use Rattle.k_commit.specs.Met.{Before, HaveMet};
ghost use Rattle.k_commit.specs.k_agree.Shown.{idle_part};
ghost use Rattle.k_laws.specs.Touches.{ends_other_in, other_cells_in};
ghost use Rattle.k_types.specs.Agree.{book_shown_by};
ghost use Rattle.k_types.specs.Cells.{cells_touched};
ghost use Rattle.k_types.specs.Complete.{IsPrefixOf};
ghost use Rattle.k_types.specs.Steps.{state_after};
ghost use Rattle.k_types.specs.Trace.{Trace};
ghost use Rattle.k_types.specs.declared.event.Event.TheVariants.{Done};
ghost use Rattle.k_types.specs.declared.event.Reply.{Reply};
ghost use Rattle.k_types.specs.declared.names.Heap.TheVariants.{User};
ghost use Rattle.k_types.specs.declared.op.Op.{Op};

/// Once the process's cell has met the journal, the cells that the event of an operation touches are that cell and those that the
/// values of the cell and of the book tell: what `reach` answers.
pub fn reached_cells_are_touched()
    ensures { (before : Before) → HaveMet before → (op : Op) (said : Reply) →
        cells_touched before.trace (state_after before.trace before.book.journal.list) (Done before.cell.pid op said)
        ≡ (User before.cell.pid ∷ other_cells_in before.trace (book_shown_by before.book.value) (idle_part before.cell.value) before.cell.pid.0 op) }
{}

/// What a kill reaches changes at most once: where it ends nobody by one book, it ends nobody by the book of any later journal.
pub fn ends_are_told_once()
    ensures { (trace : Trace) (old new : BookRecord) (p q : ℕ) → BookAgrees trace old.journal old.value → BookAgrees trace new.journal new.value → IsPrefixOf old.journal.list new.journal.list →
        IsFalse (ends_other_in trace (book_shown_by old.value) p q) → IsFalse (ends_other_in trace (book_shown_by new.value) p q) }
{}
