//! What a book that shows a state tells of it.
ghost use Rattle.std.specs.Prelude.{◌≡◌, ℕ, List};
ghost use Rattle.k_types.specs.declared.op.Op.{Op};
ghost use Rattle.k_types.specs.declared.setup.Setup.{Setup};
ghost use Rattle.k_types.specs.State.{State};
ghost use Rattle.k_types.specs.Trace.{Trace, trace_of};
ghost use Rattle.k_types.specs.TraceRules.{IsTree};
ghost use Rattle.atomic_table.specs.Seated.{TableId};
ghost use Rattle.k_agree.specs.k_tie.Values.{empty_journal};
ghost use Rattle.k_agree.specs.Agreement.{BookAgrees, BookShows};
ghost use Rattle.k_book.specs.Books.{BookRecord, opened};
ghost use Rattle.k_book.specs.Machine.{IsBookOf, TellsTheMachine, TellsTheLimits};

/// A book that shows a state answers owners, lives, shares, phases, bytes, counts and the lowest orphan as the machine has them.
pub fn the_book_tells_the_machine()
    ensures { (trace : Trace) (st : State) (b : BookRecord) → BookShows trace st b.value → TellsTheMachine trace st b }
{}

/// The maxima, uses and full limits of a book that shows a state are those that the machine sums up afresh.
pub fn the_books_limits_are_the_machines()
    ensures { (trace : Trace) (st : State) (b : BookRecord) → IsTree trace.limits → IsBookOf trace b → BookShows trace st b.value → TellsTheLimits trace st b }
{}

/// A book that was just made is of the trace of its setup, whatever the operations, and agrees with the empty journal.
pub fn opened_books_agree()
    ensures trace { (setup : Setup) (operations : List (List Op)) (order : List ℕ) (exits events kept : ℕ) (table : TableId) →
        IsBookOf (trace_of setup operations order) (opened setup exits events kept (empty_journal table)) }
    ensures agrees { (setup : Setup) (operations : List (List Op)) (order : List ℕ) (exits events kept : ℕ) (table : TableId) →
        BookAgrees (trace_of setup operations order) (empty_journal table) (opened setup exits events kept (empty_journal table)).value }
{}
