//! What an operation is answered and touches, by the parts of the touched cells and of the book.
ghost use Rattle.std.specs.Prelude.{IsFalse, ◌<◌, ◌≡◌, ℕ};
ghost use Rattle.k_laws.specs.Answers.{reply_in};
ghost use Rattle.k_laws.specs.Touches.{touched_in};
ghost use Rattle.k_laws.specs.Locals.{is_local_in};
ghost use Rattle.k_laws.specs.Follows.{AgreeWhereTouched, GiveTheSame, ReplyFollows};
ghost use Rattle.k_types.specs.Cells.{BookPart, Cell, CellPart, book_part, cells_touched, part};
ghost use Rattle.k_types.specs.Local.{is_local};
ghost use Rattle.k_types.specs.Names.{among};
ghost use Rattle.k_types.specs.Owners.{user};
ghost use Rattle.k_types.specs.State.{State};
ghost use Rattle.k_types.specs.Trace.{Trace, process_count};
ghost use Rattle.k_types.specs.TraceRules.{AreLimits};
ghost use Rattle.k_types.specs.declared.event.Event.TheVariants.{Done};
ghost use Rattle.k_types.specs.declared.event.Event.{Event};
ghost use Rattle.k_types.specs.declared.event.Reply.{Reply};
ghost use Rattle.k_types.specs.declared.names.Pid.{Pid};
ghost use Rattle.k_types.specs.declared.op.Op.{Op};

/// Which cells an event touches is told by the book, and for an operation by its process's cell.
pub fn touched_cells_are_told()
    ensures { (trace : Trace) (st : State) (event : Event) →
        cells_touched trace st event ≡ touched_in trace (book_part trace st) (part trace st) event }
{}

/// The functions of parts read only the parts of the cells that they say are touched, and the book's: where these are the same,
/// so are the reply of an operation, each touched cell's part after the event, and the book's.
pub fn only_touched_cells_are_read()
    ensures replies { (trace : Trace) (book : BookPart) (parts others : Cell → CellPart) (pid : Pid) (op : Op) (said : Reply) →
        AgreeWhereTouched trace book parts others (Done pid op said) →
        reply_in trace book parts pid.0 op ≡ reply_in trace book others pid.0 op }
    ensures parts { (trace : Trace) (book : BookPart) (parts others : Cell → CellPart) (event : Event) →
        AgreeWhereTouched trace book parts others event → GiveTheSame trace book parts others event }
{}

/// What an operation of a living process is answered is told by the parts of the cells that it touches and of the book.
pub fn replies_are_told()
    ensures { (trace : Trace) (st : State) (p : ℕ) (op : Op) → AreLimits trace → ReplyFollows trace st p op }
{}

/// Whether an operation of a living process is local is told by its cell alone.
pub fn local_operations_are_told()
    ensures { (trace : Trace) (st : State) (p : ℕ) (op : Op) → p < process_count trace → IsFalse (among p st.ended) →
        is_local st p op ≡ is_local_in (part trace st (user p)) p op }
{}
