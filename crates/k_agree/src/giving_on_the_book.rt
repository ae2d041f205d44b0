//! What the book does where a cell gives itself away.
ghost use Rattle.std.specs.Prelude.{IsFalse, IsTrue, List, Option, [], slice_index_or, ◌++◌, ◌<◌, ◌∷◌, ◌≤◌, ℕ};
ghost use Rattle.k_agree.specs.Agreement.{BookAgrees, BookShows, Shows};
ghost use Rattle.k_agree.specs.GivingOnTheBook.{CanBeAbsorbed, CanBeEnded, HasAbsorbed, HasEnded, HasEntered, HasUnpinned, charged, leading_into, new_to_kernel};
ghost use Rattle.k_agree.specs.Ending.{HasLeft};
ghost use Rattle.k_laws.specs.k_types.Distinct.{AreDistinctNames};
ghost use Rattle.k_laws.specs.BookChanges.{registers_in};
ghost use Rattle.k_laws.specs.Changes.{MayAbsorb, MayExit};
ghost use Rattle.k_tie.specs.Values.{JournalValue};
ghost use Rattle.k_laws.specs.k_types.Agree.{BookValue, CellValue};
ghost use Rattle.k_laws.specs.k_types.Counted.{counted};
ghost use Rattle.k_laws.specs.k_types.Cells.{Cell, pins_of};
ghost use Rattle.k_laws.specs.k_types.Effects.{after_absorbed, after_end_of};
ghost use Rattle.k_laws.specs.k_types.Names.{heap_eq, name_among};
ghost use Rattle.k_laws.specs.k_types.Owners.{owner_of, shared, user};
ghost use Rattle.k_laws.specs.k_types.Sound.{IsSound};
ghost use Rattle.k_laws.specs.k_types.State.{State};
ghost use Rattle.k_laws.specs.k_types.Steps.{IsPossible, state_after};
ghost use Rattle.k_laws.specs.k_types.Trace.{Trace, limit_of, process_count};
ghost use Rattle.k_laws.specs.k_types.TraceRules.{AreLimits};
ghost use Rattle.k_laws.specs.k_types.declared.event.Event.TheVariants.{Absorbed, Done};
ghost use Rattle.k_laws.specs.k_types.declared.event.Reply.{Reply};
ghost use Rattle.k_laws.specs.k_types.declared.names.Heap.{Heap};
ghost use Rattle.k_laws.specs.k_types.declared.names.Heap.TheVariants.{Kernel};
ghost use Rattle.k_laws.specs.k_types.declared.names.Name.{Name};
ghost use Rattle.k_laws.specs.k_types.declared.names.Pid.{Pid};
ghost use Rattle.k_laws.specs.k_types.declared.names.SharedId.{SharedId};
ghost use Rattle.k_laws.specs.k_types.declared.op.Op.TheVariants.{Exit, Kill};
ghost use Rattle.k_laws.specs.k_types.Replies.{ends_other};

/// The book shows an absorption once it has left the exit items of the heap and the kernel's into it, and the heap is absorbed.
pub fn the_book_shows_an_absorption()
    ensures state { (trace : Trace) (st : State) (s : ℕ) (heap kernel : CellValue) (before drained after : BookValue) →
        IsSound trace st → MayAbsorb trace st s → BookShows trace st before → Shows trace st (shared s) heap →
        Shows trace st Kernel kernel → HasAbsorbed trace (owner_of trace st) s heap kernel before drained after →
        BookShows trace (after_absorbed trace s st) after }
    ensures journal { (trace : Trace) (journal : JournalValue) (s : SharedId) (heap kernel : CellValue)
        (before drained after : BookValue) → AreLimits trace → BookAgrees trace journal before →
        IsPossible trace (state_after trace journal.list) (Absorbed s) →
        Shows trace (state_after trace journal.list) (shared s.0) heap →
        Shows trace (state_after trace journal.list) Kernel kernel →
        HasAbsorbed trace (owner_of trace (state_after trace journal.list)) s.0 heap kernel before drained after →
        BookShows trace (state_after trace (journal.list ++ Absorbed s ∷ [])) after }
{}

/// The book shows the end of a process once it has left and passed on the exit items, let go the pins, credited the charge and
/// dropped the shares, and the process has ended.
pub fn the_book_shows_the_end_of_a_process()
    ensures state { (trace : Trace) (st : State) (p : ℕ) (heap kernel : CellValue) (before drained without after : BookValue) →
        AreLimits trace → IsSound trace st → MayExit trace st p → BookShows trace st before → Shows trace st (user p) heap →
        Shows trace st Kernel kernel → HasEnded trace (owner_of trace st) p heap kernel before drained without after →
        BookShows trace (after_end_of trace p st) after }
    ensures journal { (trace : Trace) (journal : JournalValue) (pid : Pid) (said : Reply) (heap kernel : CellValue)
        (before drained without after : BookValue) → AreLimits trace → BookAgrees trace journal before →
        IsPossible trace (state_after trace journal.list) (Done pid Exit said) →
        Shows trace (state_after trace journal.list) (user pid.0) heap →
        Shows trace (state_after trace journal.list) Kernel kernel →
        HasEnded trace (owner_of trace (state_after trace journal.list)) pid.0 heap kernel before drained without after →
        BookShows trace (state_after trace (journal.list ++ Done pid Exit said ∷ [])) after }
    ensures killed { (trace : Trace) (journal : JournalValue) (pid target : Pid) (said : Reply) (heap kernel : CellValue)
        (before drained without after : BookValue) → AreLimits trace → BookAgrees trace journal before →
        IsPossible trace (state_after trace journal.list) (Done pid (Kill target) said) →
        IsTrue (ends_other trace (state_after trace journal.list) pid.0 target.0) →
        Shows trace (state_after trace journal.list) (user target.0) heap →
        Shows trace (state_after trace journal.list) Kernel kernel →
        HasEnded trace (owner_of trace (state_after trace journal.list)) target.0 heap kernel before drained without after →
        BookShows trace (state_after trace (journal.list ++ Done pid (Kill target) said ∷ [])) after }
{}

/// The book has what it gives up: an exit item of a cell is counted, and the kernel's into the heap still after the drain of the
/// heap's; the pins of a process's registers are counted; and its charge is within what is charged directly at its limit.
pub fn the_book_has_what_it_gives_up()
    ensures left { (trace : Trace) (st : State) (cell : Cell) (value : CellValue) (book : BookValue) (n : Name) →
        BookShows trace st book → Shows trace st cell value → IsTrue (name_among n value.exits) → 0 < counted book.entries n }
    ensures cut { (trace : Trace) (st : State) (g : Heap) (heap kernel : CellValue) (before drained : BookValue) (n : Name) →
        IsSound trace st → BookShows trace st before → Shows trace st g heap → Shows trace st Kernel kernel →
        HasLeft heap.exits before drained → IsTrue (name_among n (leading_into (owner_of trace st) g kernel)) →
        0 < counted drained.entries n }
    ensures pins { (trace : Trace) (st : State) (p : ℕ) (value : CellValue) (book : BookValue) (n : Name) →
        p < process_count trace → BookShows trace st book → Shows trace st (user p) value →
        IsFalse (heap_eq (user p) (owner_of trace st n.seg.0)) → pins_of (registers_in value.process) n ≤ counted book.pins n }
    ensures charge { (trace : Trace) (st : State) (p : ℕ) (value : CellValue) (book : BookValue) → AreLimits trace →
        IsSound trace st → MayExit trace st p → BookShows trace st book → Shows trace st (user p) value →
        charged trace book value p ≤ slice_index_or book.direct (limit_of trace p) 0 }
{}

/// Exit items are entered one by one, none of them twice, and registers are let go one by one.
pub fn exit_items_are_passed_one_by_one()
    ensures none { (book : BookValue) → HasEntered [] book book }
    ensures more { (first last after : BookValue) (n : Name) (come : List Name) → HasEntered (n ∷ []) first last →
        HasEntered come last after → IsFalse (name_among n come) → HasEntered (n ∷ come) first after }
    ensures cut { (own : ℕ → Heap) (g : Heap) (value : CellValue) → AreDistinctNames value.exits →
        AreDistinctNames (leading_into own g value) }
    ensures passed { (own : ℕ → Heap) (heap kernel : CellValue) → AreDistinctNames heap.exits →
        AreDistinctNames (new_to_kernel own heap kernel) }
    ensures no_register { (own : ℕ → Heap) (p : ℕ) (book : BookValue) → HasUnpinned own p [] book book }
    ensures registers { (own : ℕ → Heap) (p : ℕ) (first last after : BookValue) (r : Option Name) (rest : List (Option Name)) →
        HasUnpinned own p (r ∷ []) first last → HasUnpinned own p rest last after → HasUnpinned own p (r ∷ rest) first after }
{}

/// What is asked of the book can be met: there are values that are changed so, where no exit item of a cell stands twice.
pub fn the_book_can_be_changed_so()
    ensures absorbed { (trace : Trace) (st : State) (s : ℕ) (heap kernel : CellValue) (before : BookValue) → IsSound trace st →
        BookShows trace st before → Shows trace st (shared s) heap → Shows trace st Kernel kernel → AreDistinctNames heap.exits →
        AreDistinctNames kernel.exits → CanBeAbsorbed trace (owner_of trace st) s heap kernel before }
    ensures ended { (trace : Trace) (st : State) (p : ℕ) (heap kernel : CellValue) (before : BookValue) → AreLimits trace →
        IsSound trace st → MayExit trace st p → BookShows trace st before → Shows trace st (user p) heap →
        Shows trace st Kernel kernel → AreDistinctNames heap.exits → AreDistinctNames kernel.exits →
        CanBeEnded trace (owner_of trace st) p heap kernel before }
{}
