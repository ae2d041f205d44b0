//! The cells and the book at the opening.
ghost use Rattle.std.specs.Prelude.{slice_index_or, ◌<◌, ◌≡◌, ℕ};
ghost use Rattle.atomic_table.specs.Seated.{TableId};
ghost use Rattle.k_agree.specs.Agreement.{Agrees, BookAgrees, BookShows};
ghost use Rattle.k_agree.specs.Opening.{opening_book, opening_cell};
ghost use Rattle.k_tie.specs.Values.{blank_note, empty_journal};
ghost use Rattle.k_laws.specs.k_types.Agree.{BookValue};
ghost use Rattle.k_laws.specs.k_types.Cells.{Cell};
ghost use Rattle.k_laws.specs.k_types.Owners.{owner_of};
ghost use Rattle.k_laws.specs.k_types.State.{State};
ghost use Rattle.k_laws.specs.k_types.Trace.{IsHeap, Trace, segment_count, segment_of};
ghost use Rattle.k_laws.specs.k_types.declared.names.Heap.TheVariants.{Kernel};

/// Before the first event each cell of the trace agrees with its note, and the book with the empty journal.
pub fn opened_parts_agree()
    ensures cells { (trace : Trace) (table : TableId) (cell : Cell) → IsHeap trace cell →
        Agrees trace cell (blank_note table (segment_of trace cell)) (opening_cell trace cell) }
    ensures book { (trace : Trace) (table : TableId) → BookAgrees trace (empty_journal table) (opening_book trace) }
{}

/// The homes that the book shows are the owners of the trace's segments.
pub fn homes_tell_the_owners()
    ensures { (trace : Trace) (st : State) (book : BookValue) (seg : ℕ) → BookShows trace st book → seg < segment_count trace →
        slice_index_or book.homes seg Kernel ≡ owner_of trace st seg }
{}
