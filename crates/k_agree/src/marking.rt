//! What marking reaches in a cell that agrees.
ghost use Rattle.std.specs.Prelude.{List, Some, ◌≡◌};
ghost use Rattle.k_agree.specs.Agreement.{Agrees, BookShows, Shows};
ghost use Rattle.k_agree.specs.Marking.{AreReached, begun, heap_begun_by, marked, roots_seen};
ghost use Rattle.k_tie.specs.Values.{NoteValue};
ghost use Rattle.k_laws.specs.k_types.Agree.{AreMarks, BookValue, CellValue};
ghost use Rattle.k_laws.specs.k_types.Cells.{Cell};
ghost use Rattle.k_laws.specs.k_types.Effects.{step};
ghost use Rattle.k_laws.specs.k_types.Names.{name_among};
ghost use Rattle.k_laws.specs.k_types.Sound.{IsSound};
ghost use Rattle.k_laws.specs.k_types.State.{State, scan_of};
ghost use Rattle.k_laws.specs.k_types.Trace.{Trace};
ghost use Rattle.k_laws.specs.k_types.TraceRules.{AreLimits};
ghost use Rattle.k_laws.specs.k_types.declared.event.Event.{Event};
ghost use Rattle.k_laws.specs.k_types.declared.names.CellPhase.TheVariants.{Begun};
ghost use Rattle.k_laws.specs.k_types.declared.names.Heap.{Heap};
ghost use Rattle.k_laws.specs.k_types.declared.names.Name.{Name};

/// Where an event begins a collection, the marks are right once just those objects are gray that the cell and the book tell to be
/// roots, whatever else the event changes in the cell.
pub fn begun_cells_are_gray_at_the_roots()
    ensures { (trace : Trace) (st : State) (event : Event) (heap : Heap) (book : BookValue) (before after : CellValue)
        (gray : List Name) → IsSound trace st → heap_begun_by event ≡ Some heap → BookShows trace st book →
        Shows trace st heap before → ((n : Name) → name_among n gray ≡ name_among n (roots_seen heap book before)) →
        AreMarks Begun (scan_of (step trace st event).scans heap) (begun gray after) }
{}

/// Marking needs the cell alone: it agrees once what its gray objects reach among its objects is black, and black the exit items to
/// which that refers.
pub fn marked_cells_have_the_reach()
    ensures { (trace : Trace) (cell : Cell) (note : NoteValue) (value : CellValue) (black black_exits : List Name) →
        AreLimits trace → Agrees trace cell note value → value.collection ≡ Begun → AreReached value black black_exits →
        Agrees trace cell note (marked black black_exits value) }
{}
