//! Values that show a given state.
ghost use Rattle.std.specs.Prelude.{List};
ghost use Rattle.k_agree.specs.Agreement.{BookShows, Shows};
ghost use Rattle.k_agree.specs.Showing.{book_of, cell_of};
ghost use Rattle.k_laws.specs.k_types.Cells.{Cell};
ghost use Rattle.k_laws.specs.k_types.State.{State};
ghost use Rattle.k_laws.specs.k_types.Steps.{state_after};
ghost use Rattle.k_laws.specs.k_types.Trace.{IsHeap, Trace};
ghost use Rattle.k_laws.specs.k_types.declared.event.Event.{Event};

/// What a step owes can be met: after each history each cell of the trace and the book have values that show it.
pub fn every_state_can_be_shown()
    ensures cells { (trace : Trace) (history : List Event) (cell : Cell) → IsHeap trace cell →
        Shows trace (state_after trace history) cell (cell_of trace (state_after trace history) cell) }
    ensures book { (trace : Trace) (st : State) → BookShows trace st (book_of trace st) }
{}
