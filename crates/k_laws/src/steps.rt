//! What each event makes of the parts of the cells and of the book.
ghost use Rattle.k_laws.specs.Follows.{BookFollows, CellsFollow, FindsTheSame, LeavesSameBook, LeavesSameCells};
ghost use Rattle.k_types.specs.Sound.{IsSound};
ghost use Rattle.k_types.specs.State.{State};
ghost use Rattle.k_types.specs.Steps.{IsPossible};
ghost use Rattle.k_types.specs.Trace.{Trace};
ghost use Rattle.k_types.specs.TraceRules.{AreLimits};
ghost use Rattle.k_types.specs.declared.event.Event.{Event};

/// What a step makes of the cells and of the book is a function of their parts: from a sound state each possible event leaves
/// each cell the part that the parts before it give, and the book likewise.
pub fn steps_show_in_the_parts()
    ensures cells { (trace : Trace) (st : State) (event : Event) → IsSound trace st → IsPossible trace st event →
        CellsFollow trace st event }
    ensures book { (trace : Trace) (st : State) (event : Event) → AreLimits trace → IsSound trace st →
        IsPossible trace st event → BookFollows trace st event }
{}

/// Locality: in two sound states where the cells that an event touches and the book have the same parts, a possible event leaves
/// these cells and the book the same parts.
pub fn steps_go_by_the_parts()
    ensures cells { (trace : Trace) (st su : State) (event : Event) → AreLimits trace → FindsTheSame trace st su event →
        LeavesSameCells trace st su event }
    ensures book { (trace : Trace) (st su : State) (event : Event) → AreLimits trace → FindsTheSame trace st su event →
        LeavesSameBook trace st su event }
{}
