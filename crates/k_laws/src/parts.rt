//! Sound states with the same parts are one state.
ghost use Rattle.std.specs.Prelude.{length, ◌<◌, ◌≡◌, ℕ};
ghost use Rattle.k_laws.specs.Parts.{SameParts, SameState};
ghost use Rattle.k_types.specs.Cells.{book_part, use_shown};
ghost use Rattle.k_types.specs.Limits.{use_of};
ghost use Rattle.k_types.specs.Sound.{IsSound};
ghost use Rattle.k_types.specs.State.{State};
ghost use Rattle.k_types.specs.Trace.{Trace};

/// The parts of all cells and of the book determine a sound state, except for the order of the lists of exit items, shares, ended
/// processes and scans. The book's part alone tells the use of each limit.
pub fn parts_determine_the_state()
    ensures uses { (trace : Trace) (st : State) (m : ℕ) → m < length trace.limits → use_shown trace (book_part trace st) m ≡ use_of trace st m }
    ensures all { (trace : Trace) (st su : State) → IsSound trace st → IsSound trace su → SameParts trace st su → SameState st su }
{}
