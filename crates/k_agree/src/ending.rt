//! What a cell leaves and tells at the end of a collection.
ghost use Rattle.std.specs.Prelude.{IsFalse, List, [], ◌∷◌, ◌≡◌, ℕ};
ghost use Rattle.k_agree.specs.Agreement.{BookShows, Shows};
ghost use Rattle.k_agree.specs.Ending.{HasLeft, HasSettledWith, ShowsItsEnd, TellsItsShares, dropped, dropped_exits, freed_bytes, freed_objects};
ghost use Rattle.k_laws.specs.k_types.Distinct.{AreDistinctNames};
ghost use Rattle.k_laws.specs.k_types.Agree.{BookValue, CellValue};
ghost use Rattle.k_laws.specs.k_types.Cells.{Cell};
ghost use Rattle.k_laws.specs.k_types.Effects.{after_ended};
ghost use Rattle.k_laws.specs.k_types.Names.{name_among};
ghost use Rattle.k_laws.specs.k_types.Owners.{owner_of, user};
ghost use Rattle.k_laws.specs.k_types.Sound.{IsSound};
ghost use Rattle.k_laws.specs.k_types.State.{State};
ghost use Rattle.k_laws.specs.k_types.Steps.{MayEnd};
ghost use Rattle.k_laws.specs.k_types.Trace.{Trace};
ghost use Rattle.k_laws.specs.k_types.TraceRules.{AreLimits};
ghost use Rattle.k_laws.specs.k_types.declared.names.CellPhase.TheVariants.{Marked};
ghost use Rattle.k_laws.specs.k_types.declared.names.Heap.TheVariants.{Kernel};
ghost use Rattle.k_laws.specs.k_types.declared.names.Name.{Name};

/// A marked cell knows the end of its collection: without what is not black it shows the state after it, and it has the numbers of
/// objects, bytes and exit items that go. No exit item of the cell stands twice.
pub fn marked_cells_show_their_end()
    ensures { (trace : Trace) (st : State) (cell : Cell) (value : CellValue) → IsSound trace st → Shows trace st cell value →
        value.collection ≡ Marked → AreDistinctNames value.exits → ShowsItsEnd trace st cell value }
{}

/// A process's cell and the book know which shares the end of its collection drops, from what is left after the sweep; no other
/// collection drops any. So the end is possible with the numbers that they have.
pub fn swept_cells_tell_their_shares()
    ensures user { (trace : Trace) (st : State) (p : ℕ) (value : CellValue) (book : BookValue) → IsSound trace st →
        BookShows trace st book → Shows trace st (user p) value → value.collection ≡ Marked → AreDistinctNames value.exits →
        TellsItsShares trace st p value book }
    ensures kernel { (trace : Trace) (st : State) (value : CellValue) → IsSound trace st → Shows trace st Kernel value →
        value.collection ≡ Marked → AreDistinctNames value.exits →
        MayEnd trace st Kernel (freed_objects value) (freed_bytes value) (dropped_exits value) 0 }
{}

/// The book shows the end of a collection once it has left the dropped exit items, and for a process's heap dropped the shares
/// without a way and credited their bytes with the freed ones.
pub fn the_book_shows_the_end_of_a_collection()
    ensures user { (trace : Trace) (st : State) (p : ℕ) (value : CellValue) (before after : BookValue) → AreLimits trace →
        IsSound trace st → BookShows trace st before → Shows trace st (user p) value → value.collection ≡ Marked →
        AreDistinctNames value.exits → HasSettledWith trace (owner_of trace st) p value before after →
        BookShows trace (after_ended trace (user p) st) after }
    ensures kernel { (trace : Trace) (st : State) (value : CellValue) (before after : BookValue) → IsSound trace st →
        BookShows trace st before → Shows trace st Kernel value → value.collection ≡ Marked → AreDistinctNames value.exits →
        HasLeft (dropped value) before after → after ≡ record before { entries = after.entries } →
        BookShows trace (after_ended trace Kernel st) after }
{}

/// Exit items that are left one by one are left, none of them twice.
pub fn exit_items_are_left_one_by_one()
    ensures none { (book : BookValue) → HasLeft [] book book }
    ensures more { (first last after : BookValue) (n : Name) (gone : List Name) → HasLeft (n ∷ []) first last →
        HasLeft gone last after → IsFalse (name_among n gone) → HasLeft (n ∷ gone) first after }
    ensures distinct { (value : CellValue) → AreDistinctNames value.exits → AreDistinctNames (dropped value) }
{}
