//! How much there can be, by the serials given.
ghost use Rattle.std.specs.Prelude.{List, Some, ◌++◌, ◌∷◌, ◌≡◌, ℕ};
ghost use Rattle.k_laws.specs.Fits.{AreAtMostTheSerials, AreEndNumbers, FitsItsType, HasFewFields};
ghost use Rattle.k_types.specs.State.{Object, object_at};
ghost use Rattle.k_types.specs.Steps.{IsLegalHistory, state_after};
ghost use Rattle.k_types.specs.Trace.{Trace};
ghost use Rattle.k_types.specs.TraceRules.{AreLimits};
ghost use Rattle.k_types.specs.declared.event.Event.{Event};
ghost use Rattle.k_types.specs.declared.event.Event.TheVariants.{Ended};
ghost use Rattle.k_types.specs.declared.names.Heap.{Heap};
ghost use Rattle.k_types.specs.declared.names.Name.{Name};

/// Each object has the fields of its type, and few.
pub fn objects_fit_their_types()
    ensures { (trace : Trace) (history : List Event) (n : Name) (o : Object) → AreLimits trace → HasFewFields trace →
        IsLegalHistory trace history → object_at (state_after trace history).objects n ≡ Some o → FitsItsType trace o }
{}

/// The objects are at most the serials given, and take at most 144 bytes for each.
pub fn objects_are_at_most_the_serials()
    ensures { (trace : Trace) (history : List Event) → AreLimits trace → HasFewFields trace → IsLegalHistory trace history →
        AreAtMostTheSerials (state_after trace history) }
{}

/// The four numbers of the end of a collection are bounded by what the history has done before: objects and bytes by the serials
/// given, exit items by the stores, shares by the operations.
pub fn ended_collections_are_bounded()
    ensures { (trace : Trace) (before rest : List Event) (h : Heap) (objects bytes exits shares : ℕ) → AreLimits trace →
        HasFewFields trace → IsLegalHistory trace (before ++ Ended h objects bytes exits shares ∷ rest) →
        AreEndNumbers before (state_after trace before) objects bytes exits shares }
{}
