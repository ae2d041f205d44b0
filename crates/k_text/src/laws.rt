//! Laws of the definitions.
ghost use Rattle.std.specs.Prelude.{◌≡◌, ℕ, List};
ghost use Rattle.k_types.specs.declared.names.Name.{Name};
ghost use Rattle.k_types.specs.declared.names.Heap.{Heap};
ghost use Rattle.k_types.specs.declared.op.Op.{Op};
ghost use Rattle.k_types.specs.declared.event.Event.{Event};
ghost use Rattle.k_types.specs.Names.{name_among};
ghost use Rattle.k_types.specs.Trace.{Trace};
ghost use Rattle.k_types.specs.State.{State, ExitItem, has_exit};
ghost use Rattle.k_trace.specs.Named.{DeclaredNames};
ghost use Rattle.k_text.specs.Report.{text_over};
ghost use Rattle.k_text.specs.Shown.{exits_of, AreRising};

/// Names that rise by segment and serial are the exits of a heap, as a report lists them, where
/// exactly the targets of its exit items are among them. So a view may keep the exit items in any
/// order. Source: own.
pub fn exits_are_told_by_their_targets()
    ensures { (exits : List ExitItem) (h : Heap) (names : List Name) → AreRising names
        → ((n : Name) → name_among n names ≡ has_exit exits h n) → names ≡ exits_of exits h }
{}

/// A report reads nothing of a trace but its setup: traces that differ in their operations alone
/// have the same report of the same history and state. Source: own.
pub fn reports_read_the_setup_alone()
    ensures { (names : DeclaredNames) (trace : Trace) (operations : List (List Op)) (order : List ℕ) (history : List Event) (st : State)
        → text_over names (record trace { operations = operations; order = order }) history st ≡ text_over names trace history st }
{}
