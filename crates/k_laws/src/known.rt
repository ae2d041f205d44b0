//! What events name.
ghost use Rattle.std.specs.Prelude.{List, length, ◌≡◌, ℕ};
ghost use Rattle.k_laws.specs.Fits.{AreKnownEvents};
ghost use Rattle.k_types.specs.Local.{AreLocal};
ghost use Rattle.k_types.specs.State.{State};
ghost use Rattle.k_types.specs.Steps.{IsLegalHistory, done_by};
ghost use Rattle.k_types.specs.Trace.{Trace};
ghost use Rattle.k_types.specs.TraceRules.{AreLimits};
ghost use Rattle.k_types.specs.declared.event.Event.{Event};

/// Each event of a legal history names what the trace declares: its process, the heaps, types and registers of its operation, the
/// object, heap or limit of its reply, and the heap of a collection or of an absorption.
pub fn events_are_known()
    ensures { (trace : Trace) (history : List Event) → AreLimits trace → IsLegalHistory trace history →
        AreKnownEvents trace history }
{}

/// A tail of a process is as long as the operations in it.
pub fn tails_are_operations_alone()
    ensures { (trace : Trace) (p : ℕ) (st : State) (tail : List Event) → AreLocal trace p st tail →
        length tail ≡ length (done_by p tail) }
{}
