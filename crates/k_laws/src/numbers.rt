//! How large the numbers of a history can be that does the operations of a trace.
ghost use Rattle.std.specs.Prelude.{List, length, ◌≡◌, ◌≤◌, ◌<◌};
ghost use Rattle.k_laws.specs.Counts.{operation_count};
ghost use Rattle.k_laws.specs.Fits.{DoesOperationsOf, NumbersFit};
ghost use Rattle.k_types.specs.Numbers.{numbers_below};
ghost use Rattle.k_types.specs.Steps.{IsLegalHistory, state_after};
ghost use Rattle.k_types.specs.Totals.{total};
ghost use Rattle.k_types.specs.Trace.{Trace, operations_of, process_count};
ghost use Rattle.k_types.specs.TraceRules.{AreOperations, AreLimits};
ghost use Rattle.k_types.specs.declared.event.Event.{Event};
ghost use Rattle.std.specs.List.{AllByRecursion};
ghost use Rattle.k_types.specs.Bounds.{maximum_below};

/// The operations of all processes of a trace are together those of the order of its file.
pub fn operations_are_ordered()
    ensures { (trace : Trace) → AreOperations trace →
        total (λ p. length (operations_of trace p)) (numbers_below (process_count trace)) ≡ length trace.order }
{}

/// A legal history that does first operations of a trace does at most as many as the trace has.
pub fn histories_do_the_operations_of_the_trace()
    ensures { (trace : Trace) (history : List Event) → AreOperations trace → IsLegalHistory trace history →
        DoesOperationsOf trace history → operation_count history ≤ length trace.order }
{}

/// The numbers of such a history fit: fields and numbers as in the lines of a trace, counts and serials far below 2^32, and the
/// number in each field below 2^64.
pub fn numbers_fit()
    ensures { (trace : Trace) (history : List Event) → AreOperations trace → IsLegalHistory trace history →
        DoesOperationsOf trace history → NumbersFit history (state_after trace history) }
{}

/// Each maximum after a legal history is below 2^40: the trace gives it, or a resize has set it.
pub fn maxima_fit()
    ensures { (trace : Trace) (history : List Event) → AreLimits trace → IsLegalHistory trace history →
        AllByRecursion (λ max. max < maximum_below) (state_after trace history).maxima }
{}
