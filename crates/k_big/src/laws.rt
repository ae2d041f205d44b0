//! Laws of the definitions.
ghost use Rattle.std.specs.Prelude.{◌≡◌, ◌≤◌, ℕ, List};
ghost use Rattle.k_types.specs.declared.event.Event.{Event};
ghost use Rattle.k_types.specs.declared.op.Op.{Op};
ghost use Rattle.k_types.specs.State.{State};
ghost use Rattle.k_types.specs.Steps.{IsLegalHistory, state_after};
ghost use Rattle.k_types.specs.Trace.{Trace};
ghost use Rattle.k_types.specs.TraceRules.{KeepsRules};
ghost use Rattle.k_trace.specs.Rules.{IsTrace};
ghost use Rattle.k_big.specs.Summary.{HasSmallCharges, summary_over};
ghost use Rattle.k_big.specs.Workload.{big_trace, most_objects};

/// The trace keeps all rules of traces, up to the most objects.
pub fn big_traces_keep_the_rules()
    ensures { (objects : ℕ) → objects ≤ most_objects → IsTrace (big_trace objects) }
{}

/// After a legal history of any trace that keeps the rules the charges of all processes have a sum of 64 bits, as the summary asks.
pub fn charges_are_small()
    ensures { (trace : Trace) (history : List Event) → KeepsRules trace → IsLegalHistory trace history →
        HasSmallCharges trace (state_after trace history) }
{}

/// A summary reads nothing of a trace but its setup: traces that differ in their operations alone have the same summary of the
/// same history and state.
pub fn summaries_read_the_setup_alone()
    ensures { (objects : ℕ) (trace : Trace) (operations : List (List Op)) (order : List ℕ) (history : List Event) (st : State) →
        summary_over objects (record trace { operations = operations; order = order }) history st
        ≡ summary_over objects trace history st }
{}
