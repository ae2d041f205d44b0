//! What the report of an outcome is.
ghost use Rattle.std.specs.Prelude.{◌≡◌, List};
ghost use Rattle.k_types.specs.declared.event.Event.{Event};
ghost use Rattle.k_types.specs.Steps.{state_after};
ghost use Rattle.k_types.specs.Trace.{Trace};
ghost use Rattle.k_trace.specs.Named.{DeclaredNames};
ghost use Rattle.k_text.specs.Report.{report_text, text_over};
ghost use Rattle.k_laws.specs.Setups.{setup_of};

/// The machine goes by the setup of a trace alone, and so does a report: what an outcome shows, over the setup, has the report of
/// the trace and the journal. Source: own.
#[tactic(auto, using(crate::proofs::Setups::report_over_setup))]
pub fn the_report_is_that_of_the_trace()
    ensures { (names : DeclaredNames) (trace : Trace) (history : List Event) →
        text_over names (setup_of trace) history (state_after (setup_of trace) history) ≡ report_text names trace history }
{}
