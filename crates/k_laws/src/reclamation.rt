//! What is left where every process has ended.
ghost use Rattle.std.specs.Prelude.{IsTrue, List};
ghost use Rattle.k_laws.specs.Reclaimed.{IsReclaimed};
ghost use Rattle.k_types.specs.Complete.{IsComplete, all_ended};
ghost use Rattle.k_types.specs.Steps.{IsLegalHistory, state_after};
ghost use Rattle.k_types.specs.Trace.{Trace};
ghost use Rattle.k_types.specs.TraceRules.{AreLimits};
ghost use Rattle.k_types.specs.declared.event.Event.{Event};

/// Full reclamation: after a complete history in which every process has ended, the objects left are those that the directory
/// reaches, there is no exit item and no share, and nothing is charged.
///
/// Source: KaffeOS paper, on the full reclamation of memory.
pub fn ended_histories_leave_what_the_directory_reaches()
    ensures { (trace : Trace) (history : List Event) → AreLimits trace → IsLegalHistory trace history →
        IsComplete trace history → IsTrue (all_ended trace (state_after trace history)) →
        IsReclaimed trace (state_after trace history) }
{}
