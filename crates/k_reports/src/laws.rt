//! Laws of reports over all traces.
ghost use Rattle.std.specs.Prelude.{◌≡◌, List, Ok};
ghost use Rattle.k_types.specs.declared.event.Event.{Event};
ghost use Rattle.k_types.specs.Steps.{IsLegalHistory};
ghost use Rattle.k_types.specs.Complete.{IsComplete};
ghost use Rattle.k_trace.specs.Named.{NamedTrace};
ghost use Rattle.k_trace.specs.Rules.{IsTrace};
ghost use Rattle.k_text.specs.Report.{report_text};
ghost use Rattle.k_reports.specs.Begun.{IsBegun, AreAllSpelled};
ghost use Rattle.k_reports.specs.Histories.{history_of};

/// Each event of a history that is begun is one that a line can spell: it names what the trace declares, serials and counts are
/// below 2^32, and bytes and values below 2^64.
pub fn histories_can_be_spelled()
    ensures { (t : NamedTrace) → IsTrace t → AreAllSpelled t }
{}

/// The history that is read of a history's report is that history: of one that is begun, and so of one that is legal and
/// complete. So no two histories have one report.
pub fn reports_tell_their_history()
    ensures begun { (t : NamedTrace) (history : List Event) → IsTrace t → IsBegun t.trace history →
        history_of t.names (report_text t.names t.trace history) ≡ Ok history }
    ensures complete { (t : NamedTrace) (history : List Event) → IsTrace t → IsLegalHistory t.trace history →
        IsComplete t.trace history → history_of t.names (report_text t.names t.trace history) ≡ Ok history }
    ensures alone { (t : NamedTrace) (history other : List Event) → IsTrace t → IsBegun t.trace history →
        IsBegun t.trace other → report_text t.names t.trace history ≡ report_text t.names t.trace other → history ≡ other }
{}
