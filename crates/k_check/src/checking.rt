//! The verdict on a report.
ghost use Rattle.std.specs.Prelude.{◌≡◌, ◌<◌, ◌-◌, ◌^◌, ◌∷◌, List, codes, length, IfOk};
ghost use Rattle.k_words.specs.Words.{Text};
ghost use Rattle.k_trace.specs.Meaning.{meaning_of};
ghost use Rattle.k_trace.specs.Rules.{IsTrace};
ghost use Rattle.k_types.specs.Complete.{IsComplete};
ghost use Rattle.k_history.specs.Good.{IsReadUpTo};
ghost use Rattle.k_check.specs.Verdicts.{IsVerdict};

use crate::lines::{Stop, read_events};
use crate::verdicts::Verdict;
use crate::walking::Walk;
use k_history::MatchSink;
use k_report::report;
use k_trace::Trace;
use k_types::NoMemory;
use std::alloc::Global;

// Compares the bytes with the report of the history.
fn compare(alloc: Global, trace: &Trace, walk: Walk, bytes: &[u8]) -> Result<Verdict, NoMemory>
    requires same { walk.trace ≡ meaning_of trace.now }
    requires good { IsTrace walk.trace }
    requires few { length bytes.now < 2 ^ 32 - 1 }
    requires read { (behind : List Text) × IsReadUpTo walk.trace bytes.now walk.history (codes "graph" ∷ behind) }
    requires complete { IsComplete walk.trace.trace walk.history }
    ensures { IfOk result (λ verdict. IsVerdict (meaning_of trace.now) bytes.now verdict) }
{
    let end = walk.into_end(alloc)?;
    let mut sink = MatchSink::over(bytes);
    match report(&mut sink, &trace.names, &end) {
        Ok(()) => {}
        Err(_) => unreachable!(),
    }
    match sink.first_difference() {
        None => Ok(Verdict::Good),
        Some(line) => Ok(Verdict::Refused(line)),
    }
}

/// Whether the bytes are the report of a history that is legal and complete for the trace, and where they are not their first
/// wrong line. The report is read once up to the line `graph`, and compared once. The time goes with the bytes and with what the
/// plain machine needs for each step.
///
/// `NoMemory` comes where the machine or the events find no memory.
pub fn check_report(alloc: Global, trace: &Trace, bytes: &[u8]) -> Result<Verdict, NoMemory>
    requires good { IsTrace (meaning_of trace.now) }
    requires few { length bytes.now < 2 ^ 32 - 1 }
    ensures { IfOk result (λ verdict. IsVerdict (meaning_of trace.now) bytes.now verdict) }
{
    let mut walk = Walk::begin(alloc, trace)?;
    match read_events(alloc, &mut walk, bytes)? {
        Stop::Wrong(line) => Ok(Verdict::Refused(line)),
        Stop::Graph(line) => {
            if walk.is_complete() {
                compare(alloc, trace, walk, bytes)
            } else {
                Ok(Verdict::Refused(line))
            }
        }
    }
}
