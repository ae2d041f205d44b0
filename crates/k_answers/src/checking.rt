//! The command that checks a report against its trace.
ghost use Rattle.std.specs.Prelude.{◌≡◌, ◌<◌, ◌-◌, ◌^◌, length};
ghost use Rattle.k_types.specs.Bounds.{most_check_bytes};
ghost use Rattle.k_trace.specs.Meaning.{meaning_of};
ghost use Rattle.k_trace.specs.Rules.{IsTrace};
ghost use Rattle.k_status.specs.Telling.{IsUnwritten, Answers, TellsOfSource};
ghost use Rattle.k_answers.specs.Parts.{TellsOfCheck, TellsOfReport};

use crate::parting::parts_of;
use crate::texts::{write_good, write_refused};
use k_check::{Verdict, check_report};
use k_io::{ReadAllError, Sink, Source, read_all};
use k_status::{Status, want_of_memory, write_bad_trace};
use k_trace::{Trace, TraceError};
use k_types::MOST_CHECK_BYTES;
use std::alloc::Global;

/// Reads a trace and a report from the source, and writes whether the report is that of a run of the trace, or its first wrong
/// line. It reads at most one byte past the most bytes of what a check reads.
pub fn check_file<S: Source, K: Sink>(alloc: Global, src: &mut S, out: &mut K) -> Status
    ensures answered { Answers
        (TellsOfSource most_check_bytes TellsOfCheck
        (record { left = S.left src.old; rest = S.left src.new; failed_before = S.faults src.old; failed_after = S.faults src.new }))
        (record { agreed = K.Holds out.old; agrees = K.Holds out.new; failed_before = K.faults out.old; failed_after = K.faults out.new })
        result }
    ensures unwritten { IsUnwritten result → out.new ≡ out.old }
{
    match read_all(alloc, src, MOST_CHECK_BYTES) {
        Ok(bytes) => check_bytes(alloc, &bytes, out),
        Err(ReadAllError::NoMemory(refused)) => want_of_memory(refused),
        Err(ReadAllError::ReadFault) => Status::ReadFault,
    }
}

/// Checks the report that begins at the first line `report 1` against the trace that the bytes before it spell, or says where
/// these are none. Where there is no such line all bytes are the trace's, and the report is empty.
fn check_bytes<K: Sink>(alloc: Global, bytes: &[u8], out: &mut K) -> Status
    ensures answered { Answers (TellsOfCheck bytes.now)
        (record { agreed = K.Holds out.old; agrees = K.Holds out.new; failed_before = K.faults out.old; failed_after = K.faults out.new })
        result }
    ensures unwritten { IsUnwritten result → out.new ≡ out.old }
{
    match parts_of(alloc, bytes, b"report 1") {
        Ok((trace, report)) => check_against(alloc, &trace, report, out),
        Err(TraceError::NoMemory(refused)) => want_of_memory(refused),
        Err(TraceError::Bad { line, reason }) => write_bad_trace(out, line, reason),
    }
}

/// Checks the report against the trace.
fn check_against<K: Sink>(alloc: Global, trace: &Trace, report: &[u8], out: &mut K) -> Status
    requires good { IsTrace (meaning_of trace.now) }
    requires few { length report.now < 2 ^ 32 - 1 }
    ensures answered { Answers (TellsOfReport (meaning_of trace.now) report.now)
        (record { agreed = K.Holds out.old; agrees = K.Holds out.new; failed_before = K.faults out.old; failed_after = K.faults out.new })
        result }
    ensures unwritten { IsUnwritten result → out.new ≡ out.old }
{
    match check_report(alloc, trace, report) {
        Ok(Verdict::Good) => write_good(out),
        Ok(Verdict::Refused(line)) => write_refused(out, line),
        Err(refused) => want_of_memory(refused),
    }
}
