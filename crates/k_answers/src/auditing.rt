//! The command that audits a snapshot over the header of a trace.
ghost use Rattle.std.specs.Prelude.{◌≡◌, ◌<◌, ◌-◌, ◌^◌, length};
ghost use Rattle.k_types.specs.Bounds.{most_check_bytes};
ghost use Rattle.k_trace.specs.Meaning.{meaning_of};
ghost use Rattle.k_trace.specs.Rules.{IsTrace};
ghost use Rattle.k_status.specs.Telling.{IsUnwritten, Answers, TellsOfSource};
ghost use Rattle.k_answers.specs.Parts.{TellsOfAudit, TellsOfSnapshot};

use crate::parting::parts_of;
use crate::texts::{write_refused, write_sound, write_unsound};
use k_audit::{Verdict, audit};
use k_io::{ReadAllError, Sink, Source, read_all};
use k_status::{Status, want_of_memory, write_bad_trace};
use k_trace::{Trace, TraceError};
use k_types::MOST_CHECK_BYTES;
use std::alloc::Global;

/// Reads a trace and a snapshot from the source, and writes whether the snapshot is that of a sound state over the header of the trace, or
/// its first wrong line, or the lowest point that does not hold. It reads at most one byte past the most bytes of what a check reads.
pub fn audit_file<S: Source, K: Sink>(alloc: Global, src: &mut S, out: &mut K) -> Status
    ensures answered { Answers
        (TellsOfSource most_check_bytes TellsOfAudit
        (record { left = S.left src.old; rest = S.left src.new; failed_before = S.faults src.old; failed_after = S.faults src.new }))
        (record { agreed = K.Holds out.old; agrees = K.Holds out.new; failed_before = K.faults out.old; failed_after = K.faults out.new })
        result }
    ensures unwritten { IsUnwritten result → out.new ≡ out.old }
{
    match read_all(alloc, src, MOST_CHECK_BYTES) {
        Ok(bytes) => audit_bytes(alloc, &bytes, out),
        Err(ReadAllError::NoMemory(refused)) => want_of_memory(refused),
        Err(ReadAllError::ReadFault) => Status::ReadFault,
    }
}

/// Audits the snapshot that begins at the first line `snapshot 1` over the header of the trace that the bytes before it spell, or says
/// where these are none. Where there is no such line all bytes are the trace's, and the snapshot is empty.
fn audit_bytes<K: Sink>(alloc: Global, bytes: &[u8], out: &mut K) -> Status
    ensures answered { Answers (TellsOfAudit bytes.now)
        (record { agreed = K.Holds out.old; agrees = K.Holds out.new; failed_before = K.faults out.old; failed_after = K.faults out.new })
        result }
    ensures unwritten { IsUnwritten result → out.new ≡ out.old }
{
    match parts_of(alloc, bytes, b"snapshot 1") {
        Ok((trace, snapshot)) => audit_over(alloc, &trace, snapshot, out),
        Err(TraceError::NoMemory(refused)) => want_of_memory(refused),
        Err(TraceError::Bad { line, reason }) => write_bad_trace(out, line, reason),
    }
}

/// Audits the snapshot over the header of the trace.
fn audit_over<K: Sink>(alloc: Global, trace: &Trace, snapshot: &[u8], out: &mut K) -> Status
    requires good { IsTrace (meaning_of trace.now) }
    requires few { length snapshot.now < 2 ^ 32 - 1 }
    ensures answered { Answers (TellsOfSnapshot (meaning_of trace.now) snapshot.now)
        (record { agreed = K.Holds out.old; agrees = K.Holds out.new; failed_before = K.faults out.old; failed_after = K.faults out.new })
        result }
    ensures unwritten { IsUnwritten result → out.new ≡ out.old }
{
    match audit(alloc, &trace.setup, &trace.names, snapshot) {
        Ok(Verdict::Sound) => write_sound(out),
        Ok(Verdict::Line(line)) => write_refused(out, line),
        Ok(Verdict::Point(point)) => write_unsound(out, point),
        Err(refused) => want_of_memory(refused),
    }
}
