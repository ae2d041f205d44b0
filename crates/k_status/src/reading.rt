//! The trace that a source gives.
ghost use Rattle.std.specs.Prelude.{IfErr, IfOk};
ghost use Rattle.k_trace.specs.Meaning.{meaning_of};
ghost use Rattle.k_status.specs.Readings.{GaveTrace, HasCause};

use crate::run_error::RunError;
use k_io::{ReadAllError, Source, read_all};
use k_reader::read_trace;
use k_trace::{Trace, TraceError};
use k_types::MOST_TRACE_BYTES;
use std::alloc::Global;

/// The trace that the source gives.
pub fn trace_of<S: Source>(alloc: Global, src: &mut S) -> Result<Trace, RunError>
    ensures ok { IfOk result (λ trace. GaveTrace (record { left = S.left src.old; rest = S.left src.new; failed_before = S.faults src.old; failed_after = S.faults src.new }) (meaning_of trace)) }
    ensures err { IfErr result (λ error. HasCause (record { left = S.left src.old; rest = S.left src.new; failed_before = S.faults src.old; failed_after = S.faults src.new }) error) }
{
    match read_all(alloc, src, MOST_TRACE_BYTES) {
        Ok(bytes) => match read_trace(alloc, &bytes) {
            Ok(trace) => Ok(trace),
            Err(TraceError::NoMemory(refused)) => Err(RunError::NoMemory(refused)),
            Err(TraceError::Bad { line, reason }) => Err(RunError::Bad { line, reason }),
        },
        Err(ReadAllError::NoMemory(refused)) => Err(RunError::NoMemory(refused)),
        Err(ReadAllError::ReadFault) => Err(RunError::Unread),
    }
}
