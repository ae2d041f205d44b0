//! The translation of the script that a source gives.
ghost use Rattle.std.specs.Prelude.{IfErr, IfOk};
ghost use Rattle.k_trace.specs.Meaning.{meaning_of};
ghost use Rattle.k_answers.specs.Scripts.{GaveScript, HasCause};

use k_io::{ReadAllError, Source, read_all};
use k_spawn::{ScriptError, read_script, translate};
use k_status::RunError;
use k_trace::Trace;
use k_types::MOST_TRACE_BYTES;
use std::alloc::Global;

/// The translation of the script that the source gives.
pub fn translation_of<S: Source>(alloc: Global, src: &mut S) -> Result<Trace, RunError>
    ensures ok { IfOk result (λ trace. GaveScript (record { left = S.left src.old; rest = S.left src.new; failed_before = S.faults src.old; failed_after = S.faults src.new }) (meaning_of trace)) }
    ensures err { IfErr result (λ error. HasCause (record { left = S.left src.old; rest = S.left src.new; failed_before = S.faults src.old; failed_after = S.faults src.new }) error) }
{
    match read_all(alloc, src, MOST_TRACE_BYTES) {
        Ok(bytes) => match read_script(alloc, &bytes) {
            Ok(script) => Ok(translate(alloc, &script)?),
            Err(ScriptError::NoMemory(refused)) => Err(RunError::NoMemory(refused)),
            Err(ScriptError::Bad { line, reason }) => Err(RunError::Bad { line, reason }),
        },
        Err(ReadAllError::NoMemory(refused)) => Err(RunError::NoMemory(refused)),
        Err(ReadAllError::ReadFault) => Err(RunError::Unread),
    }
}
