//! The two parts of an input that has a trace, and a report or a snapshot behind it.
ghost use Rattle.std.specs.Prelude.{IfErr, IfOk};
ghost use Rattle.k_trace.specs.Meaning.{meaning_of};
ghost use Rattle.k_answers.specs.Inputs.{AreBadParts, AreTraceAnd};

use k_reader::read_trace;
use k_trace::{Reason, Trace, TraceError};
use k_types::MOST_CHECK_BYTES;
use k_words::split_at_line;
use std::alloc::Global;

/// The trace that the bytes before the first line `opening` spell, and the bytes from that line on. Where there is no such line all bytes
/// are the trace's, and nothing stands behind it.
///
/// `Bad` comes where the bytes are too many, with line 0, or where those of the trace spell none.
pub fn parts_of<'a>(
    alloc: Global,
    bytes: &'a [u8],
    opening: &[u8],
) -> Result<(Trace, &'a [u8]), TraceError>
    ensures ok { IfOk result (λ parts. AreTraceAnd opening.now bytes.now (meaning_of parts.0) parts.1.now) }
    ensures bad { IfErr result (AreBadParts opening.now bytes.now) }
{
    if bytes.len() > MOST_CHECK_BYTES {
        return Err(TraceError::Bad {
            line: 0,
            reason: Reason::TooManyBytes.number(),
        });
    }
    let (front, behind) = split_at_line(bytes, opening);
    match read_trace(alloc, front) {
        Ok(trace) => Ok((trace, behind)),
        Err(error) => Err(error),
    }
}
