//! A trace is read, line by line, from its bytes.
ghost use Rattle.std.specs.Prelude.{◌≡◌, ◌≤◌, ◌+◌, length, IfOk, IfErr};
ghost use Rattle.k_limits.specs.k_types.Bounds.{most_trace_bytes};
ghost use Rattle.k_limits.specs.k_types.TraceRules.{KeepsRules};
ghost use Rattle.k_words.specs.Words.{lines_of};
ghost use Rattle.k_trace.specs.Judgement.{judged_lines};
ghost use Rattle.k_trace.specs.Meaning.{meaning_of};
ghost use Rattle.k_trace.specs.Reading.{ReadsLines, IsRefused};
ghost use Rattle.k_trace.specs.Rules.{Spells};

use crate::reader::Reader;
use k_limits::MOST_TRACE_BYTES;
use k_trace::{LineError, Reason, Trace, TraceError};
use k_words::next_line;
use std::alloc::Global;

/// Takes the lines one after the other. The answer is the number that the next line would have.
fn read_lines(alloc: Global, reader: &mut Reader, bytes: &[u8]) -> Result<u32, TraceError>
    requires { length bytes.now ≤ most_trace_bytes }
    ensures { ReadsLines result reader.new (judged_lines 1 reader.old (lines_of bytes.now)) (length (lines_of bytes.now) + 1) }
{
    let mut rest = bytes;
    let mut number: u32 = 1;
    while !rest.is_empty() {
        let (line, after) = next_line(rest);
        match reader.take(alloc, line) {
            Ok(()) => {}
            Err(LineError::NoMemory(refused)) => return Err(TraceError::NoMemory(refused)),
            Err(LineError::Bad(reason)) => {
                return Err(TraceError::Bad {
                    line: number,
                    reason: reason.number(),
                });
            }
        }
        number += 1;
        rest = after;
    }
    Ok(number)
}

/// The trace that the bytes spell. They are read in one pass, line by line.
///
/// `Bad` comes exactly where the bytes spell no trace, with the first bad line, counted from 1, and the
/// lowest reason that applies to it; line 0 stands for bytes beyond the most of a trace. `NoMemory` comes
/// where memory runs out. Time and memory go with the number of bytes.
#[tactic(auto, unfolding(k_trace::specs::Judgement::judgement))]
pub fn read_trace(alloc: Global, bytes: &[u8]) -> Result<Trace, TraceError>
    ensures ok { IfOk result (λ t. Spells bytes.now (meaning_of t)) }
    ensures rules { IfOk result (λ t. KeepsRules (meaning_of t).trace) }
    ensures bad { IfErr result (λ e. IsRefused bytes.now e) }
{
    if bytes.len() > MOST_TRACE_BYTES {
        return Err(TraceError::Bad {
            line: 0,
            reason: Reason::TooManyBytes.number(),
        });
    }
    let mut reader = Reader::new(alloc);
    let number = match read_lines(alloc, &mut reader, bytes) {
        Ok(number) => number,
        Err(error) => return Err(error),
    };
    if !reader.has_process() {
        return Err(TraceError::Bad {
            line: number,
            reason: Reason::CutOff.number(),
        });
    }
    let trace = reader.finish(alloc)?;
    Ok(trace)
}
