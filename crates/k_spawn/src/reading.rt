//! A script is read, line by line, from its bytes.
ghost use Rattle.std.specs.Prelude.{◌≡◌, ◌≤◌, ◌+◌, Ok, length, IfOk, IfErr, OnOk};
ghost use Rattle.std.specs.List.{AllByRecursion};
ghost use Rattle.k_types.specs.Bounds.{most_trace_bytes};
ghost use Rattle.k_trace.specs.Words.{lines_of};
ghost use Rattle.k_trace.specs.Rules.{IsTrace};
ghost use Rattle.k_spawn.specs.Judgement.{judged_lines, judgement};
ghost use Rattle.k_spawn.specs.Outcome.{IsReader, ReadsLines, IsRefused, so_far};
ghost use Rattle.k_spawn.specs.Translated.{IsLineOf};
ghost use Rattle.k_spawn.specs.Translation.{translation};

use crate::errors::{ScriptError, ScriptLineError};
use crate::reader::ScriptReader;
use crate::script::Script;
use k_trace::Reason;
use k_types::MOST_TRACE_BYTES;
use k_words::next_line;
use std::alloc::Global;

/// Takes the lines one after the other. The answer is the number that the next line would have.
fn read_lines(alloc: Global, reader: &mut ScriptReader, bytes: &[u8]) -> Result<u32, ScriptError>
    requires few { length bytes.now ≤ most_trace_bytes }
    requires ready { IsReader reader.old }
    ensures read { ReadsLines result (so_far reader.new) (judged_lines 1 (so_far reader.old) (lines_of bytes.now)) (length (lines_of bytes.now) + 1) }
    ensures ready { OnOk result (IsReader reader.new) }
{
    let mut rest = bytes;
    let mut number: u32 = 1;
    while !rest.is_empty() {
        let (line, after) = next_line(rest);
        match reader.take(alloc, line) {
            Ok(()) => {}
            Err(ScriptLineError::NoMemory(refused)) => return Err(ScriptError::NoMemory(refused)),
            Err(ScriptLineError::Bad(reason)) => {
                return Err(ScriptError::Bad {
                    line: number,
                    reason: reason.number(),
                });
            }
        }
        number += 1;
        rest = after;
    }
    Ok(number)
}

/// The script that the bytes are. They are read in one pass, line by line.
///
/// # Errors
///
/// `Bad` comes exactly where the bytes are no script, with the first bad line, counted from 1, and the lowest reason that applies to
/// it; line 0 stands for bytes beyond the most of a trace. `NoMemory` comes where memory runs out. Time and memory go with the number
/// of bytes and of the operations that the lines become.
#[tactic(auto, unfolding(crate::specs::Judgement::judgement))]
pub fn read_script(alloc: Global, bytes: &[u8]) -> Result<Script, ScriptError>
    ensures ok { IfOk result (λ s. judgement bytes.now ≡ Ok s) }
    ensures rules { IfOk result (λ s. IsTrace (translation s)) }
    ensures lines { IfOk result (λ s. AllByRecursion (IsLineOf s) s.lines) }
    ensures bad { IfErr result (λ e. IsRefused bytes.now e) }
{
    if bytes.len() > MOST_TRACE_BYTES {
        return Err(ScriptError::Bad {
            line: 0,
            reason: Reason::TooManyBytes.number(),
        });
    }
    let mut reader = ScriptReader::new(alloc);
    let number = match read_lines(alloc, &mut reader, bytes) {
        Ok(number) => number,
        Err(error) => return Err(error),
    };
    if !reader.has_process() {
        return Err(ScriptError::Bad {
            line: number,
            reason: Reason::CutOff.number(),
        });
    }
    let script = reader.finish(alloc)?;
    Ok(script)
}
