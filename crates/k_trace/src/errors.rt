//! Why a line, or the whole text of a trace, isn't read.
ghost use Rattle.std.specs.Prelude.{◌≡◌};

use crate::reasons::Reason;
use k_io::NoMemory;

/// Why a line isn't taken: memory ran out, or the line is bad by this reason.
#[derive(Debug, Drop)]
pub enum LineError {
    /// Memory ran out.
    NoMemory(NoMemory),
    /// The lowest reason that applies to the line.
    Bad(Reason),
}

impl From<NoMemory> for LineError {
    ghost use Rattle.k_trace.specs.declared.errors.LineError.TheVariants as line_errors;

    ghost from_gives = { λ refused e. e ≡ line_errors.NoMemory refused };

    fn from(refused: NoMemory) -> LineError {
        LineError::NoMemory(refused)
    }
}

/// Why bytes are no trace that can be read.
#[derive(Debug, Drop)]
pub enum TraceError {
    /// Memory ran out.
    NoMemory(NoMemory),
    /// The number of the line, counted from 1, and the number of the reason.
    Bad { line: u32, reason: u32 },
}

impl From<NoMemory> for TraceError {
    ghost use Rattle.k_trace.specs.declared.errors.TraceError.TheVariants as trace_errors;

    ghost from_gives = { λ refused e. e ≡ trace_errors.NoMemory refused };

    fn from(refused: NoMemory) -> TraceError {
        TraceError::NoMemory(refused)
    }
}
