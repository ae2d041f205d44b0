//! Why a line, or the whole text of a script, is not read.
ghost use Rattle.std.specs.Prelude.{◌≡◌};

use crate::reasons::ScriptReason;
use k_types::NoMemory;

/// Why a line is not taken: memory ran out, or the line is bad by this reason.
#[derive(Debug, Drop)]
pub enum ScriptLineError {
    /// Memory ran out.
    NoMemory(NoMemory),
    /// The lowest reason that applies to the line.
    Bad(ScriptReason),
}

impl From<NoMemory> for ScriptLineError {
    ghost use Rattle.k_spawn.specs.declared.errors.ScriptLineError.TheVariants as line_errors;

    ghost from_gives = { λ refused e. e ≡ line_errors.NoMemory refused };

    fn from(refused: NoMemory) -> ScriptLineError {
        ScriptLineError::NoMemory(refused)
    }
}

/// Why bytes are no script that can be read.
#[derive(Debug, Drop)]
pub enum ScriptError {
    /// Memory ran out.
    NoMemory(NoMemory),
    /// The number of the line, counted from 1, and the number of the reason.
    Bad { line: u32, reason: u32 },
}

impl From<NoMemory> for ScriptError {
    ghost use Rattle.k_spawn.specs.declared.errors.ScriptError.TheVariants as script_errors;

    ghost from_gives = { λ refused e. e ≡ script_errors.NoMemory refused };

    fn from(refused: NoMemory) -> ScriptError {
        ScriptError::NoMemory(refused)
    }
}
