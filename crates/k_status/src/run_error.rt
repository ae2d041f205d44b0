//! Why no trace was run.
ghost use Rattle.std.specs.Prelude.{◌≡◌};

use k_io::NoMemory;

/// Why no trace was run.
#[derive(Debug, Drop)]
pub enum RunError {
    /// Memory ran out.
    NoMemory(NoMemory),
    /// The source failed.
    Unread,
    /// What was read is no trace, or no script where one is asked for. Lines are counted from 1, and line 0 stands for the whole input.
    Bad { line: u32, reason: u32 },
}

impl From<NoMemory> for RunError {
    ghost use Rattle.k_status.specs.declared.run_error.RunError.TheVariants as run_errors;

    ghost from_gives = { λ refused e. e ≡ run_errors.NoMemory refused };

    fn from(refused: NoMemory) -> RunError {
        RunError::NoMemory(refused)
    }
}
