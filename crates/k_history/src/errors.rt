//! Why a report has no history.
ghost use Rattle.std.specs.Prelude.{◌≡◌};
ghost use Rattle.k_history.specs.declared.errors.HistoryError.TheVariants as errors;

use k_io::NoMemory;

/// Why a report has no history.
#[derive(Clone, Copy, Debug, PartialEq, Eq)]
pub enum HistoryError {
    /// The number of the first line up to the line `graph` that is not in the report's grammar, counted from 1; where
    /// there is no line `graph`, the number that the next line would have.
    Bad(u32),
    /// Memory ran out.
    NoMemory(NoMemory),
}

impl From<NoMemory> for HistoryError {
    ghost from_gives = { λ given e. e ≡ errors.NoMemory given };

    fn from(error: NoMemory) -> HistoryError {
        HistoryError::NoMemory(error)
    }
}
