//! Why a text is read as no snapshot.
ghost use Rattle.std.specs.Prelude.{◌≡◌};
ghost use Rattle.k_audit.specs.declared.errors.SnapshotError.TheVariants as errors;

use k_io::NoMemory;

/// Why a text is read as no snapshot.
#[derive(Clone, Copy, Debug, PartialEq, Eq)]
pub enum SnapshotError {
    /// The number of the first line that does not fit, is missing, has no line feed or is too many, counted from 1.
    Bad(u32),
    /// Memory ran out.
    NoMemory(NoMemory),
}

impl From<NoMemory> for SnapshotError {
    ghost from_gives = { λ given e. e ≡ errors.NoMemory given };

    fn from(error: NoMemory) -> SnapshotError {
        SnapshotError::NoMemory(error)
    }
}
