//! Why no tree of limits was made, and why a limit kept its maximum.
use k_types::{LimitId, NoMemory};

/// Why no tree of limits was made.
#[derive(Clone, Copy, Debug, PartialEq, Eq)]
pub enum MakeError {
    /// The maximum of the hard limit in the row of this number doesn't fit on its parent's path, and no row before it is
    /// such a row.
    ReserveFull(u32),
    /// There is no memory for the tree.
    NoMemory(NoMemory),
}

impl From<NoMemory> for MakeError {
    ghost use Rattle.std.specs.Prelude.{◌≡◌};
    ghost use Rattle.k_limits.specs.declared.error.MakeError.TheVariants as make_errors;

    ghost from_gives = { λ refused e. e ≡ make_errors.NoMemory refused };

    fn from(refused: NoMemory) -> MakeError {
        MakeError::NoMemory(refused)
    }
}

/// Why a limit kept its maximum.
#[derive(Clone, Copy, Debug, PartialEq, Eq)]
pub enum ResizeRefusal {
    /// More is used at the limit than the maximum that was asked for.
    InUse,
    /// What the limit would get more doesn't fit at this one, the first full one from its parent upward.
    Full(LimitId),
}
