//! Why no host is made, and why none is made larger.
ghost use Rattle.std.specs.Prelude.{◌≡◌};

use k_types::NoMemory;

/// Why no host is made.
#[derive(Clone, Copy, Debug, PartialEq, Eq)]
pub enum OpenError {
    /// Memory ran out.
    NoMemory(NoMemory),
    /// The text spells no trace: the number of its first bad line, counted from 1, and the number of the reason.
    Bad { line: u32, reason: u32 },
    /// The setup has no such type, or the rooms are not fit.
    Terms,
}

impl From<NoMemory> for OpenError {
    ghost use Rattle.k_host.specs.declared.errors.OpenError.TheVariants as open_errors;

    ghost from_gives = { λ refused e. e ≡ open_errors.NoMemory refused };

    fn from(refused: NoMemory) -> OpenError {
        OpenError::NoMemory(refused)
    }
}

/// Why a host gets no larger rooms.
#[derive(Clone, Copy, Debug, PartialEq, Eq)]
pub enum GrowError {
    /// Memory ran out.
    NoMemory(NoMemory),
    /// The rooms are no larger ones, or more than a host can be asked to have.
    Rooms,
}

impl From<NoMemory> for GrowError {
    ghost use Rattle.k_host.specs.declared.errors.GrowError.TheVariants as grow_errors;

    ghost from_gives = { λ refused e. e ≡ grow_errors.NoMemory refused };

    fn from(refused: NoMemory) -> GrowError {
        GrowError::NoMemory(refused)
    }
}
