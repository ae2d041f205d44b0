//! Why a journal is not printed.
ghost use Rattle.std.specs.Prelude.{◌≡◌};

use k_io::NoMemory;

/// Why a journal is not printed.
#[derive(Clone, Copy, Debug, PartialEq, Eq)]
pub enum PrintError {
    /// Memory ran out.
    NoMemory(NoMemory),
    /// An operation names a field that no line of a trace can have, 16 or one above.
    Unspelled,
    /// There are more operations than a trace can have, 200,000.
    TooMany,
    /// The text of the trace has more than 16,777,216 bytes, or both texts have more than 67,108,864.
    TooLong,
    /// A collection is open.
    Open,
    /// Every process has ended, and the report of such a journal would have to end with the last collection.
    Over,
}

impl From<NoMemory> for PrintError {
    ghost use Rattle.k_print.specs.declared.errors.PrintError.TheVariants as print_errors;

    ghost from_gives = { λ refused e. e ≡ print_errors.NoMemory refused };

    fn from(refused: NoMemory) -> PrintError {
        PrintError::NoMemory(refused)
    }
}
