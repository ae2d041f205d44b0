//! Why nothing is printed of a host.
ghost use Rattle.std.specs.Prelude.{◌≡◌};

use k_print::PrintError;
use k_types::NoMemory;

/// Why nothing is printed of a host.
#[derive(Clone, Copy, Debug, PartialEq, Eq)]
pub enum ChronicleError {
    /// The journal has forgotten its first events: the host was made to keep fewer than there are.
    Forgotten,
    /// The journal can't be printed.
    Print(PrintError),
}

impl From<PrintError> for ChronicleError {
    ghost use Rattle.k_chronicle.specs.declared.errors.ChronicleError.TheVariants as chronicle_errors;

    ghost from_gives = { λ why e. e ≡ chronicle_errors.Print why };

    fn from(why: PrintError) -> ChronicleError {
        ChronicleError::Print(why)
    }
}

impl From<NoMemory> for ChronicleError {
    ghost use Rattle.k_chronicle.specs.declared.errors.ChronicleError.TheVariants as chronicle_errors;
    ghost use Rattle.k_print.specs.declared.errors.PrintError.TheVariants as print_errors;

    ghost from_gives = { λ refused e. e ≡ chronicle_errors.Print (print_errors.NoMemory refused) };

    fn from(refused: NoMemory) -> ChronicleError {
        ChronicleError::Print(PrintError::NoMemory(refused))
    }
}
