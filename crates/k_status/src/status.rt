//! How a call ends, and the number that the program ends with.
ghost use Rattle.std.specs.Prelude.{◌≡◌};
ghost use Rattle.std.specs.Process.{exit_status};
ghost use Rattle.k_status.specs.Numbers.{number_of};

use k_io::NoMemory;
use std::process::ExitCode;

/// How a call ended. As a number from 0 to 6, in this order, it is the program's exit status.
#[derive(Clone, Copy, Debug, PartialEq, Eq)]
pub enum Status {
    /// The command was done, and its text was written.
    Good,
    /// The input is no trace, or by `tree` no script.
    BadTrace,
    /// The words are no command.
    Usage,
    /// Memory ran out before anything was written.
    WantOfMemory,
    /// The source failed before anything was written.
    ReadFault,
    /// The sink failed. It took a front of a text that another status would have written whole.
    WriteFault,
    /// The report that was read is not that of a legal and complete history of its trace, or the snapshot that was read is none, or not
    /// that of a sound state.
    Refused,
}

/// The status of a call whose allocation was refused. No other place makes it.
pub fn want_of_memory(_refused: NoMemory) -> Status
    ensures { result ≡ Status.WantOfMemory }
{
    Status::WantOfMemory
}

/// The exit status of the program.
pub fn exit_code(status: Status) -> ExitCode
    ensures { exit_status result ≡ number_of status }
{
    ExitCode::from(status as u8)
}
