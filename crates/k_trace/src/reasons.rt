//! Why bytes are no trace.
ghost use Rattle.std.specs.Prelude.{◌≡◌};
ghost use Rattle.k_trace.specs.Reasons.{reason_number};

/// Why a line is bad. The reasons stand in the order of their numbers, from 1; of all that apply to a line the first
/// one counts.
#[derive(Clone, Copy, Debug, PartialEq, Eq)]
pub enum Reason {
    /// The input has more bytes than a trace may have.
    TooManyBytes,
    /// The line has more bytes than a line may have.
    LongLine,
    /// A byte is neither a space nor a visible character of ASCII.
    Unprintable,
    /// The line has none of the forms that are allowed in its place.
    NoForm,
    /// A word in the place of a number or a register is none, or is out of range.
    NoNumber,
    /// A word in the place of a new name is no name, or is reserved.
    NoName,
    /// A new name was declared before, among those from which it must differ.
    NameTaken,
    /// A type, a limit, a process or a shared heap is not declared.
    Undeclared,
    /// A count passes its bound.
    TooMany,
    /// What a hard limit reserves does not fit, or the ceiling is below the directory's size.
    NoRoom,
    /// The operation's process has an exit before it.
    AfterExit,
    /// The input ends before the kernel's line, a limit or a process was read.
    CutOff,
}

impl Reason {
    /// The number of the reason, from 1 to 12.
    pub fn number(self) -> u32
        ensures { result ≡ reason_number self }
    {
        self as u32 + 1
    }
}
