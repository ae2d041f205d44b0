//! Why bytes are no script.
ghost use Rattle.std.specs.Prelude.{◌≡◌};
ghost use Rattle.k_spawn.specs.Reasons.{reason_number};

use k_trace::Reason;

/// Why a line of a script is bad.
#[derive(Clone, Copy, Debug, PartialEq, Eq)]
pub enum ScriptReason {
    /// A reason for which a line of a trace is bad.
    OfTrace(Reason),
    /// The process of a `spawn` or a `reap` is not the parent of the child.
    Stranger,
    /// The line's process is a child that is not there, or the child was spawned or reaped before.
    Untimely,
}

impl ScriptReason {
    /// The number of the reason: those of traces from 1 to 12, and 14 and 15.
    pub fn number(self) -> u32
        ensures { result ≡ reason_number self }
    {
        match self {
            ScriptReason::OfTrace(reason) => reason.number(),
            ScriptReason::Stranger => 14,
            ScriptReason::Untimely => 15,
        }
    }
}
