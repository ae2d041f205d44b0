//! What came of a turn of a process.
ghost use Rattle.std.specs.Prelude.{◌≡◌, if◌then◌else◌};
ghost use Rattle.k_worker.specs.declared.turns.Turn.TheVariants.{Done, Over};

use k_types::Pid;

/// What came of a turn: an operation was done, none was, or the kill of that process comes next, for which its lock is wanted too.
#[derive(Clone, Copy, Debug, PartialEq, Eq)]
pub(crate) enum Turn {
    Done,
    Over,
    Kills(Pid),
}

impl Turn {
    /// The turn that was one, or was none.
    pub(crate) fn of(done: bool) -> Turn
        ensures { result ≡ (if done then Done else Over) }
    {
        if done { Turn::Done } else { Turn::Over }
    }
}
